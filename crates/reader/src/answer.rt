// What the gateway answers of a line.
use crate::shown::part;
use cursor::Cursor;
use figures::{
    COUNT, COUNT_FIGURES, LENGTH, LINE_HAS_URL, LINE_NAME_LENGTH, LINE_NAME_START, LINE_URL_LENGTH,
    LINE_URL_START, START,
};
use refusal::{Fault, Offset, Refusal, Span};
use wording::Parts;

// As long as a name can be.
const NAME: usize = Cursor::MAX_LINE;

// The parts of the line that was accepted last, and room for its name's normal form.
#[derive(Drop)]
pub struct Answer {
    pub parts: Parts,
    normal: [u8; NAME],
}

fn span(start: usize, len: usize) -> Span {
    Span {
        start: Offset(start),
        len,
    }
}

impl Answer {
    pub fn blank() -> Answer {
        Answer {
            parts: Parts::blank(),
            normal: [0; NAME],
        }
    }

    // Reads a line, whose parts stand here then, or says why it is refused.
    pub fn read(&mut self, line: &[u8]) -> Result<(), Refusal> {
        let number = gateway::hulmisker_line(
            line,
            &mut self.parts.figures,
            &mut self.parts.extras,
            &mut self.parts.specifiers,
            &mut self.parts.sheet.comparisons,
            &mut self.parts.sheet.warnings,
            &mut self.parts.sheet.words,
        );
        let figures = &self.parts.figures;
        match Fault::try_from(number) {
            Ok(fault) => Err(Refusal::new(fault, figures[START], figures[LENGTH])),
            // 0 stands for no fault.
            Err(_) => Ok(()),
        }
    }

    // The name of the line that was read, in normal form.
    pub fn normal_name(&mut self, line: &[u8]) -> &[u8] {
        let figures = &self.parts.figures;
        let name = span(figures[LINE_NAME_START], figures[LINE_NAME_LENGTH]);
        let mut counted = [0usize; COUNT_FIGURES];
        gateway::hulmisker_normalise(part(line, name), &mut self.normal, &mut counted);
        &self.normal[..counted[COUNT].min(NAME)]
    }

    pub fn url(&self) -> Option<Span> {
        let figures = &self.parts.figures;
        if figures[LINE_HAS_URL] == 0 {
            return None;
        }
        Some(span(figures[LINE_URL_START], figures[LINE_URL_LENGTH]))
    }
}
