// What is told of each line and file that is read, and how many there were.
use crate::accepted::put_accepted;
use crate::answer::Answer;
use crate::lines::Line;
use crate::place::Place;
use crate::refused::put_refused;
use crate::tally::Tally;
use output::{Output, Streams, tell_failure};
use refusal::Refusal;
use std::fmt::Write;
use std::io;
use std::io::IsTerminal;

// How it is told: as rows for other tools, and with the file's name where there are several.
// Two bools that the methods below ask: two styles are no more, and a trait for them would be longer.
#[derive(Clone, Copy)]
pub struct Style {
    pub plain: bool,
    pub named: bool,
}

#[derive(Drop)]
pub struct Report {
    streams: Streams,
    style: Style,
    tally: Tally,
    out: Output,
}

impl Report {
    pub fn to(streams: Streams, style: Style) -> Report {
        Report {
            streams,
            style,
            tally: Tally::none(),
            out: Output::to(streams),
        }
    }

    fn place<'a>(&self, name: &'a [u8], number: u64) -> Place<'a> {
        Place {
            name: self.style.named.then_some(name),
            number,
        }
    }

    pub fn tell_line(&mut self, name: &[u8], number: u64, line: Line, answer: &mut Answer) {
        self.tally.count_line();
        self.show_progress();
        if line.is_passed_over() {
            self.tally.count_passed_over();
            return;
        }
        let place = self.place(name, number);
        match answer.read(line.held) {
            Ok(()) => self.tell_accepted(place, line.held, answer),
            Err(why) => self.tell_refused(place, line, why),
        }
    }

    // Someone waits at a terminal and does not see the output there, which would show that work goes on.
    fn show_progress(&self) {
        let lines = self.tally.lines;
        let Streams { out, err } = self.streams;
        if lines % 10000 == 0 && err.is_terminal() && !out.is_terminal() {
            let _ = println!(err; "{lines} lines read");
        }
    }

    fn tell_accepted(&mut self, place: Place, line: &[u8], answer: &mut Answer) {
        self.tally.count_accepted();
        let out = &mut self.out;
        if self.style.plain {
            place.put_columns(out);
            out.text(b"ok\t");
            out.text(answer.normal_name(line));
            out.put(b'\t');
            wording::put_parts(out, &answer.parts);
            out.put(b'\n');
        } else {
            place.put_heading(out);
            put_accepted(out, line, answer);
        }
    }

    fn tell_refused(&mut self, place: Place, line: Line, why: Refusal) {
        self.tally.count_refused(why.fault);
        let out = &mut self.out;
        if self.style.plain {
            place.put_columns(out);
            wording::put_refused(out, why.fault.number(), why.span.start.0, why.span.len);
            out.put(b'\n');
        } else {
            place.put_heading(out);
            put_refused(out, line, why);
        }
    }

    pub fn flush(&mut self) {
        self.out.flush();
    }

    // A file that was not read to its end has a row too: rows are no whole answer without it.
    pub fn tell_not_read(&mut self, name: &[u8], why: io::Error) {
        tell_failure(self.streams, name, why);
        self.tally.count_not_read();
        if self.style.plain {
            self.place(name, 0).put_name(&mut self.out, b'\t');
            self.out.text(b"-\tnot read\n");
        }
    }

    // The last line: what was counted. Rows are for other tools and have none.
    pub fn end(&mut self) {
        if !self.style.plain {
            let _ = writeln!(self.out, "{}", self.tally);
        }
        self.flush();
    }
}
