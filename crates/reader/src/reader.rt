// One file after the other, line by line.
use crate::answer::Answer;
use crate::arguments::{Argument, Path, Text, take};
use crate::lines::Lines;
use crate::report::{Report, Style};
use output::Streams;
use std::io::{ErrorKind, Read};
use std::rt::{Env, Files};
use std::{fs, io, str};

// The system's number for a name that is too long.
const NAME_TOO_LONG: i32 = 36;

// All that reading takes. It is large, and made once. (Arrays, and no `Vec`: this project takes memory of a fixed size alone.)
#[derive(Drop)]
pub struct Reader {
    lines: Lines,
    answer: Answer,
    report: Report,
}

// A name is passed on as text, so one that is none names no file here.
fn open<R: Files>(rt: &R, name: Text) -> io::Result<R::File> {
    if name.is_cut {
        return Err(io::Error::from_raw_os_error(NAME_TOO_LONG));
    }
    match str::from_utf8(name.bytes) {
        Ok(text) => fs::open(rt, text),
        Err(_) => Err(io::Error::new(ErrorKind::InvalidFilename, "The name is not UTF-8")),
    }
}

impl Reader {
    pub fn new(streams: Streams, style: Style) -> Reader {
        Reader {
            lines: Lines::none(),
            answer: Answer::blank(),
            report: Report::to(streams, style),
        }
    }

    fn each_line<R: Read>(&mut self, from: &mut R, name: &[u8]) -> io::Result<()> {
        self.lines.restart();
        for number in 1..=u64::MAX {
            let Some(line) = self.lines.take(from)? else {
                break;
            };
            self.report.tell_line(name, number, line, &mut self.answer);
        }
        Ok(())
    }

    // What waits is written before a fault is told, so that the two come in order.
    fn read<R: Read>(&mut self, from: &mut R, name: &[u8]) {
        let end = self.each_line(from, name);
        self.report.flush();
        if let Err(why) = end {
            self.report.tell_not_read(name, why);
        }
    }

    // Here and below: what is read differs, and how it is opened; the reading is one generic `read`.
    pub fn read_input<R: Input>(&mut self, rt: &R, name: &[u8]) {
        let mut from = rt.reader();
        self.read(&mut from, name);
    }

    // A name that is too long is told by its front.
    fn read_file<R: Files>(&mut self, rt: &R, name: Text) {
        match open(rt, name) {
            Ok(mut file) => self.read(&mut file, name.bytes),
            Err(why) => self.report.tell_not_read(name.bytes, why),
        }
    }

    pub fn read_arguments<R: Env + Files + Input>(&mut self, rt: &R, path: &mut Path) {
        let mut names_only = false;
        for i in 1..usize::MAX {
            let Some(text) = take(rt, i, path) else {
                break;
            };
            match Argument::of(text.bytes, names_only) {
                Argument::File => self.read_file(rt, text),
                Argument::Input => self.read_input(rt, text.bytes),
                Argument::NamesFollow => names_only = true,
                // The survey took the options in, and ended where one was unknown.
                Argument::Plain | Argument::Unknown => {}
            }
        }
    }

    pub fn end(&mut self) {
        self.report.end();
    }
}
