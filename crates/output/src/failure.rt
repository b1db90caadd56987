// Why something failed, told on standard error in the words that the system has for it.
ghost use Rattle.std.specs.Prelude.{◌≤◌};

use crate::Streams;
use std::fmt::Write;
use std::{fmt, io};

// More than any error's words take.
const WORDS_ROOM: usize = 512;

// An error's words, gathered where they are formatted. (No `String`: this project takes memory of a fixed size alone.)
#[derive(Drop)]
struct Words {
    text: [u8; WORDS_ROOM],
    len: usize,
    ghost bounded: { len ≤ 512 },
}

impl Words {
    fn add(&mut self, byte: u8) {
        if self.len < WORDS_ROOM {
            self.text[self.len] = byte;
            self.len += 1;
        }
    }

    fn as_slice(&self) -> &[u8] {
        &self.text[..self.len]
    }
}

impl fmt::Write for Words {
    fn write_str(&mut self, s: &str) -> fmt::Result {
        for byte in s.as_bytes() {
            self.add(*byte);
        }
        Ok(())
    }
}

// The text without the ` (os error 28)` that stands behind the system's own words.
// All of it where no code stands there, and no None: either is what is told.
fn without_code(text: &[u8]) -> &[u8] {
    match text.iter().rposition(|byte| *byte == b'(') {
        Some(at) => &text[..at.saturating_sub(1)],
        None => text,
    }
}

// One line: what it is about, and why it failed.
pub fn tell_failure(streams: Streams, what: &[u8], why: io::Error) {
    let mut words = Words {
        text: [0; WORDS_ROOM],
        len: 0,
    };
    let _ = write!(words, "{why}");
    let text = if why.raw_os_error().is_some() {
        without_code(words.as_slice())
    } else {
        words.as_slice()
    };
    let _ = streams.err.write_all(what);
    let _ = streams.err.write_all(b": ");
    let _ = streams.err.write_all(text);
    let _ = streams.err.write_all(b"\n");
}
