// One line after the other of what is read.
use input::{Ended, Feed, HELD};
use std::io;
use std::io::Read;

// The front of a line, as much as is held, and how long the line is.
#[derive(Clone, Copy)]
pub struct Line<'a> {
    pub held: &'a [u8],
    pub len: usize,
}

impl Line<'_> {
    // A comment or a line of white space alone. Of a line that is longer than what is held this cannot be said, and it is read.
    pub fn is_passed_over(&self) -> bool {
        self.held.starts_with(b"#")
            || self.len == self.held.len() && self.held.iter().all(|byte| text::is_space(*byte))
    }
}

// Bytes are fetched into one array, and taken line by line into the other.
#[derive(Drop)]
pub struct Lines {
    fetched: [u8; input::ROOM],
    line: [u8; HELD],
    feed: Feed,
}

impl Lines {
    pub fn none() -> Lines {
        Lines {
            fetched: [0; input::ROOM],
            line: [0; HELD],
            feed: Feed::empty(),
        }
    }

    // Forgets what is fetched.
    pub fn restart(&mut self) {
        self.feed = Feed::empty();
    }

    // The next line, without the CR before its LF, and none at the end. A last line without LF is one; what stands before a fault is none, since it may be cut.
    pub fn take<R: Read>(&mut self, from: &mut R) -> io::Result<Option<Line<'_>>> {
        let got = input::take_line(from, &mut self.fetched, self.feed, &mut self.line);
        self.feed = got.feed;
        let len = match got.ended {
            Ended::ByFault(why) => return Err(why),
            Ended::ByEnd if got.len == 0 => return Ok(None),
            Ended::ByLineFeed if got.last == b'\r' => got.len.saturating_sub(1),
            _ => got.len,
        };
        Ok(Some(Line {
            held: &self.line[..len.min(HELD)],
            len,
        }))
    }
}
