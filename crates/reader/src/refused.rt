// A refused line in full: the number and the reason, and the line with its fault marked.
use crate::lines::Line;
use crate::shown::{Shown, between};
use output::Output;
use refusal::{Refusal, Span};
use std::fmt::Write;

// At most so many bytes of a line are shown, and of a longer line so many before the fault.
const WIDTH: usize = 120;

const BEFORE: usize = 60;

pub fn put_refused(out: &mut Output, line: Line, why: Refusal) {
    let Refusal { fault, span } = why;
    let start = span.start.0;
    let _ = writeln!(
        out,
        "refused {} at {start}, {}: {fault}",
        fault.number(),
        span.len
    );
    let window = Window::around(start, line.len);
    window.put_text(out, line);
    window.put_marks(out, span);
}

// What is shown of a line: from one place up to another.
#[derive(Clone, Copy)]
struct Window {
    from: usize,
    to: usize,
}

impl Window {
    fn around(start: usize, len: usize) -> Window {
        let from = if len <= WIDTH {
            0
        } else {
            start.saturating_sub(BEFORE)
        };
        Window {
            from,
            to: len.min(from.saturating_add(WIDTH)),
        }
    }

    fn put_text(self, out: &mut Output, line: Line) {
        let before = if 0 < self.from { ".." } else { "" };
        let behind = if self.to < line.len { ".." } else { "" };
        out.text(b"    ");
        out.text(before.as_bytes());
        Shown(between(line.held, self.from, self.to)).put(out);
        out.text(behind.as_bytes());
        out.put(b'\n');
    }

    // A mark below each byte of the span that is shown, and one at least.
    fn put_marks(self, out: &mut Output, span: Span) {
        let start = span.start.0;
        let before: usize = if 0 < self.from { 6 } else { 4 };
        put_times(
            out,
            b' ',
            before.saturating_add(start.saturating_sub(self.from)),
        );
        put_times(
            out,
            b'^',
            span.len.min(self.to.saturating_sub(start)).max(1),
        );
        out.put(b'\n');
    }
}

fn put_times(out: &mut Output, byte: u8, times: usize) {
    for _ in 0..times {
        out.put(byte);
    }
}
