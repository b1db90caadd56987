// The protocol of `probe`: one request line in, one answer out. docs/DECISIONS.md says what a request is.
#![tactic(auto)]

mod answers;
mod fields;

use answers::{put_answer, put_bad};
use fields::read_request;
use output::Output;

// More bytes than a request spells.
pub const DATA: usize = 10000;

// The longest output that the normaliser is offered.
pub const OUT: usize = 8192;

// A request has at most so many bytes, its line end not counted.
const MOST: usize = 20000;

// Answers the request that the line is. `data` and `normal` are room for it, whatever they hold. The answer has no line end.
pub fn answer(line: &[u8], data: &mut [u8; DATA], normal: &mut [u8; OUT], out: &mut Output) {
    if MOST < line.len() {
        put_bad(out);
        return;
    }
    match read_request(line, data) {
        Some((entry, text)) => put_answer(out, entry, text, normal),
        None => put_bad(out),
    }
}
