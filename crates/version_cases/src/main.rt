// Offers each text of the list on standard input to its entry, holds it to the answer that stands before it, and counts those that differ.
#![tactic(auto)]

use std::io;

// As much of the list as is read.
const LIST: usize = 65536;

// A text offered as what the letter says: a version, a pattern, and else a specifier.
// (The letter stands in the stored list.)
fn accepts(letter: u8, text: &[u8]) -> bool {
    match letter {
        b'v' => version_entry::version(text),
        b'p' => version_entry::pattern(text),
        _ => version_entry::specifier(text),
    }
    .is_ok()
}

// Whether a line's answer is not ours: a letter, `+` or `-`, and the text.
fn is_missed(line: &[u8]) -> bool {
    let line = line.strip_suffix(b"\n").unwrap_or(line);
    line.len() < 2 || accepts(line[0], &line[2..]) != (line[1] == b'+')
}

fn main(rt: HostRuntime) -> io::Result<()> {
    let mut space = [0u8; LIST];
    let n = input::read_full(&mut rt.stdin(), &mut space);
    let list = &space[..n];
    let cases = list.split_inclusive(|b| *b == b'\n').count();
    let differ = list
        .split_inclusive(|b| *b == b'\n')
        .filter(|line| is_missed(line))
        .count();
    println!(rt; "cases {cases}, differ {differ}")
}
