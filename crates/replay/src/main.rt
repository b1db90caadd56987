// Answers the requests of a list once more and compares with the answers that stand beside them. A line of standard input is a request, a tab and the answer;
// oracle/make_replay.py writes them.
#![tactic(auto)]

use input::{Ended, Feed, HELD};
use output::{Output, Streams};
use requests::{DATA, OUT};
use std::fmt::Write;

// So many cases that differ are written out.
const SHOWN: u64 = 5;

// The request, and the answer behind the first tab. A line that has no tab has none.
fn case_of(line: &[u8]) -> (&[u8], Option<&[u8]>) {
    match line.iter().position(|byte| *byte == b'\t') {
        Some(tab) => (&line[..tab], Some(&line[tab + 1..])),
        None => (line, None),
    }
}

// The case as the list has it, and the answer here.
fn show(out: &mut Output, line: &[u8], answer: &[u8]) {
    out.text(line);
    out.text(b"\n  here: ");
    out.text(answer);
    out.put(b'\n');
}

// Each line that ends in a line feed is a case. One that is longer than what is held of it never agrees.
fn main(rt: HostRuntime) {
    let mut from = rt.stdin();
    let streams = Streams::of(&rt);
    let mut out = Output::to(streams);
    // An answer is shorter than its room, so that all of it waits here.
    let mut answer = Output::to(streams);
    let mut fetched = [0u8; input::ROOM];
    let mut line = [0u8; HELD];
    let mut data = [0u8; DATA];
    let mut normal = [0u8; OUT];
    let mut feed = Feed::empty();
    let mut cases: u64 = 0;
    let mut differ: u64 = 0;
    for _ in 0..u64::MAX {
        let got = input::take_line(&mut from, &mut fetched, feed, &mut line);
        feed = got.feed;
        if !matches!(got.ended, Ended::ByLineFeed) {
            break;
        }
        let held = &line[..got.held];
        let (request, wanted) = case_of(held);
        answer.clear();
        requests::answer(request, &mut data, &mut normal, &mut answer);
        if got.len != got.held || wanted != Some(answer.waiting()) {
            if differ < SHOWN {
                show(&mut out, held, answer.waiting());
            }
            differ = differ.saturating_add(1);
        }
        cases = cases.saturating_add(1);
    }
    let _ = writeln!(out, "{cases} cases, {differ} differ");
    out.flush();
}
