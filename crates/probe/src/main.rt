// Answers the requests of standard input, a line each: what each entry says to the bytes that a request spells. oracle/compare.py asks it.
#![tactic(auto)]

use input::{Ended, Feed, HELD, Line};
use output::{Output, Streams};
use requests::{DATA, OUT};

// A last line without a line end is a request, unless it is empty; a line that a fault cut short is none.
fn is_request(line: Line) -> bool {
    match line.ended {
        Ended::ByLineFeed => true,
        Ended::ByEnd => 0 < line.len,
        Ended::ByFault(_) => false,
    }
}

fn main(rt: HostRuntime) {
    let mut from = rt.stdin();
    let mut out = Output::to(Streams::of(&rt));
    let mut fetched = [0u8; input::ROOM];
    let mut line = [0u8; HELD];
    let mut data = [0u8; DATA];
    let mut normal = [0u8; OUT];
    let mut feed = Feed::empty();
    for _ in 0..u64::MAX {
        let got = input::take_line(&mut from, &mut fetched, feed, &mut line);
        feed = got.feed;
        if is_request(got) {
            requests::answer(&line[..got.held], &mut data, &mut normal, &mut out);
            out.put(b'\n');
        }
        if !matches!(got.ended, Ended::ByLineFeed) {
            break;
        }
    }
    out.flush();
}
