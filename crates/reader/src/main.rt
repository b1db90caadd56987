// Reads requirement lines from files or from standard input, and says of each what it is or why and where it is refused.
#![tactic(auto)]

mod accepted;
mod answer;
mod arguments;
mod lines;
mod place;
mod reader;
mod refused;
mod report;
mod shown;
mod tally;

use arguments::{PATH, Path, Wanted};
use output::Streams;
use reader::Reader;
use report::Style;

fn usage(streams: Streams) {
    let _ = streams.err.write_all(
        b"usage: ./hulmisker read [--plain] [--] [FILE..]   (- or no FILE: standard input)\n",
    );
}

fn run(rt: &HostRuntime, wanted: Wanted, path: &mut Path) {
    let style = Style {
        plain: wanted.plain,
        named: wanted.files > 1,
    };
    let mut reader = Reader::new(Streams::of(rt), style);
    if wanted.files == 0 {
        reader.read_input(rt, b"-");
    } else {
        reader.read_arguments(rt, path);
    }
    reader.end();
}

fn main(rt: HostRuntime) {
    let mut path = [0u8; PATH];
    match arguments::survey(&rt, &mut path) {
        Some(wanted) => run(&rt, wanted, &mut path),
        None => usage(Streams::of(&rt)),
    }
}
