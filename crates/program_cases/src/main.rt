// Checks and runs the programs of standard input, and compares with the answers that stand beside them. make.py writes them, and says what a line is.
#![tactic(auto)]

ghost use Rattle.std.specs.Prelude.{◌≤◌};

use figures::{PLACE_FIGURES, PlaceFigures, tell};
use refusal::Refusal;
use std::io;
use std::io::{Stdin, Stdout};

// Bytes of a line before its words, and at most with them and a line feed behind them.
const HEAD: usize = 50;

const REST: usize = 511;

// So many lines are read at most.
const MOST: u64 = 1_000_000;

// How often the programs were asked, and how often they answered otherwise.
#[derive(Clone, Copy)]
struct Tally {
    cases: u64,
    differ: u64,
}

// An answer in document 01's numbers, which are all 0 where it is good.
// 0 for no refusal, and no Result: so the stored line has it, with which this is compared.
#[derive(Clone, Copy, PartialEq, Eq)]
struct Told {
    number: u8,
    place: PlaceFigures,
}

impl Told {
    fn of<A>(answer: &Result<A, Refusal>) -> Told {
        let mut place = [0; PLACE_FIGURES];
        let number = tell(answer, &mut place);
        Told { number, place }
    }
}

// Any other byte counts 0, where `requests` refuses it: the stored lines have none.
fn hex_digit(b: u8) -> u8
    ensures { result ≤ 15 }
{
    match b {
        b'0'..=b'9' => b - b'0',
        b'a'..=b'f' => b - b'a' + 10,
        _ => 0,
    }
}

fn hex_byte(high: u8, low: u8) -> u8 {
    hex_digit(high) * 16 + hex_digit(low)
}

fn hex(digits: &[u8]) -> u64 {
    digits.iter().fold(0, |n: u64, b| n.wrapping_mul(16) | u64::from(hex_digit(*b)))
}

// Whether the check and the runner answer as the line says.
fn agrees(head: &[u8; HEAD], words: &[u8]) -> bool {
    let count = hex(&head[..16]) as usize;
    let assignment = hex(&head[17..33]);
    let want = Told {
        number: hex_byte(head[34], head[35]),
        place: [hex(&head[37..41]) as usize, hex(&head[42..44]) as usize],
    };
    let checked = program_check::check(words, count);
    let ran = program_run::run(words, count, assignment);
    Told::of(&checked) == want
        && Told::of(&ran) == want
        && u8::from(ran.unwrap_or(false)) == hex_digit(head[45])
}

// Reads a line and says whether the answers are those that stand in it; `shows` has a line that differs written out.
fn one_case(from: &mut Stdin, to: Stdout, shows: bool) -> Option<bool> {
    let mut head = [0u8; HEAD];
    if input::read_full(from, &mut head) < HEAD {
        return None;
    }
    let n = usize::from(hex_byte(head[47], head[48]));
    let mut rest = [0u8; REST];
    input::read_full(from, &mut rest[..2 * n + 1]);
    let mut words = [0u8; 255];
    for (word, pair) in words.iter_mut().zip(rest.chunks_exact(2)) {
        *word = hex_byte(pair[0], pair[1]);
    }
    let same = agrees(&head, &words[..n]);
    if shows && !same {
        // A write that fails is not told here, but where it is the last one, in `main`.
        let _ = to.write_all(&head);
        let _ = to.write_all(&rest[..2 * n + 1]);
    }
    Some(same)
}

fn count_all(from: &mut Stdin, to: Stdout) -> Tally {
    let mut differ = 0;
    for cases in 0..MOST {
        match one_case(from, to, differ < 5) {
            None => return Tally { cases, differ },
            Some(true) => {}
            Some(false) => differ += 1,
        }
    }
    Tally {
        cases: MOST,
        differ,
    }
}

fn main(rt: HostRuntime) -> io::Result<()> {
    let Tally { cases, differ } = count_all(&mut rt.stdin(), rt.stdout());
    println!(rt; "cases {cases}, differ {differ}")
}
