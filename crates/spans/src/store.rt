// Spans stored in an array of numbers, and taken from it.
ghost use Rattle.std.specs.Prelude.{◌≡◌, ◌≤◌, ◌<◌};
ghost use Rattle.spans.specs.Flat.{spans_onto, stored, span_at, loaded, padded};
ghost use Rattle.cursor.specs.Limits.{max_list};

use arrays::copy_front;
use cursor::Cursor;
use refusal::{Offset, Span};

// A span's start and length.
pub const SPAN_NUMBERS: usize = 2;

// The numbers of a full list.
pub const LIST_NUMBERS: usize = SPAN_NUMBERS * Cursor::MAX_LIST;

// Numbers and no spans, since C lends this array and reads it.
pub type SpanNumbers = [usize; LIST_NUMBERS];

#[tactic(auto, unfolding(crate::specs::Flat::stored))]
pub fn put(list: &mut SpanNumbers, n: usize, span: Span)
    requires { n < max_list }
    ensures { list.new ≡ stored list.old n span }
{
    let start = span.start;
    list[SPAN_NUMBERS * n] = start.0;
    list[SPAN_NUMBERS * n + 1] = span.len;
}

fn load(list: &SpanNumbers, n: usize) -> Span
    requires { n < max_list }
    ensures { result ≡ span_at list.now n }
{
    Span {
        start: Offset(list[SPAN_NUMBERS * n]),
        len: list[SPAN_NUMBERS * n + 1],
    }
}

// The first n spans, over the front of another array.
#[tactic(auto, using(crate::proofs::Arrays::copied))]
pub fn copy(list: &SpanNumbers, n: usize, out: &mut SpanNumbers)
    requires { n ≤ max_list }
    ensures { out.new ≡ spans_onto (loaded n list.now) out.old }
{
    copy_front(list, SPAN_NUMBERS * n, out);
}

// The first n spans as an array of spans, filler behind them.
pub fn gather(list: &SpanNumbers, n: usize) -> [Span; Cursor::MAX_LIST]
    requires { n ≤ max_list }
    ensures { result ≡ padded (loaded n list.now) }
{
    let mut spans = [Span::default(); Cursor::MAX_LIST];
    for i in 0..n {
        spans[i] = load(list, i);
    }
    spans
}
