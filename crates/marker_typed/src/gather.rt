// What was read, as typed lists in arrays.
ghost use Rattle.std.specs.Prelude.{◌≡◌, ◌≤◌, ◌<◌, ℕ, map};
ghost use Rattle.std.specs.List.{range_with_len};
ghost use Rattle.arrays.specs.Front.{pad};
ghost use Rattle.marker_steps.specs.Marking.{nothing};
ghost use Rattle.cursor.specs.Limits.{max_comparisons};
ghost use Rattle.marker_typed.specs.Lists.{lists_of};
ghost use Rattle.marker_typed.specs.inner.Gather.{gathered};

use cursor::Cursor;
use marker_kind::{Comparison, Key, Operator, Sort};
use marker_store::{Counts, Sheet, Warning, Words, load_comparison, load_warning};
use program_check::MAX_WORDS;
use refusal::{Offset, Span};

// Each array holds as many entries as its count says, and filler behind them: arrays and counts, since nothing here is on a heap.
#[derive(Drop)]
pub struct Lists {
    pub comparisons: [Comparison; Cursor::MAX_COMPARISONS],
    pub warnings: [Warning; Cursor::MAX_COMPARISONS],
    pub words: Words,
    pub counts: Counts,
}

const NO_SPAN: Span = Span {
    start: Offset(0),
    len: 0,
};

const NO_COMPARISON: Comparison = Comparison {
    sort: Sort::Version,
    key: Key::PythonVersion,
    operator: Operator::Equal,
    literal: NO_SPAN,
};

const NO_WARNING: Warning = Warning {
    kind: 0,
    span: NO_SPAN,
};

// (No Default: the filler is a comparison, which has none, and docs/PROMISES.md names this.)
#[tactic(auto, unfolding(crate::specs::Lists::lists_of))]
pub fn empty_lists() -> Lists
    ensures { result ≡ lists_of nothing }
{
    Lists {
        comparisons: [NO_COMPARISON; Cursor::MAX_COMPARISONS],
        warnings: [NO_WARNING; Cursor::MAX_COMPARISONS],
        words: [0; MAX_WORDS],
        counts: Counts::default(),
    }
}

// As many entries as are counted, each by its number, and filler behind them.
fn filled<T: Copy, F: Fn(usize) -> T>(
    count: usize,
    filler: T,
    entry: F,
) -> [T; Cursor::MAX_COMPARISONS]
    requires room { count ≤ max_comparisons }
    requires entries { (i : ℕ) → i < count → F.pre entry i }
    ensures { (f : ℕ → T) → ((i : ℕ) → (x : T) → F.post entry i x → x ≡ f i)
        → result ≡ pad max_comparisons filler (map f (range_with_len 0 count)) }
{
    let mut all = [filler; Cursor::MAX_COMPARISONS];
    for i in 0..count {
        all[i] = entry(i);
    }
    all
}

// The numbers of a sheet as typed lists.
pub fn gather(sheet: &Sheet) -> Lists
    requires { (sheet.now.counts.kept ≤ max_comparisons)
        × (sheet.now.counts.warned ≤ max_comparisons) }
    ensures { result ≡ gathered sheet.now }
{
    let counts = sheet.counts;
    Lists {
        comparisons: filled(counts.kept, NO_COMPARISON, |i| {
            load_comparison(&sheet.comparisons, i)
        }),
        warnings: filled(
            counts.warned,
            NO_WARNING,
            |i| load_warning(&sheet.warnings, i),
        ),
        words: sheet.words,
        counts,
    }
}
