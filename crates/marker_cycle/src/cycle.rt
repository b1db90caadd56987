// Or-chain, and-chain and comparison-or-group call each other: at each call the remaining depth falls, or else the rank of the function. Document 01 has the
// marker functions in a cycle of these three, so the two chains stay two functions.
ghost use Rattle.std.specs.Prelude.{◌≡◌};
ghost use Rattle.marker_store.specs.Numbers.{no_counts};
ghost use Rattle.marker_steps.specs.Grammar.{item_of, and_of, or_of, group_at, parse_from};
ghost use Rattle.marker_steps.specs.Marking.{nothing};
ghost use Rattle.marker_steps.specs.inner.Steps.{raw_of, shows, Inside, read_after, whole_of};

use cursor::Cursor;
use marker_steps::{Part, ahead_and, ahead_or, close, finish, join, take_in};
use marker_store::{Counts, Sheet};
use marker_verdict::find;
use refusal::{Fault, Refusal};
use text::has;

#[cycle(and_chain_comparison_or_group_or_chain)]
fn or_chain(line: &[u8], from: Cursor, depth: usize, sheet: &mut Sheet) -> Result<Part, Refusal>
    requires { Inside sheet.old.counts }
    ensures { shows result sheet.new
        ≡ read_after (or_of line.now (group_at line.now depth) from.at) sheet.old }
{
    let mut left = and_chain(line, from, depth, sheet);
    while let Some((next, some)) = ahead_or(line, left) {
        let right = and_chain(line, next, depth, sheet);
        left = join(some, right, sheet, 65);
    }
    left
}

#[cycle(and_chain_comparison_or_group_or_chain)]
fn and_chain(line: &[u8], from: Cursor, depth: usize, sheet: &mut Sheet) -> Result<Part, Refusal>
    requires { Inside sheet.old.counts }
    ensures { shows result sheet.new
        ≡ read_after (and_of line.now (group_at line.now depth) from.at) sheet.old }
{
    let mut left = comparison_or_group(line, from, depth, sheet);
    while let Some((next, some)) = ahead_and(line, left) {
        let right = comparison_or_group(line, next, depth, sheet);
        left = join(some, right, sheet, 64);
    }
    left
}

#[cycle(and_chain_comparison_or_group_or_chain)]
fn comparison_or_group(
    line: &[u8],
    from: Cursor,
    depth: usize,
    sheet: &mut Sheet,
) -> Result<Part, Refusal>
    requires { Inside sheet.old.counts }
    ensures { shows result sheet.new
        ≡ read_after (item_of line.now (group_at line.now depth) from.at) sheet.old }
{
    let here = from.skip_whitespace(line);
    let at = here.at;
    if !has(line, at, b'(') {
        return take_in(find(line, here), sheet);
    }
    if depth == 0 {
        return Err(Refusal::new(Fault::TooDeep, at, 1));
    }
    let inside = Cursor { at: at + 1 };
    close(line, at, or_chain(line, inside, depth - 1, sheet))
}

// From a place to the end of the line, into arrays of zeros.
pub fn read_from(line: &[u8], from: Cursor, sheet: &mut Sheet) -> Result<Part, Refusal>
    requires { record sheet.old { counts = no_counts } ≡ raw_of nothing }
    ensures { shows result sheet.new ≡ whole_of (parse_from line.now from.at) }
{
    sheet.counts = Counts::default();
    let whole = or_chain(line, from, Cursor::MAX_DEPTH, sheet);
    finish(line, whole, sheet)
}
