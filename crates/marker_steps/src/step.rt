// The steps of the reading that are no part of the cycle: each takes how far a part was read, and hands back how far it is read now. They take a refusal
// too, and hand it on, so that the cycle need not look.
ghost use Rattle.std.specs.Prelude.{true, false, ◌≡◌, ◌<◌, length, IfErr};
ghost use Rattle.marker_steps.specs.Grammar.{kept_in, warned_in, warning_of, settle, word_ahead, and_word, or_word};
ghost use Rattle.marker_steps.specs.inner.Steps.{shows, Inside, Takes, Slack, taking, read_after, onward, joined, closed_by, finished};

use crate::part::Part;
use cursor::Cursor;
use marker_kind::WarningKind;
use marker_store::{Sheet, Warning};
use marker_verdict::{Found, Verdict};
use refusal::{Fault, Refusal, Span};
use text::{has, spelled};

// How many comparisons a verdict keeps, and how many warnings it gives: known before the first number is stored.
fn kept_in(verdict: Verdict) -> usize
    ensures { result ≡ length (kept_in verdict) }
{
    match verdict {
        Verdict::Kept(_) | Verdict::KeptWarned(_) => 1,
        Verdict::Ignored(_) | Verdict::IgnoredTwice(_) => 0,
    }
}

// Two questions of a verdict, and no one function for both: each is the length of a list of its own.
fn warned_in(verdict: Verdict) -> usize
    ensures { (x : Span) → result ≡ length (warned_in verdict x) }
{
    match verdict {
        Verdict::Kept(_) => 0,
        Verdict::KeptWarned(_) | Verdict::Ignored(_) => 1,
        Verdict::IgnoredTwice(_) => 2,
    }
}

fn warning_of(kind: u8, span: Span) -> Warning
    ensures { result ≡ warning_of kind span }
{
    Warning {
        kind: usize::from(kind),
        span,
    }
}

// A comparison goes into the sheet, its warnings first.
#[tactic(auto, unfolding(marker_store::specs::Sheet::warning))]
fn write_down(verdict: Verdict, span: Span, sheet: &mut Sheet)
    requires { Inside sheet.old.counts × Takes verdict span sheet.old.counts }
    ensures { sheet.new ≡ taking verdict span sheet.old }
{
    match verdict {
        Verdict::Kept(comparison) => sheet.keep(comparison),
        Verdict::KeptWarned(comparison) => {
            sheet.warn(warning_of(WarningKind::BadExtra as u8, span));
            sheet.keep(comparison);
        }
        Verdict::Ignored(kind) => sheet.warn(warning_of(kind, span)),
        Verdict::IgnoredTwice(kind) => {
            sheet.warn(warning_of(kind, span));
            sheet.warn(warning_of(kind, span));
        }
    }
}

// What stands where an item starts, if that is no group: 27 before 26, both met at the last byte of the comparison.
#[tactic(auto, unfolding(crate::specs::Grammar::settle, crate::specs::Grammar::settled, crate::specs::inner::Steps::state_of, crate::specs::inner::Steps::emit, crate::specs::Marking::some))]
pub fn take_in(found: Result<Found, Refusal>, sheet: &mut Sheet) -> Result<Part, Refusal>
    requires { Inside sheet.old.counts }
    ensures shown { shows result sheet.new ≡ read_after (settle found) sheet.old }
    ensures left { IfErr result (λ why. sheet.new ≡ sheet.old) }
{
    let Found {
        verdict,
        span,
        next,
    } = found?;
    let kept = kept_in(verdict);
    let warned = warned_in(verdict);
    if Cursor::MAX_COMPARISONS < sheet.counts.warned + warned {
        return Err(Refusal {
            fault: Fault::WarningsMany,
            span,
        });
    }
    if Cursor::MAX_COMPARISONS < sheet.counts.kept + kept {
        return Err(Refusal {
            fault: Fault::ComparisonsMany,
            span,
        });
    }
    write_down(verdict, span, sheet);
    Ok(Part {
        next,
        some: kept == 1,
    })
}

// After a group's inside: its closing byte.
#[tactic(auto, unfolding(crate::specs::inner::Steps::closed_by))]
pub fn close(line: &[u8], opened: usize, inner: Result<Part, Refusal>) -> Result<Part, Refusal>
    ensures { (r : Sheet) → shows result r ≡ closed_by line.now opened (shows inner r) }
{
    let Part { next, some } = inner?;
    let at = next.skip_whitespace(line).at;
    if has(line, at, b')') {
        return Ok(Part {
            next: Cursor { at: at + 1 },
            some,
        });
    }
    if at < line.len() {
        return Err(Refusal::new(Fault::ExpectedFoundOther, at, 1));
    }
    Err(Refusal::new(Fault::ExpectedFoundEnd, opened, 1))
}

// Whether a joining word stands where the left side ended: behind it, and whether that side kept anything.
#[tactic(auto, unfolding(crate::specs::Grammar::word_ahead))]
fn ahead(line: &[u8], left: Result<Part, Refusal>, word: &[u8]) -> Option<(Cursor, bool)>
    ensures { result ≡ onward left (word_ahead word.now line.now) }
{
    let Part { next, some } = left.ok()?;
    let here = next.skip_whitespace(line);
    let end = here.take_word(line);
    spelled(line, here.span_to(end), word).then_some((end, some))
}

// The joining words stand here, as fixed byte strings, and not in the functions of the cycle.
pub fn ahead_and(line: &[u8], left: Result<Part, Refusal>) -> Option<(Cursor, bool)>
    ensures { result ≡ onward left (word_ahead and_word line.now) }
{
    ahead(line, left, b"and")
}

pub fn ahead_or(line: &[u8], left: Result<Part, Refusal>) -> Option<(Cursor, bool)>
    ensures { result ≡ onward left (word_ahead or_word line.now) }
{
    ahead(line, left, b"or")
}

// The right side, with the joining word where both sides kept something.
// The word is the byte that the program has and C reads, as the definition `joined` names it.
#[tactic(auto, unfolding(crate::specs::inner::Steps::joined, crate::specs::inner::Steps::Slack))]
pub fn join(
    some_left: bool,
    right: Result<Part, Refusal>,
    sheet: &mut Sheet,
    word: u8,
) -> Result<Part, Refusal>
    requires { some_left ≡ true → Slack true (shows right sheet.old) }
    ensures shown { shows result sheet.new ≡ joined some_left (shows right sheet.old) word }
    ensures left { IfErr result (λ why. sheet.new ≡ sheet.old) }
{
    let Part { next, some } = right?;
    if some_left && some {
        sheet.push(word);
    }
    Ok(Part {
        next,
        some: some_left || some,
    })
}

// The whole marker: nothing may follow, and where nothing was kept the program is the one word 66.
#[tactic(auto, unfolding(crate::specs::inner::Steps::finished, crate::specs::inner::Steps::Slack))]
pub fn finish(line: &[u8], whole: Result<Part, Refusal>, sheet: &mut Sheet) -> Result<Part, Refusal>
    requires { Slack false (shows whole sheet.old) }
    ensures shown { shows result sheet.new ≡ finished line.now (shows whole sheet.old) }
    ensures left { IfErr result (λ why. sheet.new ≡ sheet.old) }
{
    let Part { next, some } = whole?;
    let at = next.skip_whitespace(line).at;
    if at < line.len() {
        return Err(Refusal::new(Fault::MarkerGoesOn, at, line.len() - at - 1));
    }
    if !some {
        sheet.push(66);
    }
    whole
}
