// What was read, as numbers in arrays that the caller lends.
ghost use Rattle.std.specs.Prelude.{◌≡◌};
ghost use Rattle.arrays.specs.Front.{onto};
ghost use Rattle.marker.specs.Answer.{marker_answer, marking_from, entry_answer, entry_marking, counts_of};
ghost use Rattle.marker_steps.specs.Marking.{comparisons_as, warnings_as};
ghost use Rattle.refusal.specs.Answer.{on_good};
ghost use Rattle.refusal.specs.Refusal.{told};

use arrays::copy_front;
use cursor::{Cursor, check_line};
use marker_cycle::read_from;
use marker_store::{
    COMPARISON_NUMBERS, Comparisons, Counts, Sheet, WARNING_NUMBERS, Warnings, Words,
};
use refusal::Refusal;

// The marker that starts at a place of a line and goes to its end. Refusals 1 and 2 are not looked for: the line's reader has done that.
// The three arrays stay apart, as C lends them; a refusal leaves them as they were, so the reading has a sheet of its own.
pub fn read_quick_from(
    line: &[u8],
    from: Cursor,
    comps: &mut Comparisons,
    warns: &mut Warnings,
    words: &mut Words,
) -> Result<Counts, Refusal>
    ensures answer { told result
        ≡ on_good counts_of (marker_answer line.now from.at) }
    ensures comparisons { comps.new
        ≡ onto (comparisons_as (marking_from line.now from.at)) comps.old }
    ensures warnings { warns.new
        ≡ onto (warnings_as (marking_from line.now from.at)) warns.old }
    ensures words { words.new
        ≡ onto (marking_from line.now from.at).words words.old }
{
    let mut sheet = Sheet::blank();
    read_from(line, from, &mut sheet)?;
    let counts = sheet.counts;
    copy_front(&sheet.comparisons, COMPARISON_NUMBERS * counts.kept, comps);
    copy_front(&sheet.warnings, WARNING_NUMBERS * counts.warned, warns);
    copy_front(&sheet.words, counts.words, words);
    Ok(counts)
}

// The marker entry.
pub fn read_quick(
    line: &[u8],
    comps: &mut Comparisons,
    warns: &mut Warnings,
    words: &mut Words,
) -> Result<Counts, Refusal>
    ensures answer { told result ≡ on_good counts_of (entry_answer line.now) }
    ensures comparisons { comps.new
        ≡ onto (comparisons_as (entry_marking line.now)) comps.old }
    ensures warnings { warns.new
        ≡ onto (warnings_as (entry_marking line.now)) warns.old }
    ensures words { words.new ≡ onto (entry_marking line.now).words words.old }
{
    check_line(line)?;
    read_quick_from(line, Cursor::start(), comps, warns, words)
}
