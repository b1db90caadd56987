// What was read, as numbers in arrays that the caller lends. A refusal leaves them as they were.
ghost use Rattle.std.specs.Prelude.{◌≡◌};
ghost use Rattle.arrays.specs.Front.{onto};
ghost use Rattle.marker.specs.Answer.{counts_of, listed_of};
ghost use Rattle.marker_steps.specs.Marking.{comparisons_as, warnings_as};
ghost use Rattle.line.specs.Figures.{buffers, ReadInto};
ghost use Rattle.line.specs.Line.{unmarked, marked, line_answer};
ghost use Rattle.refusal.specs.Answer.{on_good};
ghost use Rattle.refusal.specs.Refusal.{told};

use crate::figures::{Figures, figures_of};
use cursor::{Cursor, check_line};
use line_head::{head_of, text_count};
use marker::read_quick_from;
use marker_store::{Comparisons, Counts, Warnings, Words};
use refusal::Refusal;
use spans::{LIST_NUMBERS, SpanNumbers};

// The program of a line without a marker is the one word 66.
#[tactic(auto, using(crate::proofs::Quickly::first_set))]
fn unmarked_into(words: &mut Words) -> Counts
    ensures counts { result ≡ counts_of unmarked }
    ensures words { words.new ≡ onto unmarked.words words.old }
{
    words[0] = 66;
    Counts {
        words: 1,
        ..Counts::default()
    }
}

// The marker that starts at a place, or none.
#[tactic(auto, unfolding(arrays::specs::Front::onto, marker_store::specs::Numbers::all_numbers))]
fn marker_into(
    line: &[u8],
    marker: Option<Cursor>,
    comps: &mut Comparisons,
    warns: &mut Warnings,
    words: &mut Words,
) -> Result<Counts, Refusal>
    ensures answer { told result ≡ on_good counts_of (marked line.now marker) }
    ensures comparisons { comps.new
        ≡ onto (comparisons_as (listed_of (marked line.now marker))) comps.old }
    ensures warnings { warns.new
        ≡ onto (warnings_as (listed_of (marked line.now marker))) warns.old }
    ensures words { words.new
        ≡ onto (listed_of (marked line.now marker)).words words.old }
{
    match marker {
        None => Ok(unmarked_into(words)),
        Some(from) => read_quick_from(line, from, comps, warns, words),
    }
}

// The line entry: the lists go to the fronts of the lent arrays, whose rests stay as they were. The five arrays stay apart, as C lends them.
pub fn read_line_into(
    line: &[u8],
    extras: &mut SpanNumbers,
    texts: &mut SpanNumbers,
    comps: &mut Comparisons,
    warns: &mut Warnings,
    words: &mut Words,
) -> Result<Figures, Refusal>
    ensures { ReadInto (line_answer line.now)
        (buffers extras.old texts.old
        comps.old warns.old words.old)
        result
        (buffers extras.new texts.new
        comps.new warns.new words.new) }
{
    check_line(line)?;
    let mut named = [0; LIST_NUMBERS];
    let mut asked = [0; LIST_NUMBERS];
    let head = head_of(line, &mut named, &mut asked)?;
    let marker = marker_into(line, head.marker, comps, warns, words)?;
    spans::copy(&named, head.extras, extras);
    spans::copy(&asked, text_count(head.wanted), texts);
    Ok(figures_of(head, marker))
}
