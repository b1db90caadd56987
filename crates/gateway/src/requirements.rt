// A requirement line, extras alone and a marker alone: the lists go to the fronts of the lent arrays, which a refusal leaves as they were.
ghost use Rattle.std.specs.Prelude.{[], ◌≡◌};
ghost use Rattle.arrays.specs.Front.{onto};
ghost use Rattle.extras.specs.Entry.{entry, counts, written};
ghost use Rattle.marker.specs.Answer.{entry_answer, entry_marking};
ghost use Rattle.marker_steps.specs.Marking.{comparisons_as, warnings_as};
ghost use Rattle.line.specs.Figures.{buffers};
ghost use Rattle.line.specs.Line.{line_answer};
ghost use Rattle.figures.specs.Numbers.{number_of, count_figures};
ghost use Rattle.gateway.specs.Figures.{marker_figures, line_figures, lists_left};

use figures::{CountFigures, LineFigures, MarkerFigures, tell};
use line::Figures;
use marker_store::{Comparisons, Counts, Warnings, Words};
use refusal::{Offset, Span};
use spans::SpanNumbers;

// The third figure is the number of extras.
pub fn hulmisker_extras(line: &[u8], figures: &mut CountFigures, extras: &mut SpanNumbers) -> u8
    ensures number { result ≡ number_of (counts (entry line.now)) }
    ensures figures { figures.new ≡ count_figures (counts (entry line.now)) }
    ensures extras { extras.new ≡ written (entry line.now) extras.old }
{
    let answer = extras::extras_into(line, extras);
    *figures = [0, 0, answer.unwrap_or(0)];
    tell(&answer, figures)
}

// The figures behind the first two are the numbers of comparisons, warnings and words.
pub fn hulmisker_marker(
    line: &[u8],
    figures: &mut MarkerFigures,
    comparisons: &mut Comparisons,
    warnings: &mut Warnings,
    words: &mut Words,
) -> u8
    ensures number { result ≡ number_of (entry_answer line.now) }
    ensures figures { figures.new ≡ marker_figures (entry_answer line.now) }
    ensures comparisons { comparisons.new
        ≡ onto (comparisons_as (entry_marking line.now)) comparisons.old }
    ensures warnings { warnings.new
        ≡ onto (warnings_as (entry_marking line.now)) warnings.old }
    ensures words { words.new ≡ onto (entry_marking line.now).words words.old }
{
    let answer = marker::read_quick(line, comparisons, warnings, words);
    // A refusal counts nothing.
    let counts = answer.unwrap_or(Counts {
        kept: 0,
        warned: 0,
        words: 0,
    });
    *figures = [0, 0, counts.kept, counts.warned, counts.words];
    tell(&answer, figures)
}

// The figures behind the first two are the name's span, the URL, and the numbers of extras, specifiers, comparisons, warnings and words.
pub fn hulmisker_line(
    line: &[u8],
    figures: &mut LineFigures,
    extras: &mut SpanNumbers,
    specifiers: &mut SpanNumbers,
    comparisons: &mut Comparisons,
    warnings: &mut Warnings,
    words: &mut Words,
) -> u8
    ensures number { result ≡ number_of (line_answer line.now) }
    ensures figures { figures.new ≡ line_figures (line_answer line.now) }
    ensures lists { buffers extras.new specifiers.new
        comparisons.new warnings.new words.new
        ≡ lists_left line.now (buffers extras.old specifiers.old
        comparisons.old warnings.old words.old) }
{
    let answer = line::read_line_into(line, extras, specifiers, comparisons, warnings, words);
    // A refused line has no parts.
    let parts = answer.unwrap_or(Figures {
        name: Span {
            start: Offset(0),
            len: 0,
        },
        extras: 0,
        specifiers: 0,
        url: None,
        marker: Counts {
            kept: 0,
            warned: 0,
            words: 0,
        },
    });
    let url = parts.url.unwrap_or_default();
    *figures = [
        0,
        0,
        parts.name.start.0,
        parts.name.len,
        usize::from(parts.url.is_some()),
        url.start.0,
        url.len,
        parts.extras,
        parts.specifiers,
        parts.marker.kept,
        parts.marker.warned,
        parts.marker.words,
    ];
    tell(&answer, figures)
}
