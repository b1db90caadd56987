// The functions of `gateway` for C: bindings/c/hulmisker.h declares them, and libgateway.a holds them. A slice is a pointer and a length, an array a pointer to
// its first element. Each hands on what it is lent and answers what `gateway` answers, under the same contract.
#![tactic(auto)]

ghost use Rattle.std.specs.Prelude.{◌≡◌, length};
ghost use Rattle.arrays.specs.Front.{onto};
ghost use Rattle.name.specs.Normalise.{normalised, output};
ghost use Rattle.program_check.specs.Check.{checked_program};
ghost use Rattle.extras.specs.Entry.{entry, counts, written};
ghost use Rattle.marker.specs.Answer.{entry_answer, entry_marking};
ghost use Rattle.marker_steps.specs.Marking.{comparisons_as, warnings_as};
ghost use Rattle.line.specs.Figures.{buffers};
ghost use Rattle.line.specs.Line.{line_answer};
ghost use Rattle.figures.specs.Numbers.{number_of, place_of, count_figures};
ghost use Rattle.gateway.specs.Figures.{ran_number, marker_figures, line_figures, lists_left};
ghost use Rattle.gateway.specs.Texts.{version_answer, pattern_answer, specifier_answer};

use figures::{CountFigures, LineFigures, MarkerFigures, PlaceFigures};
use marker_store::{Comparisons, Warnings, Words};
use spans::SpanNumbers;

#[unsafe(no_mangle)]
pub extern "C" fn hulmisker_line(
    line: &[u8],
    figures: &mut LineFigures,
    extras: &mut SpanNumbers,
    specifiers: &mut SpanNumbers,
    comparisons: &mut Comparisons,
    warnings: &mut Warnings,
    words: &mut Words,
) -> u8
    ensures number { result ≡ number_of (line_answer line.now) }
    ensures figures { figures.new ≡ line_figures (line_answer line.now) }
    ensures lists { buffers extras.new specifiers.new
        comparisons.new warnings.new words.new
        ≡ lists_left line.now (buffers extras.old specifiers.old
        comparisons.old warnings.old words.old) }
{
    gateway::hulmisker_line(
        line,
        figures,
        extras,
        specifiers,
        comparisons,
        warnings,
        words,
    )
}

#[unsafe(no_mangle)]
pub extern "C" fn hulmisker_extras(
    line: &[u8],
    figures: &mut CountFigures,
    extras: &mut SpanNumbers,
) -> u8
    ensures number { result ≡ number_of (counts (entry line.now)) }
    ensures figures { figures.new ≡ count_figures (counts (entry line.now)) }
    ensures extras { extras.new ≡ written (entry line.now) extras.old }
{
    gateway::hulmisker_extras(line, figures, extras)
}

#[unsafe(no_mangle)]
pub extern "C" fn hulmisker_marker(
    line: &[u8],
    figures: &mut MarkerFigures,
    comparisons: &mut Comparisons,
    warnings: &mut Warnings,
    words: &mut Words,
) -> u8
    ensures number { result ≡ number_of (entry_answer line.now) }
    ensures figures { figures.new ≡ marker_figures (entry_answer line.now) }
    ensures comparisons { comparisons.new
        ≡ onto (comparisons_as (entry_marking line.now)) comparisons.old }
    ensures warnings { warnings.new
        ≡ onto (warnings_as (entry_marking line.now)) warnings.old }
    ensures words { words.new ≡ onto (entry_marking line.now).words words.old }
{
    gateway::hulmisker_marker(line, figures, comparisons, warnings, words)
}

#[unsafe(no_mangle)]
pub extern "C" fn hulmisker_version(text: &[u8], figures: &mut PlaceFigures) -> u8
    ensures number { result ≡ number_of (version_answer text.now) }
    ensures figures { figures.new ≡ place_of (version_answer text.now) }
{
    gateway::hulmisker_version(text, figures)
}

#[unsafe(no_mangle)]
pub extern "C" fn hulmisker_pattern(text: &[u8], figures: &mut PlaceFigures) -> u8
    ensures number { result ≡ number_of (pattern_answer text.now) }
    ensures figures { figures.new ≡ place_of (pattern_answer text.now) }
{
    gateway::hulmisker_pattern(text, figures)
}

#[unsafe(no_mangle)]
pub extern "C" fn hulmisker_specifier(text: &[u8], figures: &mut PlaceFigures) -> u8
    ensures number { result ≡ number_of (specifier_answer text.now) }
    ensures figures { figures.new ≡ place_of (specifier_answer text.now) }
{
    gateway::hulmisker_specifier(text, figures)
}

#[unsafe(no_mangle)]
pub extern "C" fn hulmisker_normalise(name: &[u8], out: &mut [u8], figures: &mut CountFigures) -> u8
    ensures number { result ≡ number_of (normalised name.now (length out.old)) }
    ensures figures { figures.new
        ≡ count_figures (normalised name.now (length out.old)) }
    ensures output { out.new ≡ output name.now out.old }
{
    gateway::hulmisker_normalise(name, out, figures)
}

#[unsafe(no_mangle)]
pub extern "C" fn hulmisker_check(program: &[u8], count: usize, figures: &mut PlaceFigures) -> u8
    ensures number { result ≡ number_of (checked_program program.now count) }
    ensures figures { figures.new ≡ place_of (checked_program program.now count) }
{
    gateway::hulmisker_check(program, count, figures)
}

#[unsafe(no_mangle)]
pub extern "C" fn hulmisker_run(
    program: &[u8],
    count: usize,
    assignment: u64,
    figures: &mut CountFigures,
) -> u8
    ensures number { result ≡ number_of (ran_number program.now count assignment) }
    ensures figures { figures.new ≡ count_figures (ran_number program.now count assignment) }
{
    gateway::hulmisker_run(program, count, assignment, figures)
}
