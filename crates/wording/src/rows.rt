// An answer as one row of text.
ghost use Rattle.std.specs.Prelude.{◌≡◌, ◌<◌, replicate};
ghost use Rattle.marker_store.specs.Sheet.{blank};
ghost use Rattle.cursor.specs.Limits.{max_list, max_comparisons};

use crate::list::put_list;
use cursor::Cursor;
use figures::{
    LINE_COMPARISONS, LINE_EXTRAS, LINE_FIGURES, LINE_HAS_URL, LINE_NAME_LENGTH, LINE_NAME_START,
    LINE_SPECIFIERS, LINE_URL_LENGTH, LINE_URL_START, LINE_WARNINGS, LINE_WORDS, LineFigures,
};
use marker_kind::Operator;
use marker_store::{Comparisons, Counts, Sheet, Warnings, Words, load_comparison, load_warning};
use output::Output;
use program_check::MAX_WORDS;
use spans::{LIST_NUMBERS, SPAN_NUMBERS, SpanNumbers};
use std::fmt::Write;

// All that the gateway leaves of an accepted line: its figures, and the lists. The figures say how long the lists are, and not the sheet's own counts.
#[derive(Drop)]
pub struct Parts {
    pub figures: LineFigures,
    pub extras: SpanNumbers,
    pub specifiers: SpanNumbers,
    pub sheet: Sheet,
}

impl Parts {
    pub fn blank() -> Parts
        ensures { result
            ≡ record { figures = replicate 12 0; extras = replicate 64 0; specifiers = replicate 64 0; sheet = blank } }
    {
        Parts {
            figures: [0; LINE_FIGURES],
            extras: [0; LIST_NUMBERS],
            specifiers: [0; LIST_NUMBERS],
            sheet: Sheet::blank(),
        }
    }
}

// Two numbers with a byte between. (Not by `write!`, here and below: its pieces took a third longer on lines with long lists.)
fn put_pair(out: &mut Output, first: usize, between: u8, second: usize) {
    out.number(first as u64);
    out.put(between);
    out.number(second as u64);
}

// The three figures by which C tells a refusal, and no `Refusal`: the tools ask what C asks.
pub fn put_refused(out: &mut Output, number: u8, start: usize, len: usize) {
    out.text(b"refused ");
    out.number(number as u64);
    out.put(b' ');
    put_pair(out, start, b' ', len);
}

// A list of spans, behind its label.
pub fn put_spans(out: &mut Output, label: &[u8], spans: &SpanNumbers, count: usize) {
    out.text(label);
    put_list(
        out,
        b';',
        count.min(Cursor::MAX_LIST),
        |out, i| put_span(out, spans, i),
    );
}

fn put_span(out: &mut Output, spans: &SpanNumbers, i: usize)
    requires { i < max_list }
{
    let first = SPAN_NUMBERS * i;
    put_pair(out, spans[first], b',', spans[first + 1]);
}

// One row for each kind of entry, here and in `put_warning`: what they share is `put_list`.
fn put_comparison(out: &mut Output, list: &Comparisons, i: usize)
    requires { i < max_comparisons }
{
    let one = load_comparison(list, i);
    let _ = write!(out, "{},{},", one.sort, one.key);
    put_operator(out, one.operator, b'_');
    out.put(b',');
    put_pair(out, one.literal.start.0, b',', one.literal.len);
}

// An operator's words, with a byte between two of them. (In rows none is a blank, which would stand between two answers.)
pub fn put_operator(out: &mut Output, operator: Operator, between: u8) {
    match operator {
        Operator::NotIn => put_not(out, between, b"in"),
        Operator::NotContains => put_not(out, between, b"contains"),
        _ => {
            let _ = write!(out, "{operator}");
        }
    }
}

fn put_not(out: &mut Output, between: u8, word: &[u8]) {
    out.text(b"not");
    out.put(between);
    out.text(word);
}

fn put_warning(out: &mut Output, list: &Warnings, i: usize)
    requires { i < max_comparisons }
{
    let one = load_warning(list, i);
    out.number(one.kind as u64);
    out.put(b',');
    put_pair(out, one.span.start.0, b',', one.span.len);
}

// The three lists of a marker, and how many there are of each.
// Three arrays and the counts, and no sheet: of a line the figures count, as C tells them, and not the sheet.
pub fn put_marker(
    out: &mut Output,
    comparisons: &Comparisons,
    warnings: &Warnings,
    words: &Words,
    counts: Counts,
) {
    out.text(b" comparisons=");
    let kept = counts.kept.min(Cursor::MAX_COMPARISONS);
    put_list(
        out,
        b';',
        kept,
        |out, i| put_comparison(out, comparisons, i),
    );
    out.text(b" warnings=");
    let warned = counts.warned.min(Cursor::MAX_COMPARISONS);
    put_list(out, b';', warned, |out, i| put_warning(out, warnings, i));
    out.text(b" program=");
    put_list(
        out,
        b',',
        counts.words.min(MAX_WORDS),
        |out, i| out.number(words[i] as u64),
    );
}

// By C's figures, as all of a line's: so no Display of a URL.
fn put_url(out: &mut Output, figures: &LineFigures) {
    if figures[LINE_HAS_URL] == 0 {
        out.text(b" url=-");
    } else {
        out.text(b" url=");
        put_pair(out, figures[LINE_URL_START], b',', figures[LINE_URL_LENGTH]);
    }
}

// All parts of an accepted line.
pub fn put_parts(out: &mut Output, parts: &Parts) {
    let figures = &parts.figures;
    out.text(b"name=");
    put_pair(
        out,
        figures[LINE_NAME_START],
        b',',
        figures[LINE_NAME_LENGTH],
    );
    put_spans(out, b" extras=", &parts.extras, figures[LINE_EXTRAS]);
    put_spans(
        out,
        b" specifiers=",
        &parts.specifiers,
        figures[LINE_SPECIFIERS],
    );
    put_url(out, figures);
    let counts = Counts {
        kept: figures[LINE_COMPARISONS],
        warned: figures[LINE_WARNINGS],
        words: figures[LINE_WORDS],
    };
    put_marker(
        out,
        &parts.sheet.comparisons,
        &parts.sheet.warnings,
        &parts.sheet.words,
        counts,
    );
}
