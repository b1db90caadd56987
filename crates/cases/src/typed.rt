// What the typed doors answer, put down as the numbers that the quick doors write, so that both stand in one notation.
use cursor::Cursor;
use figures::{
    LINE_COMPARISONS, LINE_EXTRAS, LINE_FIGURES, LINE_HAS_URL, LINE_NAME_LENGTH, LINE_NAME_START,
    LINE_SPECIFIERS, LINE_URL_LENGTH, LINE_URL_START, LINE_WARNINGS, LINE_WORDS, LineFigures,
};
use line_typed::Requirement;
use marker_kind::Comparison;
use marker_store::{
    COMPARISONS_ROOM, Comparisons, Sheet, WARNINGS_ROOM, Warning, Warnings, store_comparison,
    store_warning,
};
use marker_typed::Lists;
use output::Output;
use refusal::{Refusal, Span};
use spans::{LIST_NUMBERS, SpanNumbers};
use wording::{Parts, put_marker, put_parts, put_refused, put_spans};

// This and the two below differ in the list and in the function that stores an item; one with a closure for that is no plainer.
fn span_numbers(spans: &[Span; Cursor::MAX_LIST]) -> SpanNumbers {
    let mut list = [0; LIST_NUMBERS];
    for (i, span) in spans.iter().enumerate() {
        spans::put(&mut list, i, *span);
    }
    list
}

fn comparison_numbers(comparisons: &[Comparison; Cursor::MAX_COMPARISONS]) -> Comparisons {
    let mut list = [0; COMPARISONS_ROOM];
    for (i, comparison) in comparisons.iter().enumerate() {
        store_comparison(&mut list, i, *comparison);
    }
    list
}

fn warning_numbers(warnings: &[Warning; Cursor::MAX_COMPARISONS]) -> Warnings {
    let mut list = [0; WARNINGS_ROOM];
    for (i, warning) in warnings.iter().enumerate() {
        store_warning(&mut list, i, *warning);
    }
    list
}

fn sheet_of(lists: &Lists) -> Sheet {
    Sheet {
        comparisons: comparison_numbers(&lists.comparisons),
        warnings: warning_numbers(&lists.warnings),
        words: lists.words,
        counts: lists.counts,
    }
}

pub fn put_refusal(out: &mut Output, why: Refusal) {
    let Refusal { fault, span } = why;
    put_refused(out, fault.number(), span.start.0, span.len);
}

pub fn put_typed_marker(out: &mut Output, text: &[u8]) {
    match marker_typed::read_marker(text) {
        Err(why) => put_refusal(out, why),
        Ok(lists) => {
            let sheet = sheet_of(&lists);
            out.text(b"ok");
            put_marker(
                out,
                &sheet.comparisons,
                &sheet.warnings,
                &sheet.words,
                sheet.counts,
            );
        }
    }
}

pub fn put_typed_extras(out: &mut Output, text: &[u8]) {
    match extras::read_extras(text) {
        Err(why) => put_refusal(out, why),
        Ok(read) => put_spans(out, b"ok extras=", &span_numbers(&read.extras), read.count),
    }
}

// A line's figures as its function over numbers tells them: the first two are a refusal's place.
fn figures_of(read: &Requirement) -> LineFigures {
    let mut figures = [0; LINE_FIGURES];
    figures[LINE_NAME_START] = read.name.start.0;
    figures[LINE_NAME_LENGTH] = read.name.len;
    figures[LINE_EXTRAS] = read.extras.count;
    figures[LINE_SPECIFIERS] = read.specifiers.count;
    figures[LINE_COMPARISONS] = read.marker.counts.kept;
    figures[LINE_WARNINGS] = read.marker.counts.warned;
    figures[LINE_WORDS] = read.marker.counts.words;
    if let Some(url) = read.url {
        figures[LINE_HAS_URL] = 1;
        figures[LINE_URL_START] = url.start.0;
        figures[LINE_URL_LENGTH] = url.len;
    }
    figures
}

pub fn put_typed_line(out: &mut Output, text: &[u8]) {
    match line_typed::read_line(text) {
        Err(why) => put_refusal(out, why),
        Ok(read) => {
            let parts = Parts {
                figures: figures_of(&read),
                extras: span_numbers(&read.extras.spans),
                specifiers: span_numbers(&read.specifiers.spans),
                sheet: sheet_of(&read.marker),
            };
            out.text(b"ok ");
            put_parts(out, &parts);
        }
    }
}
