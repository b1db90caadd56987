// A question to each reader: its typed door and its function over numbers answer, a line each.
use crate::typed::{put_refusal, put_typed_extras, put_typed_line, put_typed_marker};
use figures::{
    COUNT, COUNT_FIGURES, LENGTH, MARKER_COMPARISONS, MARKER_FIGURES, MARKER_WARNINGS,
    MARKER_WORDS, START,
};
use marker_store::{Counts, Sheet};
use output::Output;
use spans::LIST_NUMBERS;
use std::fmt::Write;
use wording::{Parts, put_marker, put_parts, put_refused, put_spans};

// The case, the reader and the text, and what both doors answer.
fn ask<T: Fn(&mut Output), F: Fn(&mut Output)>(
    out: &mut Output,
    case: &str,
    reader: &str,
    text: &str,
    typed: T,
    figures: F,
)
    requires typed { T.IsAlwaysCallable typed }
    requires figures { F.IsAlwaysCallable figures }
{
    let _ = write!(out, "{case} {reader} `{text}`\n    read_{reader}: ");
    typed(out);
    let _ = write!(out, "\n    hulmisker_{reader}: ");
    figures(out);
    out.put(b'\n');
}

// This and the two below put what `requests` puts of the same entries: one for both crates would be public, and no contract could say what it puts.
fn put_marker_figures(out: &mut Output, text: &[u8]) {
    let mut figures = [0; MARKER_FIGURES];
    let mut sheet = Sheet::blank();
    let number = gateway::hulmisker_marker(
        text,
        &mut figures,
        &mut sheet.comparisons,
        &mut sheet.warnings,
        &mut sheet.words,
    );
    if 0 < number {
        put_refused(out, number, figures[START], figures[LENGTH]);
        return;
    }
    out.text(b"ok");
    let counts = Counts {
        kept: figures[MARKER_COMPARISONS],
        warned: figures[MARKER_WARNINGS],
        words: figures[MARKER_WORDS],
    };
    put_marker(
        out,
        &sheet.comparisons,
        &sheet.warnings,
        &sheet.words,
        counts,
    );
}

fn put_extras_figures(out: &mut Output, text: &[u8]) {
    let mut figures = [0; COUNT_FIGURES];
    let mut list = [0; LIST_NUMBERS];
    let number = gateway::hulmisker_extras(text, &mut figures, &mut list);
    if 0 < number {
        put_refused(out, number, figures[START], figures[LENGTH]);
        return;
    }
    put_spans(out, b"ok extras=", &list, figures[COUNT]);
}

fn put_line_figures(out: &mut Output, text: &[u8]) {
    let mut parts = Parts::blank();
    let number = gateway::hulmisker_line(
        text,
        &mut parts.figures,
        &mut parts.extras,
        &mut parts.specifiers,
        &mut parts.sheet.comparisons,
        &mut parts.sheet.warnings,
        &mut parts.sheet.words,
    );
    if 0 < number {
        put_refused(out, number, parts.figures[START], parts.figures[LENGTH]);
        return;
    }
    out.text(b"ok ");
    put_parts(out, &parts);
}

pub fn ask_marker(out: &mut Output, case: &str, text: &str) {
    let bytes = text.as_bytes();
    ask(
        out,
        case,
        "marker",
        text,
        |out| put_typed_marker(out, bytes),
        |out| put_marker_figures(out, bytes),
    );
}

pub fn ask_extras(out: &mut Output, case: &str, text: &str) {
    let bytes = text.as_bytes();
    ask(
        out,
        case,
        "extras",
        text,
        |out| put_typed_extras(out, bytes),
        |out| put_extras_figures(out, bytes),
    );
}

pub fn ask_line(out: &mut Output, case: &str, text: &str) {
    let bytes = text.as_bytes();
    ask(
        out,
        case,
        "line",
        text,
        |out| put_typed_line(out, bytes),
        |out| put_line_figures(out, bytes),
    );
}

// All of the output: the normal form, and behind it what stood there.
pub fn ask_name(out: &mut Output, case: &str, text: &str) {
    let _ = write!(out, "{case} normalise `{text}`\n    normalise: ");
    let mut normal = [b'#'; 9];
    match name::normalise(text.as_bytes(), &mut normal) {
        Ok(count) => {
            let _ = write!(out, "ok {count}");
        }
        Err(why) => put_refusal(out, why),
    }
    out.text(b" out=");
    out.text(&normal);
    out.put(b'\n');
}
