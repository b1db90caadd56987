// The answer of each entry, in words.
use crate::OUT;
use crate::fields::Entry;
use figures::{
    COUNT, COUNT_FIGURES, LENGTH, MARKER_COMPARISONS, MARKER_FIGURES, MARKER_WARNINGS,
    MARKER_WORDS, PLACE_FIGURES, PlaceFigures, START,
};
use marker_store::{Counts, Sheet};
use output::Output;
use spans::LIST_NUMBERS;
use std::fmt::Write;
use wording::{Parts, put_marker, put_parts, put_refused, put_spans};

// What each byte of an output holds before the normaliser is asked.
const BEFORE: u8 = 170;

pub fn put_bad(out: &mut Output) {
    out.text(b"bad request");
}

// A number of 0 is no refusal: so C is told.
fn put_verdict(out: &mut Output, number: u8, start: usize, len: usize) {
    if number == 0 {
        out.text(b"ok");
    } else {
        put_refused(out, number, start, len);
    }
}

// Where the answer is a verdict alone.
fn put_answered<F: FnOnce(&mut PlaceFigures) -> u8>(out: &mut Output, ask: F)
    requires { (figures : _) → F.pre ask figures }
{
    let mut figures = [0; PLACE_FIGURES];
    let number = ask(&mut figures);
    put_verdict(out, number, figures[START], figures[LENGTH]);
}

fn put_line(out: &mut Output, text: &[u8]) {
    let mut parts = Parts::blank();
    let number = gateway::hulmisker_line(
        text,
        &mut parts.figures,
        &mut parts.extras,
        &mut parts.specifiers,
        &mut parts.sheet.comparisons,
        &mut parts.sheet.warnings,
        &mut parts.sheet.words,
    );
    if 0 < number {
        put_refused(out, number, parts.figures[START], parts.figures[LENGTH]);
        return;
    }
    out.text(b"ok ");
    put_parts(out, &parts);
}

fn put_extras(out: &mut Output, text: &[u8]) {
    let mut figures = [0; COUNT_FIGURES];
    let mut extras = [0; LIST_NUMBERS];
    let number = gateway::hulmisker_extras(text, &mut figures, &mut extras);
    if 0 < number {
        put_refused(out, number, figures[START], figures[LENGTH]);
        return;
    }
    put_spans(out, b"ok extras=", &extras, figures[COUNT]);
}

fn put_marker_alone(out: &mut Output, text: &[u8]) {
    let mut figures = [0; MARKER_FIGURES];
    let mut sheet = Sheet::blank();
    let number = gateway::hulmisker_marker(
        text,
        &mut figures,
        &mut sheet.comparisons,
        &mut sheet.warnings,
        &mut sheet.words,
    );
    if 0 < number {
        put_refused(out, number, figures[START], figures[LENGTH]);
        return;
    }
    out.text(b"ok");
    let counts = Counts {
        kept: figures[MARKER_COMPARISONS],
        warned: figures[MARKER_WARNINGS],
        words: figures[MARKER_WORDS],
    };
    put_marker(
        out,
        &sheet.comparisons,
        &sheet.warnings,
        &sheet.words,
        counts,
    );
}

// `-` for none.
fn put_bytes(out: &mut Output, bytes: &[u8]) {
    if bytes.is_empty() {
        out.put(b'-');
    }
    for byte in bytes {
        out.hex(*byte);
    }
}

// The verdict, the length of the normal form where there is one, and the room that was lent for it.
fn put_normalised(out: &mut Output, name: &[u8], normal: &mut [u8]) {
    normal.fill(BEFORE);
    let mut figures = [0; COUNT_FIGURES];
    let number = gateway::hulmisker_normalise(name, normal, &mut figures);
    put_verdict(out, number, figures[START], figures[LENGTH]);
    if number == 0 {
        let _ = write!(out, " {}", figures[COUNT]);
    }
    out.text(b" out=");
    put_bytes(out, normal);
}

fn put_run(out: &mut Output, program: &[u8], count: usize, assignment: u64) {
    let mut figures = [0; COUNT_FIGURES];
    let number = gateway::hulmisker_run(program, count, assignment, &mut figures);
    if 0 < number {
        put_refused(out, number, figures[START], figures[LENGTH]);
    } else if figures[COUNT] == 0 {
        out.text(b"ok no");
    } else {
        out.text(b"ok yes");
    }
}

// The answer on the bytes that the request spelled.
pub fn put_answer(out: &mut Output, entry: Entry, text: &[u8], normal: &mut [u8; OUT]) {
    match entry {
        Entry::Line => put_line(out, text),
        Entry::Extras => put_extras(out, text),
        Entry::Marker => put_marker_alone(out, text),
        Entry::Version => put_answered(out, |tell| gateway::hulmisker_version(text, tell)),
        Entry::Pattern => put_answered(out, |tell| gateway::hulmisker_pattern(text, tell)),
        Entry::Specifier => put_answered(out, |tell| gateway::hulmisker_specifier(text, tell)),
        Entry::Check { count } => {
            let count = count as usize;
            put_answered(out, |tell| gateway::hulmisker_check(text, count, tell));
        }
        Entry::Run { count, assignment } => put_run(out, text, count as usize, assignment),
        Entry::Normalise { room } => match normal.get_mut(..room as usize) {
            Some(normal) => put_normalised(out, text, normal),
            None => put_bad(out),
        },
    }
}
