// An accepted line in full: its name in normal form, and each of its parts.
use crate::answer::Answer;
use crate::shown::{Shown, between, part, trimmed};
use cursor::Cursor;
use figures::{LINE_COMPARISONS, LINE_EXTRAS, LINE_SPECIFIERS, LINE_WARNINGS, LINE_WORDS};
use marker_kind::WarningKind;
use marker_store::{load_comparison, load_warning};
use output::Output;
use program_check::{MAX_WORDS, Word};
use refusal::Span;
use spans::{SpanNumbers, gather};
use std::fmt::Write;
use wording::Parts;

pub fn put_accepted(out: &mut Output, line: &[u8], answer: &mut Answer) {
    out.text(b"accepted ");
    out.text(answer.normal_name(line));
    out.put(b'\n');
    let parts = &answer.parts;
    let figures = &parts.figures;
    put_spans(
        out,
        line,
        "    extras: ",
        &parts.extras,
        figures[LINE_EXTRAS],
    );
    put_spans(
        out,
        line,
        "    specifiers: ",
        &parts.specifiers,
        figures[LINE_SPECIFIERS],
    );
    if let Some(url) = answer.url() {
        out.text(b"    URL: ");
        Shown(part(line, url)).put(out);
        out.put(b'\n');
    }
    put_comparisons(out, line, parts);
    put_warnings(out, line, parts);
    let count = figures[LINE_WORDS].min(MAX_WORDS);
    put_program(out, &parts.sheet.words[..count]);
}

// Extras or specifiers in a row, if there are any.
fn put_spans(out: &mut Output, line: &[u8], label: &str, spans: &SpanNumbers, count: usize) {
    if count == 0 {
        return;
    }
    let count = count.min(Cursor::MAX_LIST);
    let mut before = label;
    for span in &gather(spans, count)[..count] {
        out.text(before.as_bytes());
        Shown(trimmed(part(line, *span))).put(out);
        before = ", ";
    }
    out.put(b'\n');
}

// The literal is shown with its quotes, which stand around its span.
fn quoted(line: &[u8], literal: Span) -> &[u8] {
    let start = literal.start.0;
    let end = start.saturating_add(literal.len);
    between(line, start.saturating_sub(1), end.saturating_add(1))
}

// Comparisons, and warnings below: two rows of text in a loop each; one function for both would take the rows as closures, and be no plainer.
fn put_comparisons(out: &mut Output, line: &[u8], parts: &Parts) {
    for i in 0..parts.figures[LINE_COMPARISONS].min(Cursor::MAX_COMPARISONS) {
        let one = load_comparison(&parts.sheet.comparisons, i);
        let _ = write!(out, "    comparison {i}: {} {} ", one.key, one.operator);
        Shown(quoted(line, one.literal)).put(out);
        let _ = writeln!(out, " ({})", one.sort);
    }
}

fn put_warnings(out: &mut Output, line: &[u8], parts: &Parts) {
    for i in 0..parts.figures[LINE_WARNINGS].min(Cursor::MAX_COMPARISONS) {
        let one = load_warning(&parts.sheet.warnings, i);
        let place = one.span;
        let _ = write!(
            out,
            "    warning of kind {} at {}, {}: ",
            one.kind, place.start.0, place.len
        );
        Shown(part(line, place)).put(out);
        let _ = writeln!(out, ": {}", meaning(one.kind));
    }
}

// The kinds are 1 to 5: a number, as `load_warning` gives it.
fn meaning(kind: usize) -> &'static str {
    match WarningKind::try_from(kind) {
        Ok(WarningKind::BadVersion) =>
            "a version is compared with what is none, or in no valid way",
        Ok(WarningKind::StringToName) => "a text is compared with a name",
        Ok(WarningKind::StringCompatible) => "~= compares versions, and this is a text",
        Ok(WarningKind::BadExtra) =>
            "'extra' goes with == or != and a name in quotes that has a normal form",
        Ok(WarningKind::TwoLiterals) | Err(_) => "two quoted values are compared",
    }
}

// The words as numbers, and once more with the operators by name.
fn put_program(out: &mut Output, words: &[u8]) {
    out.text(b"    program:");
    for word in words {
        let _ = write!(out, " {word}");
    }
    out.text(b" =");
    for word in words {
        let _ = match Word::from(*word) {
            Word::And => write!(out, " and"),
            Word::Or => write!(out, " or"),
            Word::Yes => write!(out, " yes"),
            Word::Push(_) | Word::Unknown => write!(out, " {word}"),
        };
    }
    out.put(b'\n');
}
