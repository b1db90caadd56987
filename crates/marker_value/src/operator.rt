// The operator between two values.
ghost use Rattle.std.specs.Prelude.{◌≡◌, ◌<◌};
ghost use Rattle.text.specs.Class.{is_letter, is_space};
ghost use Rattle.text.specs.Scan.{byte_at};
ghost use Rattle.marker_value.specs.Operator.{symbol_in, symbol_at, expect_at, in_at, not_at, word_at, operator_at};

use crate::table::among;
use cursor::Cursor;
use marker_kind::Operator;
use refusal::{Fault, Refusal, Span};
use text::{byte_at, is_letter, is_space, spelled};

// Document 01's operators that are no words.
const SYMBOLS: [(&[u8], Operator); 7] = [
    (b"==", Operator::Equal),
    (b"!=", Operator::NotEqual),
    (b"<", Operator::Less),
    (b"<=", Operator::LessEqual),
    (b">", Operator::Greater),
    (b">=", Operator::GreaterEqual),
    (b"~=", Operator::Compatible),
];

#[tactic(auto, unfolding(crate::specs::Operator::symbol_in, crate::specs::Operator::later_symbol_in))]
fn symbol_in(line: &[u8], span: Span) -> Option<Operator>
    ensures { result ≡ symbol_in line.now span }
{
    among(line, span, &SYMBOLS)
}

// `named_at` of value.rt is like it: a function for both would take the scan, the table and the fault, and be no plainer.
#[tactic(auto, unfolding(crate::specs::Operator::symbol_at))]
fn symbol_at(line: &[u8], cur: Cursor) -> Result<(Operator, Cursor), Refusal>
    ensures { result ≡ symbol_at line.now cur.at }
{
    let end = cur.take_operator(line);
    let token = cur.span_to(end);
    let unknown = Refusal::new(Fault::OperatorUnknown, cur.at, token.len);
    let operator = symbol_in(line, token).ok_or(unknown)?;
    Ok((operator, end))
}

// The place behind a byte, not 0, that must stand here.
fn expect(line: &[u8], cur: Cursor, wanted: u8) -> Result<Cursor, Refusal>
    requires { 0 < wanted }
    ensures { result ≡ expect_at line.now cur.at wanted }
{
    match cur.next(line) {
        Some((byte, next)) if byte == wanted => Ok(next),
        Some(_) => Err(Refusal::new(Fault::ExpectedFoundOther, cur.at, 1)),
        None => Err(Refusal::new(Fault::ExpectedFoundEnd, cur.at, 1)),
    }
}

// `in`, behind `not` and white space: nothing need follow it.
#[tactic(auto, unfolding(crate::specs::Operator::in_at))]
fn in_at(line: &[u8], cur: Cursor) -> Result<(Operator, Cursor), Refusal>
    ensures { result ≡ in_at line.now cur.at }
{
    let second = expect(line, cur, b'i')?;
    let end = expect(line, second, b'n')?;
    Ok((Operator::NotIn, end))
}

#[tactic(auto, unfolding(crate::specs::Operator::not_at))]
fn not_at(line: &[u8], end: Cursor) -> Result<(Operator, Cursor), Refusal>
    ensures { result ≡ not_at line.now end.at }
{
    if is_space(byte_at(line, end.at)) {
        return in_at(line, end.skip_whitespace(line));
    }
    Err(Refusal::new(Fault::NotUnspaced, end.at, 1))
}

#[tactic(auto, unfolding(crate::specs::Operator::word_at))]
fn word_at(line: &[u8], cur: Cursor) -> Result<(Operator, Cursor), Refusal>
    ensures { result ≡ word_at line.now cur.at }
{
    let end = cur.take_operator_word(line);
    let token = cur.span_to(end);
    if spelled(line, token, b"not") {
        return not_at(line, end);
    }
    if spelled(line, token, b"in") {
        return Ok((Operator::In, end));
    }
    Err(Refusal::new(Fault::OperatorUnknown, cur.at, token.len))
}

#[tactic(auto, unfolding(crate::specs::Operator::operator_at))]
pub fn operator_at(line: &[u8], cur: Cursor) -> Result<(Operator, Cursor), Refusal>
    ensures { result ≡ operator_at line.now cur.at }
{
    if is_letter(byte_at(line, cur.at)) {
        return word_at(line, cur);
    }
    symbol_at(line, cur)
}
