// One comparison read at a place.
ghost use Rattle.std.specs.Prelude.{◌≡◌};
ghost use Rattle.marker_value.specs.Operator.{operator_at};
ghost use Rattle.marker_value.specs.Value.{value_at};
ghost use Rattle.marker_verdict.specs.Found.{with_right, with_operator, found_at};

use crate::verdict::{Verdict, verdict_of};
use cursor::Cursor;
use marker_kind::Operator;
use marker_value::{Value, operator_at, value_at};
use refusal::{Refusal, Span};

// What a comparison comes to, its span, and where the line goes on.
#[derive(Clone, Copy, Debug, PartialEq, Eq)]
pub struct Found {
    pub verdict: Verdict,
    pub span: Span,
    pub next: Cursor,
}

fn with_right(
    line: &[u8],
    from: Cursor,
    left: Value,
    op: Operator,
    at: Cursor,
) -> Result<Found, Refusal>
    ensures { result ≡ with_right line.now from.at left op (value_at line.now at.at) }
{
    let (right, next) = value_at(line, at)?;
    Ok(Found {
        verdict: verdict_of(line, left, op, right),
        span: from.span_to(next),
        next,
    })
}

fn with_operator(line: &[u8], from: Cursor, left: Value, at: Cursor) -> Result<Found, Refusal>
    ensures { result ≡ with_operator line.now from.at left (operator_at line.now at.at) }
{
    let (op, end) = operator_at(line, at)?;
    with_right(line, from, left, op, end.skip_whitespace(line))
}

// What stands at a place where no white space does.
#[tactic(auto, unfolding(crate::specs::Found::found_at))]
pub fn find(line: &[u8], start: Cursor) -> Result<Found, Refusal>
    ensures { result ≡ found_at line.now start.at }
{
    let (left, end) = value_at(line, start)?;
    with_operator(line, start, left, end.skip_whitespace(line))
}
