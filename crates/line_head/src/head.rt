// The parts of a line before its marker, one after another.
ghost use Rattle.std.specs.Prelude.{◌≡◌};
ghost use Rattle.refusal.specs.Refusal.{told};
ghost use Rattle.spans.specs.Flat.{spans_onto};
ghost use Rattle.line_head.specs.Head.{head, extras_of, texts_of};

use crate::part::{Head, tail_at, wanted_at};
use line_extras::extras_at;
use line_name::name_at;
use refusal::Refusal;
use spans::SpanNumbers;

// The parts of a line: the extras go to the first array, the specifiers to the second.
// Two arrays, and no struct of them: each door lends its own and copies each to where C wants it.
pub fn head_of(
    line: &[u8],
    list: &mut SpanNumbers,
    texts: &mut SpanNumbers,
) -> Result<Head, Refusal>
    ensures answer { told result ≡ head line.now }
    ensures extras { list.new ≡ spans_onto (extras_of line.now) list.old }
    ensures written { texts.new ≡ spans_onto (texts_of line.now) texts.old }
{
    let (name, next) = name_at(line)?;
    let (extras, next) = extras_at(line, next.skip_whitespace(line).at, list)?;
    let (wanted, next) = wanted_at(line, next.skip_whitespace(line).at, texts)?;
    let marker = tail_at(line, next.skip_whitespace(line).at)?;
    Ok(Head {
        name,
        extras,
        wanted,
        marker,
    })
}
