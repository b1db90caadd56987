// The parts behind the extras, each at its place.
ghost use Rattle.std.specs.Prelude.{◌≡◌};
ghost use Rattle.cursor.specs.Cursor.{told_at};
ghost use Rattle.refusal.specs.Refusal.{told};
ghost use Rattle.spans.specs.Flat.{spans_onto};
ghost use Rattle.line_head.specs.Head.{text_count, tail_at, wanted_at, texts_at};

use cursor::Cursor;
use line_specifiers::specifiers_at;
use line_url::url_at;
use refusal::{Fault, Refusal, Span};
use spans::SpanNumbers;

#[derive(Clone, Copy, Debug, PartialEq, Eq)]
pub enum Wanted {
    // So many specifiers, which may be none.
    Specifiers(usize),
    Url(Span),
}

#[derive(Clone, Copy, Debug, PartialEq, Eq)]
pub struct Head {
    pub name: Span,
    pub extras: usize,
    pub wanted: Wanted,
    // The place behind the `;` of a marker, if one follows.
    pub marker: Option<Cursor>,
}

// (docs/PROMISES.md names it as a function.)
pub fn text_count(wanted: Wanted) -> usize
    ensures { result ≡ text_count wanted }
{
    match wanted {
        Wanted::Specifiers(n) => n,
        Wanted::Url(_) => 0,
    }
}

// What ends the parts: the line's end, or the `;` of a marker, which starts behind it.
#[tactic(auto, unfolding(crate::specs::Head::tail_at, refusal::specs::Refusal::given))]
pub fn tail_at(line: &[u8], at: usize) -> Result<Option<Cursor>, Refusal>
    ensures { told result ≡ tail_at line.now at }
{
    let Some((byte, next)) = Cursor { at }.next(line) else {
        return Ok(None);
    };
    if byte == b';' {
        return Ok(Some(next));
    }
    Err(Refusal::new(Fault::LineGoesOn, at, 1))
}

// The URL behind an `@`, or else the specifiers.
pub fn wanted_at(
    line: &[u8],
    at: usize,
    texts: &mut SpanNumbers,
) -> Result<(Wanted, Cursor), Refusal>
    ensures answer { told_at result ≡ wanted_at line.now at }
    ensures written { texts.new ≡ spans_onto (texts_at line.now at) texts.old }
{
    if text::has(line, at, b'@') {
        let (url, next) = url_at(line, at + 1)?;
        return Ok((Wanted::Url(url), next));
    }
    let (n, next) = specifiers_at(line, at, texts)?;
    Ok((Wanted::Specifiers(n), next))
}
