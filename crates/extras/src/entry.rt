// Extras alone: refusals 1 and 2 over all bytes, then the extras that the text begins with. Two doors, one definition.
ghost use Rattle.std.specs.Prelude.{◌≡◌};
ghost use Rattle.refusal.specs.Answer.{on_good};
ghost use Rattle.refusal.specs.Refusal.{told};
ghost use Rattle.extras.specs.Entry.{entry, filled, counts, written};

use cursor::{Cursor, check_line};
use line_extras::extras_at;
use refusal::{Refusal, Span};
use spans::{LIST_NUMBERS, SpanNumbers};

// The typed answer: past the count the list holds the span 0, 0. An array and a count, since nothing here is on a heap.
#[derive(Debug, PartialEq, Eq, Drop)]
pub struct Extras {
    pub extras: [Span; Cursor::MAX_LIST],
    pub count: usize,
}

pub fn read_extras(line: &[u8]) -> Result<Extras, Refusal>
    ensures { told result ≡ on_good filled (entry line.now) }
{
    check_line(line)?;
    let mut list = [0; LIST_NUMBERS];
    let (count, _) = extras_at(line, 0, &mut list)?;
    let extras = spans::gather(&list, count);
    Ok(Extras { extras, count })
}

// The quick door: the extras' starts and lengths go to the front of the lent array. A refusal leaves it as it was.
pub fn extras_into(line: &[u8], out: &mut SpanNumbers) -> Result<usize, Refusal>
    ensures answer { told result ≡ counts (entry line.now) }
    ensures output { out.new ≡ written (entry line.now) out.old }
{
    check_line(line)?;
    let mut found = [0; LIST_NUMBERS];
    let (count, _) = extras_at(line, 0, &mut found)?;
    spans::copy(&found, count, out);
    Ok(count)
}
