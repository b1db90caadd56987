// What was read, by value.
ghost use Rattle.std.specs.Prelude.{◌≡◌};
ghost use Rattle.marker.specs.Answer.{marker_answer, entry_answer};
ghost use Rattle.marker_typed.specs.Lists.{lists_of};
ghost use Rattle.refusal.specs.Answer.{on_good};
ghost use Rattle.refusal.specs.Refusal.{told};

use crate::gather::{Lists, gather};
use cursor::{Cursor, check_line};
use marker_cycle::read_from;
use marker_store::Sheet;
use refusal::Refusal;

// The marker that starts at a place of a line and goes to its end. Refusals 1 and 2 are not looked for: the line's reader has done that.
pub fn read_marker_from(line: &[u8], from: Cursor) -> Result<Lists, Refusal>
    ensures { told result ≡ on_good lists_of (marker_answer line.now from.at) }
{
    let mut sheet = Sheet::blank();
    read_from(line, from, &mut sheet)?;
    Ok(gather(&sheet))
}

// The marker entry.
pub fn read_marker(line: &[u8]) -> Result<Lists, Refusal>
    ensures { told result ≡ on_good lists_of (entry_answer line.now) }
{
    check_line(line)?;
    read_marker_from(line, Cursor::start())
}
