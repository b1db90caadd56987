// The extras at a place of a line.
ghost use Rattle.std.specs.Prelude.{◌≡◌};
ghost use Rattle.cursor.specs.Cursor.{told_at};
ghost use Rattle.spans.specs.Listing.{read_onto, counted};
ghost use Rattle.line_extras.specs.Extras.{extras_at};

use crate::extra::item_at;
use cursor::Cursor;
use refusal::{Fault, Refusal};
use spans::{SpanNumbers, read_list};

// The extras that start at a place, none where no `[` stands there.
pub fn extras_at(line: &[u8], at: usize, list: &mut SpanNumbers) -> Result<(usize, Cursor), Refusal>
    ensures answer { told_at result ≡ counted (extras_at line.now at) }
    ensures written { list.new ≡ read_onto (extras_at line.now at) list.old }
{
    if text::has(line, at, b'[') {
        let from = Cursor { at: at + 1 }.skip_whitespace(line).at;
        let item = |fresh, place| item_at(line, at, fresh, place);
        return read_list(Fault::ExtrasMany, list, from, item);
    }
    Ok((0, Cursor { at }))
}
