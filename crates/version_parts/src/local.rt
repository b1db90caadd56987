// The local part.
ghost use Rattle.std.specs.Prelude.{◌≡◌};
ghost use Rattle.version_parts.specs.Local.{segment_len, local_len};
ghost use Rattle.version_number.specs.Place.{past};

use crate::joined::items_end;
use cursor::Cursor;
use text::{byte_at, has, is_digit, is_separator};
use version_number::number_end;

// The place behind the segment at a place: letters and digits, and all digits only if they are a number.
#[tactic(auto, using(crate::proofs::Locals::locals))]
fn segment_end(text: &[u8], at: usize) -> usize
    ensures { result ≡ past segment_len text.now at }
{
    let from = Cursor { at };
    let all = from.take_alnum(text).at;
    // A segment that no digit starts is no number: no second look at it.
    if !is_digit(byte_at(text, at)) {
        return all;
    }
    let digits = from.take_digits(text).at;
    if digits < all {
        return all;
    }
    number_end(text, at)
}

#[tactic(auto, using(crate::proofs::Locals::locals))]
pub fn local_end(text: &[u8], at: usize) -> usize
    ensures { result ≡ past local_len text.now at }
{
    if has(text, at, b'+') {
        let first = segment_end(text, at + 1);
        if at + 1 < first {
            return items_end(text, first, |b| is_separator(b), |at| segment_end(text, at));
        }
    }
    at
}
