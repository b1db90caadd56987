// The epoch and the release numbers.
ghost use Rattle.std.specs.Prelude.{◌≡◌};
ghost use Rattle.version_parts.specs.Joined.{more};
ghost use Rattle.version_number.specs.Number.{number_len};
ghost use Rattle.version_number.specs.Place.{past};
ghost use Rattle.version_parts.specs.Release.{v_len, epoch_len, is_dot};

use crate::joined::items_end;
use crate::part::is_letter_of;
use text::{byte_at, has};
use version_number::number_end;

// The place behind a `v` that may stand at a place.
pub fn v_end(text: &[u8], at: usize) -> usize
    ensures { result ≡ past v_len text.now at }
{
    if is_letter_of(byte_at(text, at), b'v') {
        at + 1
    } else {
        at
    }
}

#[tactic(auto, using(crate::proofs::Releases::released))]
pub fn epoch_end(text: &[u8], at: usize) -> usize
    ensures { result ≡ past epoch_len text.now at }
{
    let end = number_end(text, at);
    if at < end && has(text, end, b'!') {
        end + 1
    } else {
        at
    }
}

// The place behind the further release numbers, each behind a `.`.
pub fn release_end(text: &[u8], first: usize) -> usize
    ensures { result ≡ past (more is_dot number_len) text.now first }
{
    items_end(text, first, |b| b == b'.', |at| number_end(text, at))
}
