// A number of a version, bounded by its value: leading zeros are free.
ghost use Rattle.std.specs.Prelude.{◌≡◌, ◌+◌, ◌*◌, ltb};
ghost use Rattle.version_number.specs.Number.{digit_value, largest, number_len};
ghost use Rattle.version_number.specs.Place.{past};

use text::is_digit;

// Each number is at most this, so that it fits 64 bits.
pub const LARGEST: u64 = u64::MAX;

// Whether one digit more makes a number too large: 10 * value + digit would not fit.
pub fn overflows(value: u64, digit: u64) -> bool
    ensures { result ≡ ltb largest (10 * value + digit) }
{
    // Nearly every number ends here, without a division.
    if value < LARGEST / 10 && digit < 10 {
        return false;
    }
    (LARGEST - digit) / 10 < value
}

// What a digit stands for. A byte before `0` is 0, so that no caller has to show that it has a digit.
pub fn digit_value(b: u8) -> u64
    ensures { result ≡ digit_value b }
{
    u64::from(b.saturating_sub(b'0'))
}

// The place behind the number that stands at a place: the same place if none does, or one that is too large.
#[tactic(auto, using(crate::proofs::Numbers::number))]
pub fn number_end(text: &[u8], at: usize) -> usize
    ensures { result ≡ past number_len text.now at }
{
    let mut value: u64 = 0;
    for end in at..text.len() {
        if !is_digit(text[end]) {
            return end;
        }
        let digit = digit_value(text[end]);
        if overflows(value, digit) {
            return at;
        }
        value = 10 * value + digit;
    }
    at.max(text.len())
}
