// A number in decimal digits.
ghost use Rattle.std.specs.Prelude.{◌≡◌, ◌≢◌, ℕ, ◌+◌, ◌<◌, ◌≤◌, ◌%◌, drop, slice_index, false};
ghost use Rattle.std.specs.Fmt.{digit_glyph};
ghost use Rattle.output.specs.Digits.{continued};

fn digit(n: u64) -> u8
    ensures { result ≡ 48 + n % 10 }
{
    b'0' + (n % 10) as u8
}

// In small letters.
pub fn hex_digit(n: u8) -> u8
    requires { n < 16 }
    ensures { result ≡ digit_glyph false n }
{
    if n < 10 { b'0' + n } else { b'a' + (n - 10) }
}

// Puts the digits at the end of the array, and says where they start. A number of 64 bits has 20 at most. (The loop is over what is left of the number, and the
// place goes down with it: a `for` over places that stops early is no plainer.)
pub fn spell(number: u64, digits: &mut [u8; 20]) -> usize
    ensures some { result < 20 }
    ensures digits { (k : ℕ) → result ≤ k → k < 20 → (48 ≤ slice_index digits.new k) × (slice_index digits.new k ≤ 57) }
    ensures value { continued 0 (drop result digits.new) ≡ number }
    ensures shortest { result < 19 → slice_index digits.new result ≢ 48 }
{
    let mut at: usize = 19;
    digits[at] = digit(number);
    let mut rest = number / 10;
    while rest > 0 && at > 0 {
        at -= 1;
        digits[at] = digit(rest);
        rest /= 10;
    }
    at
}
