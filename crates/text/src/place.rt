// Total reads of a line: past its end stands 0, with which no name and no operator starts; where the end matters, callers test it.
ghost use Rattle.std.specs.Prelude.{◌≡◌, ◌-◌, eqb};
ghost use Rattle.text.specs.Class.{is_separator};
ghost use Rattle.text.specs.Scan.{byte_at};

use crate::class::is_separator;

pub fn byte_at(line: &[u8], at: usize) -> u8
    ensures { result ≡ byte_at line.now at }
{
    line.get(at).copied().unwrap_or(0)
}

// Whether a byte, not 0, stands at a place.
pub fn has(line: &[u8], at: usize, b: u8) -> bool
    ensures { result ≡ eqb (byte_at line.now at) b }
{
    byte_at(line, at) == b
}

pub fn separator_at(line: &[u8], at: usize) -> bool
    ensures { result ≡ is_separator (byte_at line.now at) }
{
    is_separator(byte_at(line, at))
}

// Whether a separator stands just before a place: what a name that ends there ends in.
pub fn separator_before(line: &[u8], at: usize) -> bool
    ensures { result ≡ is_separator (byte_at line.now (at - 1)) }
{
    separator_at(line, at.saturating_sub(1))
}
