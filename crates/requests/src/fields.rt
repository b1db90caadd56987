// The parts of a request: its entry with the entry's numbers, and its bytes.
ghost use Rattle.std.specs.Prelude.{◌<◌, ◌≤◌, IfSome};

use crate::DATA;

#[derive(Clone, Copy, Debug, PartialEq, Eq)]
pub enum Entry {
    Line,
    Extras,
    Marker,
    Version,
    Pattern,
    Specifier,
    Normalise { room: u64 },
    Check { count: u64 },
    Run { count: u64, assignment: u64 },
}

// What stands before the first blank, and what behind it.
fn first_field(line: &[u8]) -> Option<(&[u8], &[u8])> {
    let blank = line.iter().position(|byte| *byte == b' ')?;
    Some((&line[..blank], &line[blank + 1..]))
}

// (Std's `to_digit` answers a u32, and takes capitals where the base is 16.)
fn digit_of(byte: u8) -> Option<u8>
    ensures { IfSome result (λ n. n ≤ 9) }
{
    match byte {
        b'0'..=b'9' => Some(byte - b'0'),
        _ => None,
    }
}

// A number has 1 to 20 digits.
fn number_of(digits: &[u8]) -> Option<u64> {
    if digits.is_empty() || 20 < digits.len() {
        return None;
    }
    let mut value: u64 = 0;
    for byte in digits {
        value = value.checked_mul(10)?.checked_add(digit_of(*byte)? as u64)?;
    }
    Some(value)
}

// The number in front, and what stands behind it and a blank.
fn first_number(fields: &[u8]) -> Option<(u64, &[u8])> {
    let (digits, rest) = first_field(fields)?;
    Some((number_of(digits)?, rest))
}

// The entry with its numbers, and the field behind them.
fn entry_of(line: &[u8]) -> Option<(Entry, &[u8])> {
    let (word, fields) = first_field(line)?;
    Some(match word {
        b"line" => (Entry::Line, fields),
        b"extras" => (Entry::Extras, fields),
        b"marker" => (Entry::Marker, fields),
        b"version" => (Entry::Version, fields),
        b"pattern" => (Entry::Pattern, fields),
        b"specifier" => (Entry::Specifier, fields),
        b"normalise" => {
            let (room, rest) = first_number(fields)?;
            (Entry::Normalise { room }, rest)
        }
        b"check" => {
            let (count, rest) = first_number(fields)?;
            (Entry::Check { count }, rest)
        }
        b"run" => {
            let (count, rest) = first_number(fields)?;
            let (assignment, rest) = first_number(rest)?;
            (Entry::Run { count, assignment }, rest)
        }
        _ => return None,
    })
}

// Capitals are no digits.
fn hex_value(byte: u8) -> Option<u8>
    ensures { IfSome result (λ n. n < 16) }
{
    match byte {
        b'a'..=b'f' => Some(byte - b'a' + 10),
        _ => digit_of(byte),
    }
}

// The bytes that the field spells, `-` for none or two digits for each, in the front of the lent array.
fn bytes_of<'a>(field: &[u8], data: &'a mut [u8; DATA]) -> Option<&'a [u8]> {
    if matches!(field, b"-") {
        return Some(&data[..0]);
    }
    if field.is_empty() || field.len() % 2 == 1 || 2 * DATA < field.len() {
        return None;
    }
    for (i, pair) in field.chunks_exact(2).enumerate() {
        data[i] = hex_value(pair[0])? * 16 + hex_value(pair[1])?;
    }
    Some(&data[..field.len() / 2])
}

// The entry that the line asks, and the bytes that it spells, if it is a request. The bytes are put into the front of the lent array.
pub fn read_request<'a>(line: &[u8], data: &'a mut [u8; DATA]) -> Option<(Entry, &'a [u8])> {
    let (entry, field) = entry_of(line)?;
    let text = bytes_of(field, data)?;
    Some((entry, text))
}
