// The byte classes.
ghost use Rattle.std.specs.Prelude.{◌≡◌};
ghost use Rattle.text.specs.Class.{is_ascii, is_space, is_digit, is_capital, small, is_letter, is_alnum, is_separator, is_name_byte, is_operator_byte, is_quote, is_token_byte, is_word_byte, is_operator_word_byte, is_bare_byte, is_enclosed_byte, is_other};

pub fn is_ascii(b: u8) -> bool
    ensures { result ≡ is_ascii b }
{
    b.is_ascii()
}

pub fn is_space(b: u8) -> bool
    ensures { result ≡ is_space b }
{
    matches!(b, 9..=13 | b' ')
}

pub fn is_digit(b: u8) -> bool
    ensures { result ≡ is_digit b }
{
    b.is_ascii_digit()
}

pub fn is_capital(b: u8) -> bool
    ensures { result ≡ is_capital b }
{
    b.is_ascii_uppercase()
}

// A letter's small form; any other byte is its own.
pub fn small_of(b: u8) -> u8
    ensures { result ≡ small b }
{
    b.to_ascii_lowercase()
}

pub fn is_letter(b: u8) -> bool
    ensures { result ≡ is_letter b }
{
    b.is_ascii_alphabetic()
}

pub fn is_alnum(b: u8) -> bool
    ensures { result ≡ is_alnum b }
{
    b.is_ascii_alphanumeric()
}

pub fn is_separator(b: u8) -> bool
    ensures { result ≡ is_separator b }
{
    matches!(b, b'.' | b'-' | b'_')
}

pub fn is_name_byte(b: u8) -> bool
    ensures { result ≡ is_name_byte b }
{
    is_alnum(b) || is_separator(b)
}

pub fn is_operator_byte(b: u8) -> bool
    ensures { result ≡ is_operator_byte b }
{
    matches!(b, b'<' | b'=' | b'>' | b'~' | b'!')
}

pub fn is_quote(b: u8) -> bool
    ensures { result ≡ is_quote b }
{
    matches!(b, b'\'' | b'"')
}

pub fn is_token_byte(b: u8) -> bool
    ensures { result ≡ is_token_byte b }
{
    !(is_space(b) || is_operator_byte(b) || b == b')')
}

pub fn is_word_byte(b: u8) -> bool
    ensures { result ≡ is_word_byte b }
{
    !is_space(b)
}

pub fn is_operator_word_byte(b: u8) -> bool
    ensures { result ≡ is_operator_word_byte b }
{
    !(is_space(b) || is_quote(b))
}

// Two classes, each named by the documents: a list without a bracket goes up to `,` or `;`, one in parentheses up to `,` or `)`.
pub fn is_bare_byte(b: u8) -> bool
    ensures { result ≡ is_bare_byte b }
{
    !matches!(b, b',' | b';')
}

pub fn is_enclosed_byte(b: u8) -> bool
    ensures { result ≡ is_enclosed_byte b }
{
    !matches!(b, b',' | b')')
}

pub fn is_other(quote: u8, b: u8) -> bool
    ensures { result ≡ is_other quote b }
{
    b != quote
}
