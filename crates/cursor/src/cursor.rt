// A place in a lent line, and the moves from it. Each takes a cursor and hands back the next one; the line stands beside it.
ghost use Rattle.std.specs.Prelude.{◌≡◌, ℕ, Bool};
ghost use Rattle.text.specs.Class.{is_ascii, is_space, is_digit, is_alnum, is_name_byte, is_operator_byte, is_token_byte, is_word_byte, is_operator_word_byte, is_bare_byte, is_enclosed_byte, is_other};
ghost use Rattle.cursor.specs.Cursor.{peek_at, next_at, span_to};
ghost use Rattle.text.specs.Scan.{skip};

use refusal::{Offset, Span};
use text::{
    is_alnum, is_ascii, is_bare_byte, is_digit, is_enclosed_byte, is_name_byte, is_operator_byte,
    is_operator_word_byte, is_other, is_space, is_token_byte, is_word_byte,
};

#[derive(Clone, Copy, Debug, PartialEq, Eq)]
pub struct Cursor {
    pub at: usize,
}

impl Cursor {
    // Bytes of a line.
    pub const MAX_LINE: usize = 4096;

    // Open parentheses of a marker.
    pub const MAX_DEPTH: usize = 16;

    // Kept comparisons of a marker, and its warnings.
    pub const MAX_COMPARISONS: usize = 64;

    // Extras of a line, and its specifiers.
    pub const MAX_LIST: usize = 32;

    // Document 01 names this form, a start function without self, and no Default.
    pub fn start() -> Cursor
        ensures { result.at ≡ 0 }
    {
        Cursor { at: 0 }
    }

    pub fn peek(self, line: &[u8]) -> Option<u8>
        ensures { result ≡ peek_at line.now self }
    {
        line.get(self.at).copied()
    }

    pub fn next(self, line: &[u8]) -> Option<(u8, Cursor)>
        ensures { result ≡ next_at line.now self }
    {
        let byte = self.peek(line)?;
        Some((byte, Cursor { at: self.at + 1 }))
    }

    // The bytes up to another cursor, none if that one stands before this.
    pub fn span_to(self, to: Cursor) -> Span
        ensures { result ≡ span_to self to }
    {
        let start = Offset(self.at);
        if self.at <= to.at {
            Span {
                start,
                len: to.at - self.at,
            }
        } else {
            Span { start, len: 0 }
        }
    }

    // The cursor behind the longest run of bytes from here that all are of a class.
    #[tactic(auto, using(crate::proofs::Laws::scan))]
    pub fn take<F: Fn(u8) -> bool>(self, line: &[u8], class: F) -> Cursor
        requires { F.IsAlwaysCallable class }
        ensures { (p : ℕ → Bool) → ((b : ℕ) → (r : Bool) → F.post class b r → r ≡ p b)
            → result.at ≡ skip p line.now self.at }
    {
        if line.len() <= self.at {
            return self;
        }
        for at in self.at..line.len() {
            if !class(line[at]) {
                return Cursor { at };
            }
        }
        Cursor { at: line.len() }
    }

    // The scans by name, each one line over `take`: document 01 names the moves, and docs/PROMISES.md these.
    pub fn skip_whitespace(self, line: &[u8]) -> Cursor
        ensures { result.at ≡ skip is_space line.now self.at }
    {
        self.take(line, |b| is_space(b))
    }

    pub fn take_ascii(self, line: &[u8]) -> Cursor
        ensures { result.at ≡ skip is_ascii line.now self.at }
    {
        self.take(line, |b| is_ascii(b))
    }

    pub fn take_digits(self, line: &[u8]) -> Cursor
        ensures { result.at ≡ skip is_digit line.now self.at }
    {
        self.take(line, |b| is_digit(b))
    }

    pub fn take_alnum(self, line: &[u8]) -> Cursor
        ensures { result.at ≡ skip is_alnum line.now self.at }
    {
        self.take(line, |b| is_alnum(b))
    }

    pub fn take_name(self, line: &[u8]) -> Cursor
        ensures { result.at ≡ skip is_name_byte line.now self.at }
    {
        self.take(line, |b| is_name_byte(b))
    }

    pub fn take_operator(self, line: &[u8]) -> Cursor
        ensures { result.at ≡ skip is_operator_byte line.now self.at }
    {
        self.take(line, |b| is_operator_byte(b))
    }

    pub fn take_token(self, line: &[u8]) -> Cursor
        ensures { result.at ≡ skip is_token_byte line.now self.at }
    {
        self.take(line, |b| is_token_byte(b))
    }

    pub fn take_word(self, line: &[u8]) -> Cursor
        ensures { result.at ≡ skip is_word_byte line.now self.at }
    {
        self.take(line, |b| is_word_byte(b))
    }

    pub fn take_operator_word(self, line: &[u8]) -> Cursor
        ensures { result.at ≡ skip is_operator_word_byte line.now self.at }
    {
        self.take(line, |b| is_operator_word_byte(b))
    }

    pub fn take_bare(self, line: &[u8]) -> Cursor
        ensures { result.at ≡ skip is_bare_byte line.now self.at }
    {
        self.take(line, |b| is_bare_byte(b))
    }

    pub fn take_enclosed(self, line: &[u8]) -> Cursor
        ensures { result.at ≡ skip is_enclosed_byte line.now self.at }
    {
        self.take(line, |b| is_enclosed_byte(b))
    }

    pub fn take_to_quote(self, line: &[u8], quote: u8) -> Cursor
        ensures { result.at ≡ skip (is_other quote) line.now self.at }
    {
        self.take(line, |b| is_other(quote, b))
    }
}
