// A fixed byte string against a part of a line.
ghost use Rattle.std.specs.Prelude.{◌≡◌, ℕ, Bool, drop};
ghost use Rattle.text.specs.Word.{begins_by, begins, spells};

use refusal::Span;

// Whether a word stands at a place, each byte of the line being like the word's.
pub fn word_like<F: Fn(u8, u8) -> bool>(line: &[u8], start: usize, word: &[u8], alike: F) -> bool
    requires { F.IsAlwaysCallable alike }
    ensures { (p : ℕ → ℕ → Bool) → ((b : ℕ) → (w : ℕ) → (r : Bool) → F.post alike b w r → r ≡ p b w)
        → result ≡ begins_by p word.now (drop start line.now) }
{
    let rest = &line[start.min(line.len())..];
    word.len() <= rest.len() && rest.iter().zip(word).all(|(b, w)| alike(*b, *w))
}

// Whether a word stands at a place.
pub fn word_at(line: &[u8], start: usize, word: &[u8]) -> bool
    ensures { result ≡ begins word.now (drop start line.now) }
{
    word_like(line, start, word, |b, w| b == w)
}

// Whether a span is a word. The lengths tell most words apart before a byte is read.
pub fn spelled(line: &[u8], span: Span, word: &[u8]) -> bool
    ensures { result ≡ spells word.now line.now span }
{
    span.len == word.len() && word_at(line, span.start.0, word)
}
