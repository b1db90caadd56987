// The pre, post and dev parts.
ghost use Rattle.std.specs.Prelude.{◌≡◌, map, IsTrue};
ghost use Rattle.version_parts.specs.Part.{is_letter_of, all_lettered, word_len, sep_len, count_len, part_len, pre_len, post_len, dev_len};
ghost use Rattle.version_number.specs.Place.{past};

use text::{byte_at, has, is_letter, separator_at, small_of, word_like};
use version_number::number_end;

// A longer word stands before one that it begins with.
const PRE_WORDS: [&[u8]; 8] = [
    b"alpha", b"a", b"beta", b"b", b"c", b"rc", b"preview", b"pre",
];

const POST_WORDS: [&[u8]; 3] = [b"post", b"rev", b"r"];

const DEV_WORDS: [&[u8]; 1] = [b"dev"];

// Whether a byte is a letter, its case ignored.
pub fn is_letter_of(b: u8, letter: u8) -> bool
    ensures { result ≡ is_letter_of b letter }
{
    small_of(b) == letter
}

// The place behind the separator that may stand at a place.
fn separator_end(text: &[u8], at: usize) -> usize
    ensures { result ≡ past sep_len text.now at }
{
    if separator_at(text, at) { at + 1 } else { at }
}

// The place behind the number that may follow a word, with its separator.
fn count_end(text: &[u8], at: usize) -> usize
    ensures { result ≡ past count_len text.now at }
{
    number_end(text, separator_end(text, at))
}

// The place behind the first of the words that stands at a place, its case ignored.
#[tactic(auto, using(crate::proofs::Parts::part))]
fn word_end(text: &[u8], at: usize, words: &[&[u8]]) -> usize
    ensures { result ≡ past (word_len (map (λ w. w.now) words.now)) text.now at }
{
    for word in words {
        if word_like(text, at, word, |b, letter| is_letter_of(b, letter)) {
            return at + word.len();
        }
    }
    at
}

// The place behind the part that may stand at a place: one of some words, with a separator and a number.
#[tactic(auto, using(crate::proofs::Parts::part))]
fn part_end(text: &[u8], at: usize, words: &[&[u8]]) -> usize
    requires { IsTrue (all_lettered (map (λ w. w.now) words.now)) }
    ensures { result ≡ past (part_len (map (λ w. w.now) words.now)) text.now at }
{
    let from = separator_end(text, at);
    // No word is there where no letter is: most versions have no such part, and are through with it here.
    if !is_letter(byte_at(text, from)) {
        return at;
    }
    let word = word_end(text, from, words);
    if from < word {
        count_end(text, word)
    } else {
        at
    }
}

#[tactic(auto, using(crate::proofs::Parts::part))]
pub fn pre_end(text: &[u8], at: usize) -> usize
    ensures { result ≡ past pre_len text.now at }
{
    part_end(text, at, &PRE_WORDS)
}

// A post part may be a `-` and a number alone.
#[tactic(auto, using(crate::proofs::Parts::part))]
pub fn post_end(text: &[u8], at: usize) -> usize
    ensures { result ≡ past post_len text.now at }
{
    if has(text, at, b'-') {
        let end = number_end(text, at + 1);
        if at + 1 < end {
            return end;
        }
    }
    part_end(text, at, &POST_WORDS)
}

#[tactic(auto, using(crate::proofs::Parts::part))]
pub fn dev_end(text: &[u8], at: usize) -> usize
    ensures { result ≡ past dev_len text.now at }
{
    part_end(text, at, &DEV_WORDS)
}
