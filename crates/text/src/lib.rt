// Bytes of a line: their classes, what stands at a place, and fixed words.
#![tactic(auto)]

mod class;
mod place;
mod word;

pub use class::{
    is_alnum, is_ascii, is_bare_byte, is_capital, is_digit, is_enclosed_byte, is_letter,
    is_name_byte, is_operator_byte, is_operator_word_byte, is_other, is_quote, is_separator,
    is_space, is_token_byte, is_word_byte, small_of,
};
pub use place::{byte_at, has, separator_at, separator_before};
pub use word::{spelled, word_at, word_like};
