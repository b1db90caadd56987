// Marker programs: their words, and the stack rules that a program is checked by.
#![tactic(auto)]

mod rules;
mod word;

pub use rules::{MAX_SLOTS, MAX_WORDS, check};
pub use word::Word;
