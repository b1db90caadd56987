// The parts of a line before its marker: name, extras, URL or specifiers, and whether a marker follows.
#![tactic(auto)]

mod head;
mod part;

pub use head::head_of;
pub use part::{Head, Wanted, text_count};
