// What a comparison comes to, from its two values and its operator, and one comparison at a place.
#![tactic(auto)]

mod found;
mod verdict;

pub use found::{Found, find};
pub use verdict::Verdict;
