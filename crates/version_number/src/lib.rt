// PEP 440: a number of a version, its value and its bound.
#![tactic(auto)]

mod number;

pub use number::{LARGEST, digit_value, number_end, overflows};
