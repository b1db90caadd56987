// The steps of the marker reader that are no part of its cycle, and the grammar that they follow.
#![tactic(auto)]

mod part;
mod step;

pub use part::Part;
pub use step::{ahead_and, ahead_or, close, finish, join, take_in};
