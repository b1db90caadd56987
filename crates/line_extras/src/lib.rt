// The extras at a place of a line.
#![tactic(auto)]

mod extra;
mod extras;

pub use extras::extras_at;
