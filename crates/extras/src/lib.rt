// The extras entry: the extras alone, by two doors.
#![tactic(auto)]

mod entry;

pub use entry::{Extras, extras_into, read_extras};
