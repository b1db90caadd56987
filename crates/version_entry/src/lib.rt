// A version, a pattern or a specifier alone.
#![tactic(auto)]

mod entry;

pub use entry::{pattern, specifier, version};
