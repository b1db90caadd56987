// The specifiers of a requirement, at a place of a line.
#![tactic(auto)]

mod specifier;
mod specifiers;

pub use specifiers::specifiers_at;
