// Places, refusals and their numbers: what every answer is told in.
#![tactic(auto)]

mod fault;
mod place;

pub use fault::{Fault, NoFault, Refusal};
pub use place::{ComparisonNumber, Offset, Span};
