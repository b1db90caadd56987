// PEP 440: the operators of a specifier, and what may go with each.
#![tactic(auto)]

mod operator;

pub use operator::{Operator, Takes, operator_in, takes_of};
