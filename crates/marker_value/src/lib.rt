// The two values of a marker's comparison and the operator between them, as they are read.
#![tactic(auto)]

mod operator;
mod table;
mod value;

pub use operator::operator_at;
pub use value::{Value, value_at};
