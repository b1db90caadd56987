// What a kept comparison holds, what an ignored one warns of, and the numbers of both.
#![tactic(auto)]

mod code;
mod kind;

pub use code::{NoCode, key_code, key_of, operator_code, operator_of, sort_code, sort_of};
pub use kind::{Comparison, ExtraKind, Key, Operator, Sort, WarningKind};
