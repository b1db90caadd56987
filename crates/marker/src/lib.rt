// The marker reader's quick door: what the cycle reads of a lent line, as numbers in arrays that the caller lends. The typed door is `marker_typed`'s.
#![tactic(auto)]

mod quick;

pub use quick::{read_quick, read_quick_from};
