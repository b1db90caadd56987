// The line reader's quick door: a whole requirement line as numbers in lent arrays. The typed door is `line_typed`'s.
#![tactic(auto)]

mod figures;
mod quick;

pub use figures::{Figures, url_of};
pub use quick::read_line_into;
