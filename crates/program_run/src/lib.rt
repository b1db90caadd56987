// The runner of marker programs: the check, then one pass over the words.
#![tactic(auto)]

mod machine;

pub use machine::run;
