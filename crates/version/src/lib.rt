// PEP 440: what a version, a pattern and a specifier are. One reading finds where each part stands; every question is asked of that.
#![tactic(auto)]

mod layout;
mod list;
mod rules;

pub use layout::{Layout, read_layout};
pub use list::is_version_list;
pub use rules::{goes_with, is_pattern, is_specifier, is_version};
pub use version_operator::Operator;
