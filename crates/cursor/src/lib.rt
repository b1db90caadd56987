// The cursor with its moves and limits, and the check that comes before every reading.
#![tactic(auto)]

mod check;
mod cursor;

pub use check::check_line;
pub use cursor::Cursor;
