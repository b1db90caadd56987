// Lists of at most 32 spans, read into a lent array of numbers: a start and a length for each.
#![tactic(auto)]

mod item;
mod listing;
mod store;

pub use item::Item;
pub use listing::read_list;
pub use store::{LIST_NUMBERS, SPAN_NUMBERS, SpanNumbers, copy, gather, put};
