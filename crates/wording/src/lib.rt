// What was read, as a row of text in the probe's notation: a refusal, spans, and the lists of a marker.
#![tactic(auto)]

mod list;
mod rows;

pub use rows::{Parts, put_marker, put_operator, put_parts, put_refused, put_spans};
