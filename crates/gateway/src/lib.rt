// The boundary: each entry as a function over numbers and byte slices. What is returned is 0, or document 01's number of the refusal; the
// first two figures are the refusal's start and length, and 0, 0 where there is none. `gateway_c` gives these functions to C.
#![tactic(auto)]

mod programs;
mod requirements;
mod texts;

pub use programs::{hulmisker_check, hulmisker_run};
pub use requirements::{hulmisker_extras, hulmisker_line, hulmisker_marker};
pub use texts::{hulmisker_normalise, hulmisker_pattern, hulmisker_specifier, hulmisker_version};
