// How what is read of a marker stands in arrays of numbers: the widths, the places and the rooms by name, one store and one load of a comparison and of a warning, and the sheet that holds all that was read.
#![tactic(auto)]

mod load;
mod marks;
mod room;
mod sheet;
mod store;

pub use load::{load_comparison, load_warning};
pub use marks::{Counts, Warning};
pub use room::{
    COMPARISON_NUMBERS, COMPARISONS_ROOM, Comparisons, KEY, KIND, LITERAL_LENGTH, LITERAL_START,
    OPERATOR, SORT, SPAN_LENGTH, SPAN_START, WARNING_NUMBERS, WARNINGS_ROOM, Warnings, Words,
};
pub use sheet::Sheet;
pub use store::{store_comparison, store_warning};
