// The widths, places and rooms of the arrays, each once. They are flat arrays of numbers because C lends them so.
use cursor::Cursor;
use program_check::MAX_WORDS;

// A comparison is five numbers: the code of its sort, of its key and of its operator, where its literal starts and how long that is.
pub const COMPARISON_NUMBERS: usize = 5;

pub const SORT: usize = 0;

pub const KEY: usize = 1;

pub const OPERATOR: usize = 2;

pub const LITERAL_START: usize = 3;

pub const LITERAL_LENGTH: usize = 4;

// A warning is three: its kind, where its span starts and how long that is.
pub const WARNING_NUMBERS: usize = 3;

pub const KIND: usize = 0;

pub const SPAN_START: usize = 1;

pub const SPAN_LENGTH: usize = 2;

pub const COMPARISONS_ROOM: usize = COMPARISON_NUMBERS * Cursor::MAX_COMPARISONS;

pub const WARNINGS_ROOM: usize = WARNING_NUMBERS * Cursor::MAX_COMPARISONS;

pub type Comparisons = [usize; COMPARISONS_ROOM];

pub type Warnings = [usize; WARNINGS_ROOM];

// A word for each comparison, and one less to join them.
pub type Words = [u8; MAX_WORDS];
