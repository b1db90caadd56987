// An answer as numbers: how many figures each function of `gateway` leaves, where each of them stands, by name, and how a refusal is told.
// bindings/c/hulmisker.h has the same numbers, and bindings/rust/tests/header.rs holds it to them.
#![tactic(auto)]

mod answer;

pub use answer::tell;

// The first two of every function: where the refused span starts, and its length.
pub const START: usize = 0;

pub const LENGTH: usize = 1;

// The third of a function that leaves one number more: the number of extras, the length of a normal form, a run's answer.
pub const COUNT: usize = 2;

// A marker's: how many comparisons, warnings and words.
pub const MARKER_COMPARISONS: usize = 2;

pub const MARKER_WARNINGS: usize = 3;

pub const MARKER_WORDS: usize = 4;

// A line's: the name, whether there is a URL and where, how many items each list has.
pub const LINE_NAME_START: usize = 2;

pub const LINE_NAME_LENGTH: usize = 3;

pub const LINE_HAS_URL: usize = 4;

pub const LINE_URL_START: usize = 5;

pub const LINE_URL_LENGTH: usize = 6;

pub const LINE_EXTRAS: usize = 7;

pub const LINE_SPECIFIERS: usize = 8;

pub const LINE_COMPARISONS: usize = 9;

pub const LINE_WARNINGS: usize = 10;

pub const LINE_WORDS: usize = 11;

// How many there are: of a text that is good or refused, of one number more, of a marker, of a line.
pub const PLACE_FIGURES: usize = 2;

pub const COUNT_FIGURES: usize = 3;

pub const MARKER_FIGURES: usize = 5;

pub const LINE_FIGURES: usize = 12;

pub type PlaceFigures = [usize; PLACE_FIGURES];

pub type CountFigures = [usize; COUNT_FIGURES];

pub type MarkerFigures = [usize; MARKER_FIGURES];

pub type LineFigures = [usize; LINE_FIGURES];
