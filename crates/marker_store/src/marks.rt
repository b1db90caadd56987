// What is read of a marker besides its comparisons: its warnings, and how many there are of each.
use refusal::Span;

// What a marker warns of, and where. The kind is document 01's number, 1 to 5; it is a number and no `WarningKind`, since `load_warning` gives whatever
// number an array has there, and the filler of `marker_typed` has kind 0.
#[derive(Clone, Copy, Debug, PartialEq, Eq)]
pub struct Warning {
    pub kind: usize,
    pub span: Span,
}

// How many comparisons were kept, how many warnings were given, how many words the program has.
#[derive(Clone, Copy, Debug, PartialEq, Eq, Default)]
pub struct Counts {
    pub kept: usize,
    pub warned: usize,
    pub words: usize,
}
