// Places in a line, and numbers in a program: two types, so that one cannot be taken for the other.

// A place in the line, in bytes from its start.
#[derive(Clone, Copy, Debug, PartialEq, Eq, Default)]
pub struct Offset(pub usize);

// A comparison's number in a program.
#[derive(Clone, Copy, Debug, PartialEq, Eq)]
pub struct ComparisonNumber(pub u8);

#[derive(Clone, Copy, Debug, PartialEq, Eq, Default)]
pub struct Span {
    pub start: Offset,
    pub len: usize,
}
