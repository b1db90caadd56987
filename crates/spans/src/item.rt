// What a reader of a list meets.
use cursor::Cursor;
use refusal::Span;

// A span or the end, and no Option: each has a cursor of its own.
#[derive(Clone, Copy, Debug, PartialEq, Eq)]
pub enum Item {
    // A span of the list, and where its next item is read.
    One(Span, Cursor),
    // The list's end, and where reading goes on.
    End(Cursor),
}
