// How far a part of a marker was read.
use cursor::Cursor;

// Where a part ended and whether anything of it was kept. A function that reads or joins parts answers this or the first fault; the sheet that it was lent
// holds the rest, and anything after a refusal.
#[derive(Clone, Copy, Debug, PartialEq, Eq)]
pub struct Part {
    pub next: Cursor,
    pub some: bool,
}
