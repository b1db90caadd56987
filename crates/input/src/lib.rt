// The lines of what is read, one by one. Bytes are fetched many at a time into an array that the caller lends.
#![tactic(auto)]

ghost use Rattle.std.specs.Prelude.{ℕ, List, Option, IfSome, min, ◌≡◌, ◌<◌, ◌≤◌, ◌++◌, ◌∷◌, [], length, take, drop, slice_set};
ghost use Rattle.std.specs.Io.KnownBytes.{Consumes};
ghost use Rattle.input.specs.Coming.{coming, mark, IsLine, IsTrueEnd, IsNext};

use std::io;
use std::io::Read;

pub const ROOM: usize = 65536;

// As much of a line as is held: more than any reader here takes.
pub const HELD: usize = 20001;

// Which bytes of the lent array are still to be taken. The array stays beside it, since `take_line` promises something of each.
#[derive(Clone, Copy, Debug, PartialEq, Eq)]
pub struct Feed {
    pub at: usize,
    pub end: usize,
}

// By which of three a line ended.
// Three ways, and no Result: `take_line` promises which it was, and its callers ask for the three.
#[derive(Clone, Copy, Debug)]
pub enum Ended {
    ByLineFeed,
    ByEnd,
    ByFault(io::Error),
}

// The length is the line's own, without its LF; the last byte is 0 if it is empty.
#[derive(Clone, Copy, Debug)]
pub struct Line {
    pub feed: Feed,
    pub len: usize,
    pub held: usize,
    // 0 and no None where the line is empty: the definition `IsLine` says so.
    pub last: u8,
    pub ended: Ended,
}

impl Feed {
    // Nothing is fetched yet.
    // (No Default: docs/PROMISES.md names this function, and an edit turns it.)
    pub fn empty() -> Feed
        ensures { result ≡ record { at = 0; end = 0 } }
    {
        Feed { at: 0, end: 0 }
    }
}

// A read that answers nothing is the end.
fn fetch<R: Read>(from: &mut R, buf: &mut [u8; ROOM]) -> io::Result<Option<(u8, Feed)>>
    ensures { IsNext result (R.remaining from.old) (record { at = 0; end = 0 }) buf.new (R.remaining from.new) }
{
    let end = from.read(buf)?;
    if end == 0 {
        return Ok(None);
    }
    Ok(Some((buf[0], Feed { at: 1, end })))
}

fn next_byte<R: Read>(
    from: &mut R,
    buf: &mut [u8; ROOM],
    feed: Feed,
) -> io::Result<Option<(u8, Feed)>>
    ensures { IsNext result (coming feed buf.old (R.remaining from.old)) feed buf.new (R.remaining from.new) }
{
    if feed.at < feed.end && feed.at < ROOM {
        let after = Feed {
            at: feed.at + 1,
            ..feed
        };
        return Ok(Some((buf[feed.at], after)));
    }
    fetch(from, buf)
}

// A byte that is fetched already: the way of all but a few, kept apart since a `Result` of an error takes longer to hand on than a byte to take. None promises
// nothing: `next_byte` is asked then.
fn fetched_byte(buf: &[u8; ROOM], feed: Feed) -> Option<(u8, Feed)>
    ensures { IfSome result (λ next. (left : Option (List ℕ))
        → Consumes (coming feed buf.now left) (coming next.1 buf.now left) (next.0 ∷ [])) }
{
    if feed.at < feed.end && feed.at < ROOM {
        let after = Feed {
            at: feed.at + 1,
            ..feed
        };
        return Some((buf[feed.at], after));
    }
    None
}

// (By an `if`: with `get_mut` the proof did not close.)
fn hold(line: &mut [u8; HELD], at: usize, byte: u8)
    ensures { line.new ≡ slice_set line.old at byte }
{
    if at < HELD {
        line[at] = byte;
    }
}

fn line_of(feed: Feed, len: usize, last: u8, ended: Ended) -> Line
    ensures { result ≡ record { feed = feed; len = len; held = min len 20001; last = last; ended = ended } }
{
    Line {
        feed,
        len,
        held: len.min(HELD),
        last,
        ended,
    }
}

// The next line: its front is held in the lent array. A loop that is proved must end, so it counts, up to a length that no line has.
pub fn take_line<R: Read>(
    from: &mut R,
    buf: &mut [u8; ROOM],
    feed: Feed,
    line: &mut [u8; HELD],
) -> Line
    ensures held { result.held ≡ min result.len 20001 }
    ensures line { (text : List ℕ) × IsLine result.len result.held result.last line.new text
        × Consumes (coming feed buf.old (R.remaining from.old)) (coming result.feed buf.new (R.remaining from.new))
        (text ++ mark result.ended) }
    ensures end { IsTrueEnd result.ended result.len (coming result.feed buf.new (R.remaining from.new)) }
{
    let mut rest = feed;
    let mut last = 0;
    for len in 0..usize::MAX {
        let (byte, after) = match fetched_byte(buf, rest) {
            Some(next) => next,
            None => match next_byte(from, buf, rest) {
                Ok(Some(next)) => next,
                Ok(None) => return line_of(rest, len, last, Ended::ByEnd),
                Err(why) => return line_of(rest, len, last, Ended::ByFault(why)),
            },
        };
        if byte == b'\n' {
            return line_of(after, len, last, Ended::ByLineFeed);
        }
        hold(line, len, byte);
        last = byte;
        rest = after;
    }
    line_of(rest, usize::MAX, last, Ended::ByEnd)
}

// Reads until the array is full, the input ends or a read fails, and says how many bytes stand at the front then.
pub fn read_full<R: Read>(from: &mut R, buf: &mut [u8]) -> usize
    ensures within { result ≤ length buf.new }
    ensures bytes { Consumes (R.remaining from.old) (R.remaining from.new) (take result buf.new) }
{
    let mut done: usize = 0;
    while done < buf.len() {
        match from.read(&mut buf[done..]) {
            Ok(0) | Err(_) => return done,
            Ok(n) => done += n,
        }
    }
    done
}
