// Refusals 1 and 2, which the line, extras and marker entries, and those of versions, make before any other.
ghost use Rattle.std.specs.Prelude.{◌≡◌};
ghost use Rattle.text.specs.Class.{is_ascii};
ghost use Rattle.text.specs.Scan.{run};
ghost use Rattle.cursor.specs.Check.{checked};
ghost use Rattle.refusal.specs.Answer.{passes};
ghost use Rattle.refusal.specs.Refusal.{told};

use crate::cursor::Cursor;
use refusal::{Fault, Refusal};

// How many bytes below 128 stand in front: nearly always all, which is asked of eight bytes at a time. Out of line, so that `check_line` is small enough to be
// taken into each entry.
#[inline(never)]
#[tactic(auto, using(crate::proofs::Laws::scan, crate::proofs::Runs::ascii_whole))]
fn ascii_run(line: &[u8]) -> usize
    ensures { result ≡ run is_ascii line.now }
{
    if line.is_ascii() {
        line.len()
    } else {
        Cursor::start().take_ascii(line).at
    }
}

pub fn check_line(line: &[u8]) -> Result<(), Refusal>
    ensures { told result ≡ checked line.now passes }
{
    if Cursor::MAX_LINE < line.len() {
        return Err(Refusal::new(Fault::TooLong, Cursor::MAX_LINE, 1));
    }
    let end = ascii_run(line);
    if end < line.len() {
        return Err(Refusal::new(Fault::NotAscii, end, 1));
    }
    Ok(())
}
