// The stack rules: one pass over the program, with the height of the stack and no stack.
ghost use Rattle.std.specs.Prelude.{◌≡◌};
ghost use Rattle.refusal.specs.Refusal.{told};
ghost use Rattle.program_check.specs.Check.{checked_words, checked_program};
ghost use Rattle.program_check.specs.Rules.{allowed};
ghost use Rattle.program_check.specs.inner.Heights.{next_height, height_at_end};

use crate::word::Word;
use cursor::Cursor;
use refusal::{Fault, Refusal};

// Words of a program.
pub const MAX_WORDS: usize = 127;

// Values that stand at one time.
pub const MAX_SLOTS: usize = 35;

// Whether a word may come where so many values stand.
fn may_come(word: Word, count: usize, height: usize) -> bool
    ensures { result ≡ allowed count height word }
{
    match word {
        Word::Push(k) => (k.0 as usize) < count && height < MAX_SLOTS,
        Word::And | Word::Or => 2 <= height,
        Word::Yes => height < MAX_SLOTS,
        Word::Unknown => false,
    }
}

// How many values stand after the word at a place, if it is not at fault.
fn height_after(word: Word, at: usize, count: usize, height: usize) -> Option<usize>
    ensures { result ≡ next_height word at count height }
{
    if at < MAX_WORDS && may_come(word, count, height) {
        Some(if word.is_operator() {
            height - 1
        } else {
            height + 1
        })
    } else {
        None
    }
}

// How many values stand at the end, or 30 at the first word at fault.
fn walk(program: &[u8], count: usize) -> Result<usize, Refusal>
    ensures { told result ≡ height_at_end program.now count }
{
    let mut height = 0;
    for (at, byte) in program.iter().enumerate() {
        let Some(after) = height_after(Word::from(*byte), at, count, height) else {
            return Err(Refusal::new(Fault::ProgramBad, at, 1));
        };
        height = after;
    }
    Ok(height)
}

fn check_words(program: &[u8], count: usize) -> Result<(), Refusal>
    ensures { told result ≡ checked_words program.now count }
{
    if walk(program, count)? == 1 {
        return Ok(());
    }
    Err(Refusal::new(Fault::ProgramBad, program.len(), 1))
}

pub fn check(program: &[u8], count: usize) -> Result<(), Refusal>
    ensures { told result ≡ checked_program program.now count }
{
    if Cursor::MAX_COMPARISONS < count {
        return Err(Refusal::new(Fault::CountOver, 0, 1));
    }
    check_words(program, count)
}
