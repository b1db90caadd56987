// Running a program: the check, then one pass over the words with 35 slots.
ghost use Rattle.std.specs.Prelude.{◌≡◌, ◌≤◌, [], ◌∷◌, ◌++◌, reverse};
ghost use Rattle.arrayvec.specs.ArrayVec.{array_vec_len};
ghost use Rattle.program_check.specs.Rules.{max_slots};
ghost use Rattle.program_check.specs.Tree.{saying, tree_of, value};
ghost use Rattle.program_run.specs.Machine.{Ends, obeyed, stands};
ghost use Rattle.program_run.specs.Run.{bit, ran};
ghost use Rattle.program_run.specs.inner.Obeying.{IsStanding};
ghost use Rattle.refusal.specs.Refusal.{told};

use arrayvec::ArrayVec;
use cursor::Cursor;
use program_check::{MAX_SLOTS, Word, check};
use refusal::{ComparisonNumber, Refusal};

// The values that stand, the latest last.
type Slots = ArrayVec<bool, MAX_SLOTS>;

// The bit of a comparison, and no past the 64.
fn bit_of(assignment: u64, k: ComparisonNumber) -> bool
    ensures { result ≡ bit assignment k.0 }
{
    (k.0 as usize) < Cursor::MAX_COMPARISONS && (assignment >> k.0) % 2 == 1
}

// Takes the two latest values, the older first.
fn take_two(slots: &mut Slots) -> (bool, bool)
    requires { 2 ≤ array_vec_len slots.old }
    ensures { slots.old.items ≡ slots.new.items ++ result.0 ∷ result.1 ∷ [] }
{
    let latest = slots.pop().unwrap();
    let older = slots.pop().unwrap();
    (older, latest)
}

fn obey_word(word: Word, assignment: u64, slots: &mut Slots)
    requires few { array_vec_len slots.old ≤ max_slots }
    requires finds { IsStanding (obeyed (saying (bit assignment)) word (reverse slots.old.items)) }
    ensures few { array_vec_len slots.new ≤ max_slots }
    ensures leaves { obeyed (saying (bit assignment)) word (reverse slots.old.items)
        ≡ stands (reverse slots.new.items) }
{
    match word {
        Word::Push(k) => slots.push(bit_of(assignment, k)),
        Word::And => {
            let (older, latest) = take_two(slots);
            slots.push(older & latest);
        }
        Word::Or => {
            let (older, latest) = take_two(slots);
            slots.push(older | latest);
        }
        Word::Yes => slots.push(true),
        // No program that passed has one.
        Word::Unknown => {}
    }
}

// The one value that stands at the end, of a program that passed.
fn obey(program: &[u8], assignment: u64) -> bool
    requires { Ends (saying (bit assignment)) program.now }
    ensures { result ≡ value (bit assignment) (tree_of program.now) }
{
    let mut slots = Slots::new();
    for byte in program {
        obey_word(Word::from(*byte), assignment, &mut slots);
    }
    slots[0]
}

pub fn run(program: &[u8], count: usize, assignment: u64) -> Result<bool, Refusal>
    ensures { told result ≡ ran program.now count assignment }
{
    check(program, count)?;
    Ok(obey(program, assignment))
}
