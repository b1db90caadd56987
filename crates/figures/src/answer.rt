// An answer told in figures.
ghost use Rattle.std.specs.Prelude.{◌≡◌, ◌≤◌, ◌++◌, drop};
ghost use Rattle.refusal.specs.Refusal.{told};
ghost use Rattle.figures.specs.Numbers.{number_of, place_of};

use crate::{LENGTH, START};
use refusal::Refusal;

// The number of a refusal, or 0. Its start and length become the first two figures, or 0 and 0; the others stay.
#[tactic(auto, unfolding(refusal::specs::Refusal::given))]
pub fn tell<A, const N: usize>(answer: &Result<A, Refusal>, figures: &mut [usize; N]) -> u8
    requires { 2 ≤ N }
    ensures number { result ≡ number_of (told answer.now) }
    ensures figures { figures.new ≡ place_of (told answer.now) ++ drop 2 figures.old }
{
    match answer {
        Ok(_) => {
            figures[START] = 0;
            figures[LENGTH] = 0;
            0
        }
        Err(why) => {
            figures[START] = why.span.start.0;
            figures[LENGTH] = why.span.len;
            why.fault.number()
        }
    }
}
