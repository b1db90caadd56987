// A version, a pattern or a specifier alone: refusals 1, 2, then 14 over all of the text.
ghost use Rattle.std.specs.Prelude.{◌≡◌, Bool, List, ℕ};
ghost use Rattle.std.specs.Borrow.{Bor};
ghost use Rattle.refusal.specs.Refusal.{told};
ghost use Rattle.version.specs.Rules.{is_version, is_pattern, is_specifier};
ghost use Rattle.version_entry.specs.Entry.{text_answer};

use cursor::check_line;
use refusal::{Fault, Refusal};
use version::{is_pattern, is_specifier, is_version};

// What an entry answers whose texts are those that pass a test.
#[tactic(auto, using(crate::proofs::Entries::entries))]
fn judged<F: Fn(&[u8]) -> bool>(text: &[u8], passes: F) -> Result<(), Refusal>
    requires { F.IsAlwaysCallable passes }
    ensures { (p : List ℕ → Bool) → ((t : Bor (List ℕ)) → (r : Bool) → F.post passes t r → r ≡ p t.now)
        → told result ≡ text_answer (p text.now) text.now }
{
    check_line(text)?;
    if passes(text) {
        Ok(())
    } else {
        Err(Refusal::new(Fault::VersionBad, 0, text.len()))
    }
}

pub fn version(text: &[u8]) -> Result<(), Refusal>
    ensures { told result ≡ text_answer (is_version text.now) text.now }
{
    judged(text, |t| is_version(t))
}

pub fn pattern(text: &[u8]) -> Result<(), Refusal>
    ensures { told result ≡ text_answer (is_pattern text.now) text.now }
{
    judged(text, |t| is_pattern(t))
}

pub fn specifier(text: &[u8]) -> Result<(), Refusal>
    ensures { told result ≡ text_answer (is_specifier text.now) text.now }
{
    judged(text, |t| is_specifier(t))
}
