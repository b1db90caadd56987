// Items joined by a byte.
ghost use Rattle.std.specs.Prelude.{◌≡◌, ℕ, Bool, List, false};
ghost use Rattle.version_number.specs.Place.{past};
ghost use Rattle.version_parts.specs.Joined.{more};

// The place behind the further items, each behind a byte that joins.
#[tactic(auto, using(crate::proofs::Joins::joint))]
pub(crate) fn items_end<J: Fn(u8) -> bool, I: Fn(usize) -> usize>(
    text: &[u8],
    first: usize,
    joins: J,
    item_end: I,
) -> usize
    requires joins { J.IsAlwaysCallable joins }
    requires item { I.IsAlwaysCallable item_end }
    ensures { (p : ℕ → Bool) → (len : List ℕ → ℕ) → p 0 ≡ false
        → ((b : ℕ) → (r : Bool) → J.post joins b r → r ≡ p b)
        → ((at : ℕ) → (r : ℕ) → I.post item_end at r → r ≡ past len text.now at)
        → result ≡ past (more p len) text.now first }
{
    let mut at = first;
    while at < text.len() && joins(text[at]) {
        let next = item_end(at + 1);
        if next <= at + 1 {
            return at;
        }
        at = next;
    }
    at
}
