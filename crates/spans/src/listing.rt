// A list of spans read item by item.
ghost use Rattle.std.specs.Prelude.{◌≡◌, ℕ, Bool, true, false, Result, Ok};
ghost use Rattle.cursor.specs.Limits.{max_list};
ghost use Rattle.cursor.specs.Cursor.{told_at};
ghost use Rattle.cursor.specs.declared.cursor.Cursor.{Cursor};
ghost use Rattle.refusal.specs.declared.fault.Refusal.{Refusal};
ghost use Rattle.spans.specs.Listing.{list_from, read_onto, counted};
ghost use Rattle.spans.specs.declared.item.Item.{Item};
ghost use Rattle.spans.specs.declared.item.Item.TheVariants.{One};

use crate::item::Item;
use crate::store::{SpanNumbers, put};
use cursor::Cursor;
use refusal::{Fault, Refusal};

// The items from a place on, of which the first is fresh: as many spans as fit go to the array, and one more is refused as `many`.
pub fn read_list<F: Fn(bool, usize) -> Result<Item, Refusal>>(
    many: Fault,
    list: &mut SpanNumbers,
    from: usize,
    item: F,
) -> Result<(usize, Cursor), Refusal>
    requires first { F.pre item true from }
    requires later { (fresh : _) (at : ℕ) (x : _) (next : _) → F.pre item fresh at
        → F.post item fresh at (Ok (One x next)) → F.pre item false next.at }
    ensures answer { (read : Bool → ℕ → Result Item Refusal)
        → ((fresh : Bool) (at : ℕ) (r : _) → F.post item fresh at r → r ≡ read fresh at)
        → told_at result ≡ counted (list_from many read max_list true from) }
    ensures written { (read : Bool → ℕ → Result Item Refusal)
        → ((fresh : Bool) (at : ℕ) (r : _) → F.post item fresh at r → r ≡ read fresh at)
        → list.new ≡ read_onto (list_from many read max_list true from) list.old }
{
    let mut at = from;
    for n in 0..Cursor::MAX_LIST {
        match item(n == 0, at)? {
            Item::One(span, next) => {
                put(list, n, span);
                at = next.at;
            }
            Item::End(next) => return Ok((n, next)),
        }
    }
    match item(false, at)? {
        Item::One(span, _) => Err(Refusal { fault: many, span }),
        Item::End(next) => Ok((Cursor::MAX_LIST, next)),
    }
}
