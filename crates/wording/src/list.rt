// Items in a row.
ghost use Rattle.std.specs.Prelude.{ℕ, ◌<◌};

use output::Output;

// So many items, with a byte between each two.
pub fn put_list<F: Fn(&mut Output, usize)>(out: &mut Output, joint: u8, count: usize, item: F)
    requires { (to : _) (i : ℕ) → i < count → F.pre item to i }
{
    for i in 0..count {
        if 0 < i {
            out.put(joint);
        }
        item(out, i);
    }
}
