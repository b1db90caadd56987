// The front of one array copied over the front of another, whose rest stays.
#![tactic(auto)]

ghost use Rattle.std.specs.Prelude.{◌≡◌, ◌≤◌, length, take};
ghost use Rattle.arrays.specs.Front.{onto};

// The first n elements of one array over the front of another.
#[tactic(auto, using(crate::proofs::Front::onto_part))]
pub fn copy_front<T: Copy>(from: &[T], n: usize, to: &mut [T])
    requires { (n ≤ length from.now) × (n ≤ length to.old) }
    ensures { to.new ≡ onto (take n from.now) to.old }
{
    to[..n].copy_from_slice(&from[..n]);
}
