// The normal form of a name.
#![tactic(auto)]

ghost use Rattle.std.specs.Prelude.{◌≡◌, ◌≤◌, ◌<◌, length, drop};
ghost use Rattle.arrays.specs.Front.{onto};
ghost use Rattle.name.specs.Normal.{form, merges, normal, bad_at};
ghost use Rattle.name.specs.Normalise.{normalised, output};
ghost use Rattle.refusal.specs.Refusal.{told};

use cursor::Cursor;
use refusal::{Fault, Refusal};

// A byte as the normal form has it.
fn formed(b: u8) -> u8
    ensures { result ≡ form b }
{
    if text::is_separator(b) {
        b'-'
    } else {
        text::small_of(b)
    }
}

// The first bad byte's place, or the length of a name that can be normalised.
// The length stands for none, and no Option, since the definition `bad_at` of specs/ says so.
#[tactic(auto, using(crate::proofs::Laws::normals))]
pub fn bad_at(name: &[u8]) -> usize
    ensures { result ≡ bad_at name.now }
{
    if text::separator_at(name, 0) {
        return 0;
    }
    let end = Cursor::start().take_name(name).at;
    if end < name.len() {
        return end;
    }
    if text::separator_before(name, end) {
        return end - 1;
    }
    end
}

// Whether the byte at a place merges with the next: a separator before another.
fn merges_at(name: &[u8], i: usize) -> bool
    requires { i < length name.now }
    ensures { result ≡ merges (drop i name.now) }
{
    text::separator_at(name, i) && text::separator_at(name, i + 1)
}

// How long the normal form is: known before the first byte is written, so that a refusal writes none.
#[tactic(auto, using(crate::proofs::Laws::normals))]
fn measure(name: &[u8]) -> usize
    ensures { result ≡ length (normal name.now) }
{
    let mut n: usize = 0;
    for i in 0..name.len() {
        if !merges_at(name, i) {
            n += 1;
        }
    }
    n
}

// Writes the normal form at the output's front.
#[tactic(auto, using(crate::proofs::Laws::normals))]
fn write(name: &[u8], out: &mut [u8])
    requires { length (normal name.now) ≤ length out.old }
    ensures { out.new ≡ onto (normal name.now) out.old }
{
    let mut n: usize = 0;
    for i in 0..name.len() {
        if !merges_at(name, i) {
            out[n] = formed(name[i]);
            n += 1;
        }
    }
}

// How many bytes of the normal form stand at the output's front; on a refusal the output is as it was.
#[tactic(auto, using(crate::proofs::Laws::normals))]
pub fn normalise(name: &[u8], out: &mut [u8]) -> Result<usize, Refusal>
    ensures answer { told result ≡ normalised name.now (length out.old) }
    ensures written { out.new ≡ output name.now out.old }
{
    let bad = bad_at(name);
    if bad < name.len() {
        return Err(Refusal::new(Fault::NameBad, bad, 1));
    }
    let n = measure(name);
    if out.len() < n {
        return Err(Refusal::new(Fault::OutputShort, 0, 1));
    }
    write(name, out);
    Ok(n)
}
