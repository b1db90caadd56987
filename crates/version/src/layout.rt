// Where the parts of a version stand, found in one pass.
ghost use Rattle.std.specs.Prelude.{◌≡◌};
ghost use Rattle.version.specs.Layout.{layout};

use cursor::Cursor;
use version_number::number_end;
use version_parts::{dev_end, epoch_end, local_end, post_end, pre_end, release_end, v_end};

// The place behind each part, in the order of the parts; a part that is not there ends where the one before it does.
#[derive(Clone, Copy, Debug, PartialEq, Eq)]
pub struct Layout {
    // White space and `v`.
    pub start: usize,
    pub epoch: usize,
    // The first release number, and all of them.
    pub first: usize,
    pub release: usize,
    pub pre: usize,
    pub post: usize,
    pub dev: usize,
    pub local: usize,
}

#[tactic(auto, using(crate::proofs::Specifiers::asked))]
pub fn read_layout(text: &[u8]) -> Layout
    ensures { result ≡ layout text.now }
{
    let start = v_end(text, Cursor::start().skip_whitespace(text).at);
    let epoch = epoch_end(text, start);
    let first = number_end(text, epoch);
    let release = release_end(text, first);
    let pre = pre_end(text, release);
    let post = post_end(text, pre);
    let dev = dev_end(text, post);
    let local = local_end(text, dev);
    Layout {
        start,
        epoch,
        first,
        release,
        pre,
        post,
        dev,
        local,
    }
}
