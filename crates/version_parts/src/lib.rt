// PEP 440: the parts of a version. Each function says where the part that may stand at a place ends.
#![tactic(auto)]

mod joined;
mod local;
mod part;
mod release;

pub use local::local_end;
pub use part::{dev_end, post_end, pre_end};
pub use release::{epoch_end, release_end, v_end};
