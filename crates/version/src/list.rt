// A list of versions between white space.
ghost use Rattle.std.specs.Prelude.{◌≡◌};
ghost use Rattle.version.specs.Rules.{is_version_list};

use crate::rules::is_version;
use text::is_space;

pub fn is_version_list(text: &[u8]) -> bool
    ensures { result ≡ is_version_list text.now }
{
    text.split(|b| is_space(*b))
        .all(|piece| piece.is_empty() || is_version(piece))
}
