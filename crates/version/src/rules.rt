// What may be asked of a text.
ghost use Rattle.std.specs.Prelude.{◌≡◌};
ghost use Rattle.version.specs.Layout.{ends_at, is_version_at, is_starred_at};
ghost use Rattle.version.specs.Rules.{is_version, is_pattern, suits, goes_with, is_specifier};

use crate::layout::{Layout, read_layout};
use cursor::Cursor;
use text::word_at;
use version_operator::{Operator, operator_in, takes_of};

// Whether only white space follows a place.
#[tactic(auto, using(crate::proofs::Specifiers::asked))]
fn ends_at(text: &[u8], at: usize) -> bool
    ensures { result ≡ ends_at text.now at }
{
    Cursor { at }.skip_whitespace(text).at == text.len()
}

#[tactic(auto, using(crate::proofs::Specifiers::asked))]
fn version_at(l: Layout, text: &[u8]) -> bool
    ensures { result ≡ is_version_at l text.now }
{
    l.epoch < l.first && ends_at(text, l.local)
}

#[tactic(auto, using(crate::proofs::Specifiers::asked))]
fn starred_at(l: Layout, text: &[u8]) -> bool
    ensures { result ≡ is_starred_at l text.now }
{
    l.epoch < l.first && word_at(text, l.release, b".*") && ends_at(text, l.release + 2)
}

#[tactic(auto, using(crate::proofs::Specifiers::asked))]
fn suits_op(op: Operator, l: Layout) -> bool
    ensures { result ≡ suits op l }
{
    let takes = takes_of(op);
    (takes.local || l.local <= l.dev) && (l.first < l.release || !takes.two)
}

#[tactic(auto, unfolding(crate::specs::Rules::is_version))]
pub fn is_version(text: &[u8]) -> bool
    ensures { result ≡ is_version text.now }
{
    version_at(read_layout(text), text)
}

#[tactic(auto, unfolding(crate::specs::Rules::is_pattern))]
pub fn is_pattern(text: &[u8]) -> bool
    ensures { result ≡ is_pattern text.now }
{
    let l = read_layout(text);
    version_at(l, text) || starred_at(l, text)
}

// Whether a text is a version or pattern that may go with an operator.
#[tactic(auto, unfolding(crate::specs::Rules::goes_with))]
pub fn goes_with(op: Operator, text: &[u8]) -> bool
    ensures { result ≡ goes_with op text.now }
{
    let l = read_layout(text);
    version_at(l, text) && suits_op(op, l) || starred_at(l, text) && takes_of(op).star
}

#[tactic(auto, using(crate::proofs::Specifiers::asked))]
pub fn is_specifier(text: &[u8]) -> bool
    ensures { result ≡ is_specifier text.now }
{
    let from = Cursor::start().skip_whitespace(text);
    let to = from.take_operator(text);
    let rest = &text[to.at..];
    operator_in(text, from.span_to(to)).is_some_and(|op| goes_with(op, rest))
}
