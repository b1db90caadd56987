// The single spans of a line, and the counts of its lists.
ghost use Rattle.std.specs.Prelude.{◌≡◌};
ghost use Rattle.line.specs.Line.{url_of};
ghost use Rattle.line.specs.inner.Together.{head_figures};

use line_head::{Head, Wanted, text_count};
use marker_store::Counts;
use refusal::Span;

#[derive(Clone, Copy, Debug, PartialEq, Eq, Default)]
pub struct Figures {
    pub name: Span,
    pub extras: usize,
    pub specifiers: usize,
    pub url: Option<Span>,
    pub marker: Counts,
}

// A function here and no method: `Wanted` is another crate's, and docs/PROMISES.md names this.
pub fn url_of(wanted: Wanted) -> Option<Span>
    ensures { result ≡ url_of wanted }
{
    match wanted {
        Wanted::Specifiers(_) => None,
        Wanted::Url(at) => Some(at),
    }
}

pub fn figures_of(head: Head, marker: Counts) -> Figures
    ensures { result ≡ head_figures head marker }
{
    Figures {
        name: head.name,
        extras: head.extras,
        specifiers: text_count(head.wanted),
        url: url_of(head.wanted),
        marker,
    }
}
