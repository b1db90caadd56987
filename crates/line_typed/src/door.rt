// What was read, by value.
ghost use Rattle.std.specs.Prelude.{◌≡◌, ◌≤◌};
ghost use Rattle.line.specs.Line.{unmarked, marked, line_answer};
ghost use Rattle.line_typed.specs.Requirement.{filled};
ghost use Rattle.line_typed.specs.inner.Found.{first_of};
ghost use Rattle.marker_typed.specs.Lists.{lists_of};
ghost use Rattle.refusal.specs.Answer.{on_good};
ghost use Rattle.refusal.specs.Refusal.{told};
ghost use Rattle.cursor.specs.Limits.{max_list};

use cursor::{Cursor, check_line};
use line::url_of;
use line_head::{head_of, text_count};
use marker_typed::{Lists, empty_lists, read_marker_from};
use refusal::{Refusal, Span};
use spans::{LIST_NUMBERS, SpanNumbers};

// Past the count stands the span 0, 0: an array and a count, since nothing here is on a heap.
#[derive(Drop)]
pub struct SpanList {
    pub spans: [Span; Cursor::MAX_LIST],
    pub count: usize,
}

#[derive(Drop)]
pub struct Requirement {
    pub name: Span,
    pub extras: SpanList,
    pub specifiers: SpanList,
    pub url: Option<Span>,
    pub marker: Lists,
}

// The program of a line without a marker is the one word 66.
// `line` has the same by numbers (`unmarked_into`): one writes C's array, and this a list by value.
fn unmarked_lists() -> Lists
    ensures { result ≡ lists_of unmarked }
{
    let mut lists = empty_lists();
    lists.words[0] = 66;
    lists.counts.words = 1;
    lists
}

// The marker that starts at a place, or none.
fn marker_lists(line: &[u8], marker: Option<Cursor>) -> Result<Lists, Refusal>
    ensures { told result ≡ on_good lists_of (marked line.now marker) }
{
    match marker {
        None => Ok(unmarked_lists()),
        Some(from) => read_marker_from(line, from),
    }
}

// The first n spans of an array of numbers.
fn list_of(list: &SpanNumbers, n: usize) -> SpanList
    requires { n ≤ max_list }
    ensures { result ≡ first_of n list.now }
{
    SpanList {
        spans: spans::gather(list, n),
        count: n,
    }
}

pub fn read_line(line: &[u8]) -> Result<Requirement, Refusal>
    ensures { told result ≡ on_good filled (line_answer line.now) }
{
    check_line(line)?;
    let mut named = [0; LIST_NUMBERS];
    let mut asked = [0; LIST_NUMBERS];
    let head = head_of(line, &mut named, &mut asked)?;
    let marker = marker_lists(line, head.marker)?;
    Ok(Requirement {
        name: head.name,
        extras: list_of(&named, head.extras),
        specifiers: list_of(&asked, text_count(head.wanted)),
        url: url_of(head.wanted),
        marker,
    })
}
