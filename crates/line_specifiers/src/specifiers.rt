// The specifiers at a place of a line.
ghost use Rattle.std.specs.Prelude.{◌≡◌, ◌≤◌, length};
ghost use Rattle.cursor.specs.Cursor.{told_at};
ghost use Rattle.spans.specs.Listing.{read_onto, counted};
ghost use Rattle.line_specifiers.specs.Specifier.{item_at};
ghost use Rattle.line_specifiers.specs.Specifiers.{texts_from, bare_at, specifiers_at};

use crate::specifier::{Form, item_at};
use cursor::Cursor;
use refusal::{Fault, Refusal};
use spans::{Item, SpanNumbers, read_list};

// The texts from a place on.
#[tactic(auto, using(crate::proofs::Within::text_next))]
fn list_from(
    line: &[u8],
    form: Form,
    from: usize,
    list: &mut SpanNumbers,
) -> Result<(usize, Cursor), Refusal>
    requires { from ≤ length line.now }
    ensures answer { told_at result ≡ counted (texts_from line.now form from) }
    ensures written { list.new
        ≡ read_onto (texts_from line.now form from) list.old }
{
    let item = |fresh: bool, at: usize| -> Result<Item, Refusal>
        requires { at ≤ length line.now }
        ensures { result ≡ item_at line.entry.now form fresh at }
    { item_at(line, form, fresh, at) };
    read_list(Fault::SpecifiersMany, list, from, item)
}

fn bare_at(line: &[u8], at: usize, list: &mut SpanNumbers) -> Result<(usize, Cursor), Refusal>
    ensures answer { told_at result ≡ counted (bare_at line.now at) }
    ensures written { list.new ≡ read_onto (bare_at line.now at) list.old }
{
    if text::is_operator_byte(text::byte_at(line, at)) {
        return list_from(line, Form::Bare, at, list);
    }
    Ok((0, Cursor { at }))
}

// The specifiers that start at a place, none where neither `(` nor an operator stands there.
pub fn specifiers_at(
    line: &[u8],
    at: usize,
    list: &mut SpanNumbers,
) -> Result<(usize, Cursor), Refusal>
    ensures answer { told_at result ≡ counted (specifiers_at line.now at) }
    ensures written { list.new ≡ read_onto (specifiers_at line.now at) list.old }
{
    if text::has(line, at, b'(') {
        let from = Cursor { at: at + 1 }.skip_whitespace(line).at;
        return list_from(line, Form::Enclosed(at), from, list);
    }
    bare_at(line, at, list)
}
