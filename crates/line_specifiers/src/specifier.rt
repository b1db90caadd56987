// The texts of a list of specifiers, one at a time.
ghost use Rattle.std.specs.Prelude.{◌≡◌, ◌≤◌, length};
ghost use Rattle.line_specifiers.specs.declared.specifier.Form.TheVariants.{Bare};
ghost use Rattle.line_specifiers.specs.Specifier.{text_to, enclosed_at, text_at, last_at, later_at, item_at};

use cursor::Cursor;
use refusal::{Fault, Refusal};
use spans::Item;
use version::is_specifier;

// Two forms by name, and no Option of a place: the definitions of specs/Specifier (`text_at`, `item_at`) take the form.
#[derive(Clone, Copy, Debug, PartialEq, Eq)]
pub enum Form {
    // Up to `;` or the end.
    Bare,
    // From a `(`, whose place this is, up to `)`.
    Enclosed(usize),
}

#[tactic(auto, unfolding(crate::specs::Specifier::text_to))]
fn text_to(line: &[u8], from: usize, stop: usize) -> Result<Item, Refusal>
    requires { (from ≤ stop) × (stop ≤ length line.now) }
    ensures { result ≡ text_to line.now from stop }
{
    if is_specifier(&line[from..stop]) {
        let to = Cursor { at: stop };
        return Ok(Item::One(Cursor { at: from }.span_to(to), to));
    }
    Err(Refusal::new(Fault::VersionBad, from, stop - from))
}

fn enclosed_at(line: &[u8], bracket: usize, from: usize) -> Result<Item, Refusal>
    requires { from ≤ length line.now }
    ensures { result ≡ enclosed_at line.now bracket from }
{
    let stop = Cursor { at: from }.take_enclosed(line).at;
    if stop < line.len() {
        return text_to(line, from, stop);
    }
    Err(Refusal::new(Fault::SpecifiersOpen, bracket, 1))
}

fn bare_at(line: &[u8], from: usize) -> Result<Item, Refusal>
    requires { from ≤ length line.now }
    ensures { result ≡ text_at line.now Bare from }
{
    let stop = Cursor { at: from }.take_bare(line).at;
    text_to(line, from, stop)
}

// By form: the definition `text_at` asks so too, and a closure for each form would be no plainer.
fn text_at(line: &[u8], form: Form, from: usize) -> Result<Item, Refusal>
    requires { from ≤ length line.now }
    ensures { result ≡ text_at line.now form from }
{
    match form {
        Form::Bare => bare_at(line, from),
        Form::Enclosed(bracket) => enclosed_at(line, bracket, from),
    }
}

// The list's end: a `)` is passed.
fn last_at(line: &[u8], at: usize) -> Result<Item, Refusal>
    ensures { result ≡ last_at line.now at }
{
    if text::has(line, at, b')') {
        return Ok(Item::End(Cursor { at: at + 1 }));
    }
    Ok(Item::End(Cursor { at }))
}

fn later_at(line: &[u8], form: Form, at: usize) -> Result<Item, Refusal>
    ensures { result ≡ later_at line.now form at }
{
    if text::has(line, at, b',') {
        return text_at(line, form, at + 1);
    }
    last_at(line, at)
}

#[tactic(auto, unfolding(crate::specs::Specifier::item_at))]
pub fn item_at(line: &[u8], form: Form, fresh: bool, at: usize) -> Result<Item, Refusal>
    requires { at ≤ length line.now }
    ensures { result ≡ item_at line.now form fresh at }
{
    if fresh {
        return text_at(line, form, at);
    }
    later_at(line, form, at)
}
