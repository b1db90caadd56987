// What stands at a place inside the brackets.
ghost use Rattle.std.specs.Prelude.{◌≡◌, ◌<◌, length};
ghost use Rattle.line_extras.specs.Extra.{may_follow, stranger_at, ended_at, extra_to, extra_at, or_open, first_at, later_at, inside_at, item_at};

use cursor::Cursor;
use refusal::{Fault, Refusal};
use spans::Item;

fn may_follow(b: u8) -> bool
    ensures { result ≡ may_follow b }
{
    matches!(b, b',' | b']') || text::is_space(b)
}

fn stranger_at(line: &[u8], at: usize) -> bool
    ensures { result ≡ stranger_at line.now at }
{
    at < line.len() && !may_follow(line[at])
}

fn ended_at(line: &[u8], start: usize, stop: usize) -> Result<Item, Refusal>
    requires { start < stop }
    ensures { result ≡ ended_at line.now start stop }
{
    if text::separator_before(line, stop) {
        return Err(Refusal::new(Fault::ExtraEnd, stop - 1, 1));
    }
    let to = Cursor { at: stop };
    let extra = Cursor { at: start }.span_to(to);
    Ok(Item::One(extra, to.skip_whitespace(line)))
}

fn extra_to(line: &[u8], start: usize, stop: usize) -> Result<Item, Refusal>
    requires { start < stop }
    ensures { result ≡ extra_to line.now start stop }
{
    if stranger_at(line, stop) {
        return Err(Refusal::new(Fault::ExtraAfter, stop, 1));
    }
    ended_at(line, start, stop)
}

#[tactic(auto, using(crate::proofs::Laws::extra_some))]
fn extra_at(line: &[u8], at: usize) -> Result<Item, Refusal>
    requires { at < length line.now }
    ensures { result ≡ extra_at line.now at }
{
    if text::is_alnum(line[at]) {
        let stop = Cursor { at }.take_name(line).at;
        return extra_to(line, at, stop);
    }
    Err(Refusal::new(Fault::ExtraStart, at, 1))
}

fn first_at(line: &[u8], at: usize) -> Result<Item, Refusal>
    requires { at < length line.now }
    ensures { result ≡ first_at line.now at }
{
    if text::has(line, at, b',') {
        return Err(Refusal::new(Fault::ExtrasComma, at, 1));
    }
    extra_at(line, at)
}

fn after_comma(line: &[u8], bracket: usize, at: usize) -> Result<Item, Refusal>
    ensures { result ≡ or_open line.now bracket at (extra_at line.now at) }
{
    if at < line.len() {
        return extra_at(line, at);
    }
    Err(Refusal::new(Fault::ExtrasOpen, bracket, 1))
}

fn later_at(line: &[u8], bracket: usize, at: usize) -> Result<Item, Refusal>
    requires { at < length line.now }
    ensures { result ≡ later_at line.now bracket at }
{
    if text::has(line, at, b',') {
        let past = Cursor { at: at + 1 }.skip_whitespace(line).at;
        return after_comma(line, bracket, past);
    }
    Err(Refusal::new(Fault::ExtraJoin, at, 1))
}

// `fresh`, whether an extra may stand without a comma before it, is the list reader's own: `spans::read_list` asks by it. So the definition has it.
fn inside_at(line: &[u8], bracket: usize, fresh: bool, at: usize) -> Result<Item, Refusal>
    requires { at < length line.now }
    ensures { result ≡ inside_at line.now bracket fresh at }
{
    if text::has(line, at, b']') {
        return Ok(Item::End(Cursor { at: at + 1 }));
    }
    if fresh {
        return first_at(line, at);
    }
    later_at(line, bracket, at)
}

#[tactic(auto, unfolding(crate::specs::Extra::item_at))]
pub fn item_at(line: &[u8], bracket: usize, fresh: bool, at: usize) -> Result<Item, Refusal>
    ensures { result ≡ item_at line.now bracket fresh at }
{
    if at < line.len() {
        return inside_at(line, bracket, fresh, at);
    }
    Err(Refusal::new(Fault::ExtrasOpen, bracket, 1))
}
