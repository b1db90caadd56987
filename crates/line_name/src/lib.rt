// The name at a line's start.
#![tactic(auto)]

ghost use Rattle.std.specs.Prelude.{◌≡◌, ◌<◌, length};
ghost use Rattle.cursor.specs.Cursor.{told_at};
ghost use Rattle.line_name.specs.Name.{name_to, name_from, name_at};

use cursor::Cursor;
use refusal::{Fault, Refusal, Span};

fn name_to(line: &[u8], start: usize, stop: usize) -> Result<(Span, Cursor), Refusal>
    requires { start < stop }
    ensures { told_at result ≡ name_to line.now start stop }
{
    if text::separator_before(line, stop) {
        return Err(Refusal::new(Fault::NameEnd, stop - 1, 1));
    }
    let to = Cursor { at: stop };
    Ok((Cursor { at: start }.span_to(to), to))
}

fn name_from(line: &[u8], start: usize) -> Result<(Span, Cursor), Refusal>
    requires { start < length line.now }
    ensures { told_at result ≡ name_from line.now start }
{
    if text::is_alnum(line[start]) {
        let stop = Cursor { at: start }.take_name(line).at;
        return name_to(line, start, stop);
    }
    Err(Refusal::new(Fault::NameStart, start, 1))
}

pub fn name_at(line: &[u8]) -> Result<(Span, Cursor), Refusal>
    ensures { told_at result ≡ name_at line.now }
{
    let start = Cursor::start().skip_whitespace(line).at;
    if start < line.len() {
        return name_from(line, start);
    }
    Err(Refusal::new(Fault::NameMissing, 0, 1))
}
