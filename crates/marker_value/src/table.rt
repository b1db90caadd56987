// Fixed words against a part of the line.
ghost use Rattle.std.specs.Prelude.{◌≡◌, map};
ghost use Rattle.marker_value.specs.Table.{among};

use refusal::Span;
use text::spelled;

// What stands beside the first word of a table that a span is.
pub fn among<X: Copy>(line: &[u8], span: Span, table: &[(&[u8], X)]) -> Option<X>
    ensures { result ≡ among (map (λ e. (e.0.now, e.1)) table.now) line.now span }
{
    let entry = table.iter().find(|entry| spelled(line, span, entry.0))?;
    Some(entry.1)
}
