// Parts of a line, and how they are shown.
use output::Output;
use refusal::Span;
use text::is_space;

// The bytes from one place up to another, as far as they are held.
pub fn between(line: &[u8], from: usize, to: usize) -> &[u8] {
    let end = to.min(line.len());
    &line[from.min(end)..end]
}

pub fn part(line: &[u8], span: Span) -> &[u8] {
    between(line, span.start.0, span.start.0.saturating_add(span.len))
}

// A part without the white space around it. (Rust's `trim_ascii` would leave a vertical tab.)
pub fn trimmed(whole: &[u8]) -> &[u8] {
    let from = whole.iter().take_while(|byte| is_space(**byte)).count();
    let solid = &whole[from..];
    let behind = solid
        .iter()
        .rev()
        .take_while(|byte| is_space(**byte))
        .count();
    &solid[..solid.len() - behind]
}

// One printable byte for each byte, so that marks below them stand where they belong.
#[derive(Clone, Copy)]
pub struct Shown<'a>(pub &'a [u8]);

// So many bytes are put at a time, which takes less than to put each.
const AT_ONCE: usize = 64;

fn printable(byte: u8) -> u8 {
    match byte {
        b'\t' => b' ',
        32..=126 => byte,
        _ => b'?',
    }
}

impl Shown<'_> {
    // (No Display: through a formatter, which takes text and no bytes, lines of many short parts took 1.15 times the instructions.)
    pub fn put(self, out: &mut Output) {
        for some in self.0.chunks(AT_ONCE) {
            let mut shown = [0u8; AT_ONCE];
            for (to, byte) in shown.iter_mut().zip(some) {
                *to = printable(*byte);
            }
            out.text(&shown[..some.len().min(AT_ONCE)]);
        }
    }
}
