// The URL of a line.
#![tactic(auto)]

ghost use Rattle.std.specs.Prelude.{◌≡◌, ◌||◌};
ghost use Rattle.cursor.specs.Cursor.{told_at};
ghost use Rattle.text.specs.Scan.{skip};
ghost use Rattle.line_url.specs.Url.{is_blank, is_mark, closes_at, marked_at, url_end, goes_on, url_at};

use cursor::Cursor;
use refusal::{Fault, Refusal, Span};

// Whitespace that does not break the line.
fn is_blank(b: u8) -> bool
    ensures { result ≡ is_blank b }
{
    text::is_space(b) && !matches!(b, b'\r' | b'\n')
}

fn is_mark(b: u8) -> bool
    ensures { result ≡ is_mark b }
{
    matches!(b, b';' | b'#')
}

// Whether a `;` or `#` stands just before a place.
fn marked_at(line: &[u8], at: usize) -> bool
    ensures { result ≡ marked_at line.now at }
{
    is_mark(text::byte_at(line, at.saturating_sub(1)))
}

// Whether nothing but whitespace stands between a place and the end, a `;` or a `#`.
#[tactic(auto, unfolding(crate::specs::Url::closes_at))]
fn closes_at(line: &[u8], at: usize) -> bool
    ensures { result ≡ closes_at line.now at }
{
    let past = Cursor { at }.skip_whitespace(line).at;
    line.len() <= past || is_mark(line[past])
}

// Whether the URL ends where a word of it does.
fn ends_word(line: &[u8], at: usize) -> bool
    ensures { result ≡ (marked_at line.now at || closes_at line.now at) }
{
    marked_at(line, at) || closes_at(line, at)
}

fn take_blanks(line: &[u8], from: usize) -> usize
    ensures { result ≡ skip is_blank line.now from }
{
    Cursor { at: from }.take(line, |b| is_blank(b)).at
}

// Where the URL that starts at a place ends. It goes from word to word, so that each byte is looked at a few times only.
fn url_end(line: &[u8], start: usize) -> usize
    ensures { result ≡ url_end line.now start }
{
    let mut at = start;
    loop {
        let word = Cursor { at }.take_word(line);
        let stop = word.at;
        if ends_word(line, stop) {
            return stop;
        }
        let past = word.skip_whitespace(line).at;
        let blanks = take_blanks(line, stop);
        if blanks < past {
            return blanks;
        }
        at = past;
    }
}

// Where reading goes on after a URL.
#[tactic(auto, unfolding(crate::specs::Url::goes_on))]
fn goes_on(line: &[u8], end: usize) -> usize
    ensures { result ≡ goes_on line.now end }
{
    if end < line.len() && !marked_at(line, end) {
        end + 1
    } else {
        end
    }
}

// The URL after a place.
pub fn url_at(line: &[u8], at: usize) -> Result<(Span, Cursor), Refusal>
    ensures { told_at result ≡ url_at line.now at }
{
    let start = Cursor { at }.skip_whitespace(line);
    let end = url_end(line, start.at);
    if start.at < end {
        let next = goes_on(line, end);
        let url = start.span_to(Cursor { at: end });
        return Ok((url, Cursor { at: next }));
    }
    Err(Refusal::new(Fault::UrlEmpty, start.at, 0))
}
