// A value of a marker: quoted text, or one of the twelve names.
ghost use Rattle.std.specs.Prelude.{◌≡◌, ◌<◌, length};
ghost use Rattle.text.specs.Class.{is_quote};
ghost use Rattle.text.specs.Scan.{byte_at};
ghost use Rattle.marker_value.specs.Value.{version_name_in, quoted_at, named_at, value_at};

use crate::table::among;
use cursor::Cursor;
use marker_kind::Key;
use refusal::{Fault, Refusal, Span};
use text::{byte_at, is_quote};

#[derive(Clone, Copy, Debug, PartialEq, Eq)]
pub enum Value {
    Version(Key),
    String(Key),
    Extra,
    Quoted(Span),
}

// The twelve names, in document 01's order.
const NAMES: [(&[u8], Value); 12] = [
    (b"python_version", Value::Version(Key::PythonVersion)),
    (
        b"python_full_version",
        Value::Version(Key::PythonFullVersion),
    ),
    (
        b"implementation_version",
        Value::Version(Key::ImplementationVersion),
    ),
    (b"os_name", Value::String(Key::OsName)),
    (b"sys_platform", Value::String(Key::SysPlatform)),
    (b"platform_release", Value::String(Key::PlatformRelease)),
    (b"platform_system", Value::String(Key::PlatformSystem)),
    (b"platform_version", Value::String(Key::PlatformVersion)),
    (b"platform_machine", Value::String(Key::PlatformMachine)),
    (
        b"platform_python_implementation",
        Value::String(Key::PlatformPythonImplementation),
    ),
    (
        b"implementation_name",
        Value::String(Key::ImplementationName),
    ),
    (b"extra", Value::Extra),
];

#[tactic(auto, unfolding(crate::specs::Value::version_name_in, crate::specs::Value::string_name_in, crate::specs::Value::last_name_in))]
fn name_in(line: &[u8], span: Span) -> Option<Value>
    ensures { result ≡ version_name_in line.now span }
{
    among(line, span, &NAMES)
}

#[tactic(auto, unfolding(crate::specs::Value::named_at))]
fn named_at(line: &[u8], cur: Cursor) -> Result<(Value, Cursor), Refusal>
    ensures { result ≡ named_at line.now cur.at }
{
    let end = cur.take_token(line);
    let token = cur.span_to(end);
    let unknown = Refusal::new(Fault::ValueUnknown, cur.at, token.len);
    let value = name_in(line, token).ok_or(unknown)?;
    Ok((value, end))
}

#[tactic(auto, unfolding(crate::specs::Value::quoted_at))]
fn quoted_at(line: &[u8], cur: Cursor) -> Result<(Value, Cursor), Refusal>
    requires { cur.at < length line.now }
    ensures { result ≡ quoted_at line.now cur.at }
{
    let inside = Cursor { at: cur.at + 1 };
    let close = inside.take_to_quote(line, byte_at(line, cur.at));
    let text = inside.span_to(close);
    let unclosed = Refusal::new(Fault::ExpectedFoundEnd, cur.at, 1);
    let (_, end) = close.next(line).ok_or(unclosed)?;
    Ok((Value::Quoted(text), end))
}

#[tactic(auto, unfolding(crate::specs::Value::value_at))]
pub fn value_at(line: &[u8], cur: Cursor) -> Result<(Value, Cursor), Refusal>
    ensures { result ≡ value_at line.now cur.at }
{
    let Some(byte) = cur.peek(line) else {
        return Err(Refusal::new(Fault::ValueMissing, line.len(), 1));
    };
    if is_quote(byte) {
        return quoted_at(line, cur);
    }
    named_at(line, cur)
}
