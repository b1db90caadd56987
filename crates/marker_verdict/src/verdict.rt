// What two values and an operator come to.
ghost use Rattle.std.specs.Prelude.{◌≡◌};
ghost use Rattle.version.specs.Rules.{is_version, is_version_list};
ghost use Rattle.marker_verdict.specs.Verdict.{text_in, mirror, is_equality, is_compatible, is_list, may_go_with, kept, bad_name, version_verdict, mirrored_verdict, string_verdict, extra_verdict, version_left, string_left, extra_left, quoted_left, verdict};

use marker_kind::{Comparison, ExtraKind, Key, Operator, Sort, WarningKind};
use marker_value::Value;
use name::bad_at;
use refusal::Span;
use version::{goes_with, is_version, is_version_list};

// A kept comparison, without a warning or with one of kind 4; or an ignored one, with one or two warnings of a kind.
// The kind is a number and no `WarningKind`: `take_in` of `marker_steps`, which docs/PROMISES.md names, takes and stores any.
#[derive(Clone, Copy, Debug, PartialEq, Eq)]
pub enum Verdict {
    Kept(Comparison),
    KeptWarned(Comparison),
    Ignored(u8),
    IgnoredTwice(u8),
}

// The operator as the other side sees it.
fn mirrored(op: Operator) -> Operator
    ensures { result ≡ mirror op }
{
    match op {
        Operator::Less => Operator::Greater,
        Operator::LessEqual => Operator::GreaterEqual,
        Operator::Greater => Operator::Less,
        Operator::GreaterEqual => Operator::LessEqual,
        Operator::In => Operator::Contains,
        Operator::NotIn => Operator::NotContains,
        Operator::Contains => Operator::In,
        Operator::NotContains => Operator::NotIn,
        Operator::Equal | Operator::NotEqual | Operator::Compatible => op,
    }
}

fn is_equality(op: Operator) -> bool
    ensures { result ≡ is_equality op }
{
    matches!(op, Operator::Equal | Operator::NotEqual)
}

fn is_compatible(op: Operator) -> bool
    ensures { result ≡ is_compatible op }
{
    matches!(op, Operator::Compatible)
}

fn is_list(op: Operator) -> bool
    ensures { result ≡ is_list op }
{
    matches!(op, Operator::In | Operator::NotIn)
}

// The two operators are two types: a version's has `===`, a marker's has `in` and its kin. A conversion would be these lines, and an Option more.
fn may_go_with(op: Operator, text: &[u8]) -> bool
    ensures { result ≡ may_go_with op text.now }
{
    match op {
        Operator::Equal => goes_with(version::Operator::Equal, text),
        Operator::NotEqual => goes_with(version::Operator::NotEqual, text),
        Operator::Less => goes_with(version::Operator::Less, text),
        Operator::LessEqual => goes_with(version::Operator::LessEqual, text),
        Operator::Greater => goes_with(version::Operator::Greater, text),
        Operator::GreaterEqual => goes_with(version::Operator::GreaterEqual, text),
        Operator::Compatible => goes_with(version::Operator::Compatible, text),
        Operator::In | Operator::NotIn | Operator::Contains | Operator::NotContains => false,
    }
}

// A literal's bytes, of which a version, a list of versions or a name is asked: as much of its span as lies in the line.
fn text_in(line: &[u8], at: Span) -> &[u8]
    ensures { result.now ≡ text_in line.now at }
{
    let rest = &line[at.start.0.min(line.len())..];
    &rest[..at.len.min(rest.len())]
}

fn is_bad_name(name: &[u8]) -> bool
    ensures { result ≡ bad_name name.now }
{
    bad_at(name) < name.len()
}

// The four in the order in which the definition `kept` takes them: a literal with fields at each call would be longer.
fn keeps(sort: Sort, key: Key, op: Operator, at: Span) -> Comparison
    ensures { result ≡ kept sort key op at }
{
    Comparison {
        sort,
        key,
        operator: op,
        literal: at,
    }
}

fn version_verdict(line: &[u8], key: Key, op: Operator, at: Span) -> Verdict
    ensures { result ≡ version_verdict line.now key op at }
{
    if is_list(op) {
        if is_version_list(text_in(line, at)) {
            return Verdict::Kept(keeps(Sort::VersionList, key, op, at));
        }
        return Verdict::IgnoredTwice(WarningKind::BadVersion as u8);
    }
    if may_go_with(op, text_in(line, at)) {
        return Verdict::Kept(keeps(Sort::Version, key, op, at));
    }
    Verdict::Ignored(WarningKind::BadVersion as u8)
}

fn mirrored_verdict(line: &[u8], key: Key, op: Operator, at: Span) -> Verdict
    ensures { result ≡ mirrored_verdict line.now key op at }
{
    let turned = mirrored(op);
    let text = text_in(line, at);
    if is_version(text) & may_go_with(turned, text) {
        return Verdict::Kept(keeps(Sort::Version, key, turned, at));
    }
    Verdict::Ignored(WarningKind::BadVersion as u8)
}

fn string_verdict(key: Key, op: Operator, at: Span) -> Verdict
    ensures { result ≡ string_verdict key op at }
{
    if is_compatible(op) {
        return Verdict::Ignored(WarningKind::StringCompatible as u8);
    }
    Verdict::Kept(keeps(Sort::String, key, op, at))
}

fn extra_verdict(line: &[u8], op: Operator, at: Span) -> Verdict
    ensures { result ≡ extra_verdict line.now op at }
{
    let bad = is_bad_name(text_in(line, at));
    if is_equality(op) {
        if bad {
            let sort = Sort::Extra(ExtraKind::Arbitrary);
            return Verdict::KeptWarned(keeps(sort, Key::Extra, op, at));
        }
        return Verdict::Kept(keeps(Sort::Extra(ExtraKind::Normal), Key::Extra, op, at));
    }
    if bad {
        return Verdict::IgnoredTwice(WarningKind::BadExtra as u8);
    }
    Verdict::Ignored(WarningKind::BadExtra as u8)
}

// Here and in the two below the arms say what each kind of value comes to: one function for the three would take the kinds and the verdict as parameters, and be no plainer.
fn with_version_left(line: &[u8], key: Key, op: Operator, right: Value) -> Verdict
    ensures { result ≡ version_left line.now key op right }
{
    match right {
        Value::Version(_) | Value::String(_) | Value::Extra => Verdict::Ignored(
            WarningKind::BadVersion as u8,
        ),
        Value::Quoted(at) => version_verdict(line, key, op, at),
    }
}

fn with_string_left(key: Key, op: Operator, right: Value) -> Verdict
    ensures { result ≡ string_left key op right }
{
    match right {
        Value::Version(_) | Value::String(_) | Value::Extra => Verdict::Ignored(
            WarningKind::StringToName as u8,
        ),
        Value::Quoted(at) => string_verdict(key, op, at),
    }
}

fn with_extra_left(line: &[u8], op: Operator, right: Value) -> Verdict
    ensures { result ≡ extra_left line.now op right }
{
    match right {
        Value::Version(_) | Value::String(_) | Value::Extra => Verdict::Ignored(
            WarningKind::BadExtra as u8,
        ),
        Value::Quoted(at) => extra_verdict(line, op, at),
    }
}

fn with_quoted_left(line: &[u8], at: Span, op: Operator, right: Value) -> Verdict
    ensures { result ≡ quoted_left line.now at op right }
{
    match right {
        Value::Version(key) => mirrored_verdict(line, key, op, at),
        Value::String(key) => Verdict::Kept(keeps(Sort::String, key, mirrored(op), at)),
        Value::Extra => extra_verdict(line, op, at),
        Value::Quoted(_) => Verdict::Ignored(WarningKind::TwoLiterals as u8),
    }
}

// The left value decides.
pub fn verdict_of(line: &[u8], left: Value, op: Operator, right: Value) -> Verdict
    ensures { result ≡ verdict line.now left op right }
{
    match left {
        Value::Version(key) => with_version_left(line, key, op, right),
        Value::String(key) => with_string_left(key, op, right),
        Value::Extra => with_extra_left(line, op, right),
        Value::Quoted(at) => with_quoted_left(line, at, op, right),
    }
}
