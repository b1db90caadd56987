// What a kept comparison holds, and what an ignored one warns of.
use refusal::Span;
use std::fmt;

// Whether an extra's literal can be normalised.
#[derive(Clone, Copy, Debug, PartialEq, Eq)]
pub enum ExtraKind {
    Normal,
    Arbitrary,
}

#[derive(Clone, Copy, Debug, PartialEq, Eq)]
pub enum Sort {
    Version,
    VersionList,
    String,
    Extra(ExtraKind),
}

// The twelve names, in document 01's order; a key's code is its discriminant.
#[derive(Clone, Copy, Debug, PartialEq, Eq)]
pub enum Key {
    PythonVersion = 0,
    PythonFullVersion = 1,
    ImplementationVersion = 2,
    OsName = 3,
    SysPlatform = 4,
    PlatformRelease = 5,
    PlatformSystem = 6,
    PlatformVersion = 7,
    PlatformMachine = 8,
    PlatformPythonImplementation = 9,
    ImplementationName = 10,
    Extra = 11,
}

// Document 01's eight, in its order, then those that `not in` and mirroring give; an operator's code is its discriminant.
#[derive(Clone, Copy, Debug, PartialEq, Eq)]
pub enum Operator {
    Equal = 0,
    NotEqual = 1,
    Less = 2,
    LessEqual = 3,
    Greater = 4,
    GreaterEqual = 5,
    Compatible = 6,
    In = 7,
    NotIn = 8,
    Contains = 9,
    NotContains = 10,
}

// Why a comparison is ignored, or warned of: document 01's five kinds, whose numbers are the discriminants.
#[derive(Clone, Copy, Debug, PartialEq, Eq)]
pub enum WarningKind {
    // A version against no literal, or against no valid version, pattern or combination.
    BadVersion = 1,
    // A text against a name.
    StringToName = 2,
    // A text by `~=`.
    StringCompatible = 3,
    // `extra` against a name, by another operator than `==` and `!=`, or against what has no normal form.
    BadExtra = 4,
    TwoLiterals = 5,
}

// The literal's span lies inside its quotes.
#[derive(Clone, Copy, Debug, PartialEq, Eq)]
pub struct Comparison {
    pub sort: Sort,
    pub key: Key,
    pub operator: Operator,
    pub literal: Span,
}

impl fmt::Display for Sort {
    fn fmt<W: fmt::Write>(&self, f: &mut fmt::Formatter<W>) -> fmt::Result {
        f.write_str(match self {
            Sort::Version => "version",
            Sort::VersionList => "version_list",
            Sort::String => "string",
            Sort::Extra(ExtraKind::Normal) => "extra",
            Sort::Extra(ExtraKind::Arbitrary) => "arbitrary",
        })
    }
}

// As document 01 writes them.
impl fmt::Display for Key {
    fn fmt<W: fmt::Write>(&self, f: &mut fmt::Formatter<W>) -> fmt::Result {
        f.write_str(match self {
            Key::PythonVersion => "python_version",
            Key::PythonFullVersion => "python_full_version",
            Key::ImplementationVersion => "implementation_version",
            Key::OsName => "os_name",
            Key::SysPlatform => "sys_platform",
            Key::PlatformRelease => "platform_release",
            Key::PlatformSystem => "platform_system",
            Key::PlatformVersion => "platform_version",
            Key::PlatformMachine => "platform_machine",
            Key::PlatformPythonImplementation => "platform_python_implementation",
            Key::ImplementationName => "implementation_name",
            Key::Extra => "extra",
        })
    }
}

impl fmt::Display for Operator {
    fn fmt<W: fmt::Write>(&self, f: &mut fmt::Formatter<W>) -> fmt::Result {
        f.write_str(match self {
            Operator::Equal => "==",
            Operator::NotEqual => "!=",
            Operator::Less => "<",
            Operator::LessEqual => "<=",
            Operator::Greater => ">",
            Operator::GreaterEqual => ">=",
            Operator::Compatible => "~=",
            Operator::In => "in",
            Operator::NotIn => "not in",
            Operator::Contains => "contains",
            Operator::NotContains => "not contains",
        })
    }
}
