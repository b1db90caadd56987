// The numbers by which a kept comparison's sort, key and operator and a warning's kind stand in arrays of numbers, and back.
ghost use Rattle.std.specs.Prelude.{◌≡◌};
ghost use Rattle.marker_kind.specs.Code.{sort_code, key_code, operator_code, kind_number, sort_of, key_of, operator_of, Sorts, Keys, Operators, Kinds};

use crate::kind::{ExtraKind, Key, Operator, Sort, WarningKind};

// A number that is no code.
#[derive(Clone, Copy, Debug, PartialEq, Eq)]
pub struct NoCode(pub usize);

// A sort may hold a kind, so its code is no discriminant.
// Here and below stand the codes as functions beside discriminants and TryFrom: the definitions of specs/ and the arrays of C go by them, and `sort_of` and its like answer for every number.
#[tactic(auto, unfolding(crate::specs::Code::sort_code))]
pub fn sort_code(sort: Sort) -> usize
    ensures { result ≡ sort_code sort }
{
    match sort {
        Sort::Version => 0,
        Sort::VersionList => 1,
        Sort::String => 2,
        Sort::Extra(ExtraKind::Normal) => 3,
        Sort::Extra(ExtraKind::Arbitrary) => 4,
    }
}

#[tactic(auto, unfolding(crate::specs::Code::key_code))]
pub fn key_code(key: Key) -> usize
    ensures { result ≡ key_code key }
{
    key as usize
}

pub fn operator_code(op: Operator) -> usize
    ensures { result ≡ operator_code op }
{
    op as usize
}

impl WarningKind {
    // Document 01's number.
    pub fn number(self) -> usize
        ensures { result ≡ kind_number self }
    {
        self as usize
    }
}

impl TryFrom<usize> for Sort {
    type Error = NoCode;

    ghost try_from_gives = { Sorts };

    #[tactic(auto, unfolding(crate::specs::Code::sort_code))]
    fn try_from(code: usize) -> Result<Sort, NoCode> {
        match code {
            0 => Ok(Sort::Version),
            1 => Ok(Sort::VersionList),
            2 => Ok(Sort::String),
            3 => Ok(Sort::Extra(ExtraKind::Normal)),
            4 => Ok(Sort::Extra(ExtraKind::Arbitrary)),
            _ => Err(NoCode(code)),
        }
    }
}

impl TryFrom<usize> for Key {
    type Error = NoCode;

    ghost try_from_gives = { Keys };

    #[tactic(auto, unfolding(crate::specs::Code::key_code))]
    fn try_from(code: usize) -> Result<Key, NoCode> {
        match code {
            0 => Ok(Key::PythonVersion),
            1 => Ok(Key::PythonFullVersion),
            2 => Ok(Key::ImplementationVersion),
            3 => Ok(Key::OsName),
            4 => Ok(Key::SysPlatform),
            5 => Ok(Key::PlatformRelease),
            6 => Ok(Key::PlatformSystem),
            7 => Ok(Key::PlatformVersion),
            8 => Ok(Key::PlatformMachine),
            9 => Ok(Key::PlatformPythonImplementation),
            10 => Ok(Key::ImplementationName),
            11 => Ok(Key::Extra),
            _ => Err(NoCode(code)),
        }
    }
}

impl TryFrom<usize> for Operator {
    type Error = NoCode;

    ghost try_from_gives = { Operators };

    fn try_from(code: usize) -> Result<Operator, NoCode> {
        match code {
            0 => Ok(Operator::Equal),
            1 => Ok(Operator::NotEqual),
            2 => Ok(Operator::Less),
            3 => Ok(Operator::LessEqual),
            4 => Ok(Operator::Greater),
            5 => Ok(Operator::GreaterEqual),
            6 => Ok(Operator::Compatible),
            7 => Ok(Operator::In),
            8 => Ok(Operator::NotIn),
            9 => Ok(Operator::Contains),
            10 => Ok(Operator::NotContains),
            _ => Err(NoCode(code)),
        }
    }
}

impl TryFrom<usize> for WarningKind {
    type Error = NoCode;

    ghost try_from_gives = { Kinds };

    fn try_from(number: usize) -> Result<WarningKind, NoCode> {
        match number {
            1 => Ok(WarningKind::BadVersion),
            2 => Ok(WarningKind::StringToName),
            3 => Ok(WarningKind::StringCompatible),
            4 => Ok(WarningKind::BadExtra),
            5 => Ok(WarningKind::TwoLiterals),
            _ => Err(NoCode(number)),
        }
    }
}

// A number that is no code is read as 0 is, here and below.
#[tactic(auto, using(crate::proofs::Own::sort_read))]
pub fn sort_of(n: usize) -> Sort
    ensures { result ≡ sort_of n }
{
    Sort::try_from(n).unwrap_or(Sort::Version)
}

#[tactic(auto, using(crate::proofs::Own::key_read))]
pub fn key_of(n: usize) -> Key
    ensures { result ≡ key_of n }
{
    Key::try_from(n).unwrap_or(Key::PythonVersion)
}

#[tactic(auto, using(crate::proofs::Own::operator_read))]
pub fn operator_of(n: usize) -> Operator
    ensures { result ≡ operator_of n }
{
    Operator::try_from(n).unwrap_or(Operator::Equal)
}
