// Why an input is refused.
ghost use Rattle.std.specs.Prelude.{◌≡◌};
ghost use Rattle.refusal.specs.Refusal.{fault_number, refusal, Numbers};

use crate::place::{Offset, Span};
use std::fmt;

// A variant for each number of documents 01 (1 to 31) and 02 (32 to 41), which is its discriminant.
#[derive(Clone, Copy, Debug, PartialEq, Eq)]
pub enum Fault {
    TooLong = 1,
    NotAscii = 2,
    NameMissing = 3,
    NameStart = 4,
    NameEnd = 5,
    ExtrasOpen = 6,
    ExtrasComma = 7,
    ExtraStart = 8,
    ExtraJoin = 9,
    ExtraAfter = 10,
    ExtraEnd = 11,
    ExtrasMany = 12,
    UrlEmpty = 13,
    VersionBad = 14,
    SpecifiersOpen = 15,
    SpecifiersMany = 16,
    LineGoesOn = 17,
    ValueMissing = 18,
    ValueUnknown = 19,
    OperatorUnknown = 20,
    NotUnspaced = 21,
    ExpectedFoundEnd = 22,
    ExpectedFoundOther = 23,
    MarkerGoesOn = 24,
    TooDeep = 25,
    ComparisonsMany = 26,
    WarningsMany = 27,
    NameBad = 28,
    OutputShort = 29,
    ProgramBad = 30,
    CountOver = 31,
    SegmentsMany = 32,
    TextEnded = 33,
    NumberRepeated = 34,
    RecordBad = 35,
    LinesMany = 36,
    CabinetBad = 37,
    ClaimWrong = 38,
    ClaimOutside = 39,
    ClaimOpen = 40,
    PieceLong = 41,
}

#[derive(Clone, Copy, Debug, PartialEq, Eq)]
pub struct Refusal {
    pub fault: Fault,
    pub span: Span,
}

impl Refusal {
    pub fn new(fault: Fault, start: usize, len: usize) -> Refusal
        ensures { result ≡ refusal fault start len }
    {
        let span = Span {
            start: Offset(start),
            len,
        };
        Refusal { fault, span }
    }
}

impl Fault {
    // The documents' number.
    pub fn number(self) -> u8
        ensures { result ≡ fault_number self }
    {
        self as u8
    }
}

// A number that no fault has.
#[derive(Clone, Copy, Debug, PartialEq, Eq)]
pub struct NoFault(pub u8);

impl TryFrom<u8> for Fault {
    type Error = NoFault;

    ghost try_from_gives = { Numbers };

    fn try_from(number: u8) -> Result<Fault, NoFault> {
        match number {
            1 => Ok(Fault::TooLong),
            2 => Ok(Fault::NotAscii),
            3 => Ok(Fault::NameMissing),
            4 => Ok(Fault::NameStart),
            5 => Ok(Fault::NameEnd),
            6 => Ok(Fault::ExtrasOpen),
            7 => Ok(Fault::ExtrasComma),
            8 => Ok(Fault::ExtraStart),
            9 => Ok(Fault::ExtraJoin),
            10 => Ok(Fault::ExtraAfter),
            11 => Ok(Fault::ExtraEnd),
            12 => Ok(Fault::ExtrasMany),
            13 => Ok(Fault::UrlEmpty),
            14 => Ok(Fault::VersionBad),
            15 => Ok(Fault::SpecifiersOpen),
            16 => Ok(Fault::SpecifiersMany),
            17 => Ok(Fault::LineGoesOn),
            18 => Ok(Fault::ValueMissing),
            19 => Ok(Fault::ValueUnknown),
            20 => Ok(Fault::OperatorUnknown),
            21 => Ok(Fault::NotUnspaced),
            22 => Ok(Fault::ExpectedFoundEnd),
            23 => Ok(Fault::ExpectedFoundOther),
            24 => Ok(Fault::MarkerGoesOn),
            25 => Ok(Fault::TooDeep),
            26 => Ok(Fault::ComparisonsMany),
            27 => Ok(Fault::WarningsMany),
            28 => Ok(Fault::NameBad),
            29 => Ok(Fault::OutputShort),
            30 => Ok(Fault::ProgramBad),
            31 => Ok(Fault::CountOver),
            32 => Ok(Fault::SegmentsMany),
            33 => Ok(Fault::TextEnded),
            34 => Ok(Fault::NumberRepeated),
            35 => Ok(Fault::RecordBad),
            36 => Ok(Fault::LinesMany),
            37 => Ok(Fault::CabinetBad),
            38 => Ok(Fault::ClaimWrong),
            39 => Ok(Fault::ClaimOutside),
            40 => Ok(Fault::ClaimOpen),
            41 => Ok(Fault::PieceLong),
            _ => Err(NoFault(number)),
        }
    }
}

// Why, in words.
impl fmt::Display for Fault {
    fn fmt<W: fmt::Write>(&self, f: &mut fmt::Formatter<W>) -> fmt::Result {
        f.write_str(match self {
            Fault::TooLong => "the line has over 4,096 bytes",
            Fault::NotAscii => "a byte of 128 or more stands here",
            Fault::NameMissing => "there is no name before the end",
            Fault::NameStart => "a name starts with a letter or a digit",
            Fault::NameEnd => "a name ends with a letter or a digit",
            Fault::ExtrasOpen => "the bracket of the extras is not closed",
            Fault::ExtrasComma => "a comma stands before the first extra",
            Fault::ExtraStart => "an extra starts with a letter or a digit",
            Fault::ExtraJoin => "a comma is missing between two extras",
            Fault::ExtraAfter => "behind an extra stands a comma, a bracket or white space",
            Fault::ExtraEnd => "an extra ends with a letter or a digit",
            Fault::ExtrasMany => "this is the 33rd extra",
            Fault::UrlEmpty => "the URL is empty",
            Fault::VersionBad => "this is no valid version, pattern or specifier",
            Fault::SpecifiersOpen => "the parenthesis of the specifiers is not closed",
            Fault::SpecifiersMany => "this is the 33rd specifier",
            Fault::LineGoesOn => "the line goes on after its last part",
            Fault::ValueMissing => "a value of the marker is missing at the end",
            Fault::ValueUnknown => "this value is neither quoted nor a name that markers know",
            Fault::OperatorUnknown => "this is no operator that markers know",
            Fault::NotUnspaced => "white space is missing behind 'not'",
            Fault::ExpectedFoundEnd => "the line ends before what this asks for",
            Fault::ExpectedFoundOther => "another byte is expected here",
            Fault::MarkerGoesOn => "the marker goes on after its last comparison",
            Fault::TooDeep => "this is the 17th open parenthesis",
            Fault::ComparisonsMany => "this is the 65th comparison that is kept",
            Fault::WarningsMany => "this is the 65th warning",
            Fault::NameBad => "the name has no normal form",
            Fault::OutputShort => "the normal form has no room",
            Fault::ProgramBad => "the program breaks a stack rule",
            Fault::CountOver => "over 64 comparisons are counted",
            Fault::SegmentsMany => "this has over 16 release or 8 local segments",
            Fault::TextEnded => "the text has ended",
            Fault::NumberRepeated => "a comparison stands in the program more than once",
            Fault::RecordBad => "the record is out of order, or has a field that no line gives",
            Fault::LinesMany => "this is past line 4,294,967,295",
            Fault::CabinetBad =>
                "the cabinet is not made of its texts and its extras in normal form",
            Fault::ClaimWrong => "the claimed answer is not the one that is judged",
            Fault::ClaimOutside => "a number of the claimed set is not below the count",
            Fault::ClaimOpen => "the claimed set leaves the answer open",
            Fault::PieceLong => "the piece has over 512 bytes",
        })
    }
}
