// The operators of a specifier, and what may go with each.
ghost use Rattle.std.specs.Prelude.{◌≡◌};
ghost use Rattle.text.specs.Word.{bytes};
ghost use Rattle.version_operator.specs.Operator.{spelling, operator_in, takes};

use refusal::Span;
use text::spelled;

// In document 01's order.
#[derive(Clone, Copy, Debug, PartialEq, Eq)]
pub enum Operator {
    LessEqual,
    Less,
    NotEqual,
    Equal,
    GreaterEqual,
    Greater,
    Compatible,
    Exact,
}

// Whether an operator takes `.*`, takes a local part, and needs two release numbers.
#[derive(Clone, Copy, Debug, PartialEq, Eq)]
pub struct Takes {
    pub star: bool,
    pub local: bool,
    pub two: bool,
}

impl Operator {
    const ALL: [Operator; 8] = [
        Operator::LessEqual,
        Operator::Less,
        Operator::NotEqual,
        Operator::Equal,
        Operator::GreaterEqual,
        Operator::Greater,
        Operator::Compatible,
        Operator::Exact,
    ];

    fn spelling(self) -> &'static [u8]
        ensures { result.now ≡ bytes (spelling self) }
    {
        match self {
            Operator::LessEqual => b"<=",
            Operator::Less => b"<",
            Operator::NotEqual => b"!=",
            Operator::Equal => b"==",
            Operator::GreaterEqual => b">=",
            Operator::Greater => b">",
            Operator::Compatible => b"~=",
            Operator::Exact => b"===",
        }
    }
}

// The operator that a part of a text spells, if it spells one.
pub fn operator_in(text: &[u8], span: Span) -> Option<Operator>
    ensures { result ≡ operator_in text.now span }
{
    Operator::ALL
        .iter()
        .copied()
        .find(|op| spelled(text, span, op.spelling()))
}

pub fn takes_of(op: Operator) -> Takes
    ensures { result ≡ takes op }
{
    Takes {
        star: matches!(op, Operator::NotEqual | Operator::Equal),
        local: matches!(op, Operator::NotEqual | Operator::Equal | Operator::Exact),
        two: matches!(op, Operator::Compatible),
    }
}
