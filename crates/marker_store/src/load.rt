// A comparison and a warning, from their numbers in the arrays.
ghost use Rattle.std.specs.Prelude.{◌≡◌, ◌<◌};
ghost use Rattle.marker_store.specs.Numbers.{comparison_in, warning_in};
ghost use Rattle.cursor.specs.Limits.{max_comparisons};

use crate::marks::Warning;
use crate::room::{
    COMPARISON_NUMBERS, Comparisons, KEY, KIND, LITERAL_LENGTH, LITERAL_START, OPERATOR, SORT,
    SPAN_LENGTH, SPAN_START, WARNING_NUMBERS, Warnings,
};
use marker_kind::{Comparison, key_of, operator_of, sort_of};
use refusal::{Offset, Span};

#[tactic(auto, unfolding(crate::specs::Numbers::comparison_in))]
pub fn load_comparison(comps: &Comparisons, n: usize) -> Comparison
    requires { n < max_comparisons }
    ensures { result ≡ comparison_in comps.now n }
{
    let at = COMPARISON_NUMBERS * n;
    let literal = Span {
        start: Offset(comps[at + LITERAL_START]),
        len: comps[at + LITERAL_LENGTH],
    };
    Comparison {
        sort: sort_of(comps[at + SORT]),
        key: key_of(comps[at + KEY]),
        operator: operator_of(comps[at + OPERATOR]),
        literal,
    }
}

#[tactic(auto, unfolding(crate::specs::Numbers::warning_in))]
pub fn load_warning(warns: &Warnings, n: usize) -> Warning
    requires { n < max_comparisons }
    ensures { result ≡ warning_in warns.now n }
{
    let at = WARNING_NUMBERS * n;
    let span = Span {
        start: Offset(warns[at + SPAN_START]),
        len: warns[at + SPAN_LENGTH],
    };
    Warning {
        kind: warns[at + KIND],
        span,
    }
}
