// A comparison and a warning go into the arrays, each at the place of its number.
ghost use Rattle.std.specs.Prelude.{◌≡◌, ◌<◌};
ghost use Rattle.marker_store.specs.Numbers.{put_comparison, put_warning};
ghost use Rattle.cursor.specs.Limits.{max_comparisons};

use crate::marks::Warning;
use crate::room::{
    COMPARISON_NUMBERS, Comparisons, KEY, KIND, LITERAL_LENGTH, LITERAL_START, OPERATOR, SORT,
    SPAN_LENGTH, SPAN_START, WARNING_NUMBERS, Warnings,
};
use marker_kind::{Comparison, key_code, operator_code, sort_code};

// Here, below and in load.rt: the arrays of numbers are C's, so no derive writes them, and each kind of entry has its own width and places.
#[tactic(auto, unfolding(crate::specs::Numbers::put_comparison))]
pub fn store_comparison(comps: &mut Comparisons, n: usize, comparison: Comparison)
    requires { n < max_comparisons }
    ensures { comps.new ≡ put_comparison comps.old n comparison }
{
    let at = COMPARISON_NUMBERS * n;
    comps[at + SORT] = sort_code(comparison.sort);
    comps[at + KEY] = key_code(comparison.key);
    comps[at + OPERATOR] = operator_code(comparison.operator);
    comps[at + LITERAL_START] = comparison.literal.start.0;
    comps[at + LITERAL_LENGTH] = comparison.literal.len;
}

#[tactic(auto, unfolding(crate::specs::Numbers::put_warning))]
pub fn store_warning(warns: &mut Warnings, n: usize, warning: Warning)
    requires { n < max_comparisons }
    ensures { warns.new ≡ put_warning warns.old n warning }
{
    let at = WARNING_NUMBERS * n;
    warns[at + KIND] = warning.kind;
    warns[at + SPAN_START] = warning.span.start.0;
    warns[at + SPAN_LENGTH] = warning.span.len;
}
