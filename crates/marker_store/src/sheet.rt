// What was read of a marker so far, as numbers: each array with its count, and the three ways in which one more goes in.
ghost use Rattle.std.specs.Prelude.{◌≡◌, ◌<◌};
ghost use Rattle.cursor.specs.Limits.{max_comparisons};
ghost use Rattle.program_check.specs.Rules.{max_words};
ghost use Rattle.marker_store.specs.Sheet.{blank, keeping, warning, pushed};

use crate::marks::{Counts, Warning};
use crate::room::{COMPARISONS_ROOM, Comparisons, WARNINGS_ROOM, Warnings, Words};
use crate::store::{store_comparison, store_warning};
use marker_kind::Comparison;
use program_check::MAX_WORDS;

// No count is bounded by the type: `join` and `finish` of `marker_steps` take sheets with any counts, and ask for room only where they push a word.
#[derive(Drop)]
pub struct Sheet {
    pub comparisons: Comparisons,
    pub warnings: Warnings,
    pub words: Words,
    pub counts: Counts,
}

impl Sheet {
    #[tactic(auto, unfolding(crate::specs::Sheet::blank))]
    pub fn blank() -> Sheet
        ensures { result ≡ blank }
    {
        Sheet {
            comparisons: [0; COMPARISONS_ROOM],
            warnings: [0; WARNINGS_ROOM],
            words: [0; MAX_WORDS],
            counts: Counts::default(),
        }
    }

    // A kept comparison: its numbers, and the word that pushes it.
    #[tactic(auto, unfolding(crate::specs::Sheet::keeping, crate::specs::Sheet::pushed))]
    pub fn keep(&mut self, comparison: Comparison)
        requires { (self.old.counts.kept < max_comparisons)
            × (self.old.counts.words < max_words) }
        ensures { self.new ≡ keeping comparison self.old }
    {
        store_comparison(&mut self.comparisons, self.counts.kept, comparison);
        self.push(self.counts.kept as u8);
        self.counts.kept += 1;
    }

    // A warning: its numbers. An ignored comparison leaves nothing else.
    #[tactic(auto, unfolding(crate::specs::Sheet::warning))]
    pub fn warn(&mut self, given: Warning)
        requires { self.old.counts.warned < max_comparisons }
        ensures { self.new ≡ warning given self.old }
    {
        store_warning(&mut self.warnings, self.counts.warned, given);
        self.counts.warned += 1;
    }

    // A word of the program, as the byte that C reads.
    #[tactic(auto, unfolding(crate::specs::Sheet::pushed))]
    pub fn push(&mut self, word: u8)
        requires { self.old.counts.words < max_words }
        ensures { self.new ≡ pushed self.old word }
    {
        self.words[self.counts.words] = word;
        self.counts.words += 1;
    }
}
