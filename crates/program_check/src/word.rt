// The words of programs, each one byte.
ghost use Rattle.std.specs.Prelude.{◌≡◌};
ghost use Rattle.program_check.specs.Rules.{is_operator};
ghost use Rattle.program_check.specs.Word.{word};

use refusal::ComparisonNumber;

// Unknown is a word, and no None: the stack rules (`allowed`, `saying`) and the theorems over them say what it does.
#[derive(Clone, Copy, Debug, PartialEq, Eq)]
pub enum Word {
    // Pushes the comparison of this number.
    Push(ComparisonNumber),
    And,
    Or,
    // Pushes yes.
    Yes,
    Unknown,
}

impl From<u8> for Word {
    ghost from_gives = { λ b w. w ≡ word b };

    #[tactic(auto, unfolding(crate::specs::Word::word))]
    fn from(b: u8) -> Word {
        match b {
            0..=63 => Word::Push(ComparisonNumber(b)),
            64 => Word::And,
            65 => Word::Or,
            66 => Word::Yes,
            _ => Word::Unknown,
        }
    }
}

impl Word {
    pub fn is_operator(self) -> bool
        ensures { result ≡ is_operator self }
    {
        matches!(self, Word::And | Word::Or)
    }
}
