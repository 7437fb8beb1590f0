//! Why a question asks about no equation.
ghost use Rattle.std.specs.Prelude.{◌≡◌};

use std::alloc::AllocError;

/// Why two texts ask about no equation.
#[derive(Clone, Copy, Debug, PartialEq, Eq)]
pub enum QuestionRefusal {
    /// A text is over 8 MiB, or isn't one term of at most 64 levels, or the two terms make no equation over the
    /// presentation.
    BadTerm,
    Memory,
}

impl From<AllocError> for QuestionRefusal {
    ghost use Rattle.cq_explain.specs.declared.refusal.QuestionRefusal.TheVariants.{Memory};

    ghost from_gives = { λ _ e. e ≡ Memory };

    fn from(_error: AllocError) -> QuestionRefusal {
        QuestionRefusal::Memory
    }
}
