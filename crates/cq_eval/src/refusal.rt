//! Why a query isn't evaluated.
ghost use Rattle.std.specs.Prelude.{◌≡◌};

use std::alloc::AllocError;

/// Why there are no answers, or no instance of all answers.
#[derive(Clone, Copy, Debug, PartialEq, Eq)]
pub enum EvalRefusal {
    /// This entity has over 1,000,000 answers.
    TooManyAnswers(u32),
    /// A cell would have over 1,024 symbols, or there would be over 16,000,000 rows and nulls together.
    TooLarge,
    Memory,
}

impl From<AllocError> for EvalRefusal {
    ghost use Rattle.cq_eval.specs.declared.refusal.EvalRefusal.TheVariants.{Memory};

    ghost from_gives = { λ _ e. e ≡ Memory };

    fn from(_error: AllocError) -> EvalRefusal {
        EvalRefusal::Memory
    }
}
