//! Why it isn't known that an equation is derivable.
ghost use Rattle.std.specs.Prelude.{◌≡◌};

use std::alloc::AllocError;

/// Why a mapping isn't known to preserve the equations of its source, or the duties of a query aren't known to hold.
/// The number, from 1, is that of the first duty that isn't derived.
#[derive(Clone, Copy, Debug, PartialEq, Eq)]
pub enum CheckRefusal {
    /// The duty isn't derivable.
    NotPreserved(u64),
    /// The duty isn't derived within the given depth, and its presentation closes at no depth up to it.
    Depth(u64),
    /// A stage of the duty's rows ended with more than 200,000 of them.
    TooManyRows(u64),
    Memory,
}

impl From<AllocError> for CheckRefusal {
    ghost use Rattle.cq_check.specs.declared.refusal.CheckRefusal.TheVariants.{Memory};

    ghost from_gives = { λ _ e. e ≡ Memory };

    fn from(_error: AllocError) -> CheckRefusal {
        CheckRefusal::Memory
    }
}

/// Why it isn't known whether an equation is derivable.
#[derive(Clone, Copy, Debug, PartialEq, Eq)]
pub enum EqualRefusal {
    /// It isn't derived within the given depth, and the presentation closes at no depth up to it.
    Depth,
    /// A stage of the rows ended with more than 200,000 of them.
    TooManyRows,
    Memory,
}
