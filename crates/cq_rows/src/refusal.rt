//! Why there are no rows.
ghost use Rattle.std.specs.Prelude.{◌≡◌};

use std::alloc::AllocError;

/// Why there are no rows.
#[derive(Clone, Copy, Debug, PartialEq, Eq)]
pub enum RowsRefusal {
    /// A stage ended with more than 200,000 live rows, or one would, whatever equations join.
    TooManyRows,
    Memory,
}

impl From<AllocError> for RowsRefusal {
    ghost use Rattle.cq_rows.specs.declared.refusal.RowsRefusal.TheVariants.{Memory};

    ghost from_gives = { λ _ e. e ≡ Memory };

    fn from(_error: AllocError) -> RowsRefusal {
        RowsRefusal::Memory
    }
}
