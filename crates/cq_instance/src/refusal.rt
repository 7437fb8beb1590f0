//! Why there is no instance.
ghost use Rattle.std.specs.Prelude.{◌≡◌};

use std::alloc::AllocError;

/// Why there is no instance of some tables.
#[derive(Clone, Copy, Debug, PartialEq, Eq)]
pub enum TablesRefusal {
    /// There are over 16,000,000 rows and nulls together.
    TooLarge,
    Memory,
}

impl From<AllocError> for TablesRefusal {
    ghost use Rattle.cq_instance.specs.declared.refusal.TablesRefusal.TheVariants.{Memory};

    ghost from_gives = { λ _ e. e ≡ Memory };

    fn from(_error: AllocError) -> TablesRefusal {
        TablesRefusal::Memory
    }
}
