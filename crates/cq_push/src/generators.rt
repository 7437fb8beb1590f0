//! The sorts of generators.
ghost use Rattle.std.specs.Prelude.{◌≡◌, ◌++◌, OnOk, map};

use cq_base::Name;
use cq_theory::Sort;
use std::alloc::AllocError;

/// Appends the sorts of generators.
pub(crate) fn push_sorts(
    generators: &[(Name, Sort)],
    made: &mut Vec<Sort>,
) -> Result<(), AllocError>
    ensures { OnOk result (made.new.items ≡ made.old.items ++ map (λ g. g.1) generators.now) }
{
    for generator in generators {
        made.push(generator.1)?;
    }
    Ok(())
}
