//! Parts that declare names.
ghost use Rattle.std.specs.Prelude.{◌≡◌, ◌-◌, ◌<◌, ◌^◌, ◌⊎◌, ◌++◌, ◌∷◌, [], true, IfOk, IfErr, None, length, is_some};
ghost use Rattle.cq_base.specs.Names.{number_of};

use crate::refusal::TheoryRefusal;
use cq_base::{Name, Names};

/// Adds the name that a part declares to its table.
pub fn declare(table: &mut Names, part: u32, name: &Name) -> Result<(), TheoryRefusal>
    requires { length table.old < 2 ^ 32 - 1 }
    ensures ok { IfOk result (λ _. (number_of table.old name.now ≡ None) × (table.new ≡ table.old ++ name.now ∷ [])) }
    ensures refused { IfErr result (λ refusal. (refusal ≡ TheoryRefusal.Memory)
        ⊎ ((refusal ≡ TheoryRefusal.Duplicate part) × (is_some (number_of table.old name.now) ≡ true))) }
{
    if table.find(name).is_some() {
        return Err(TheoryRefusal::Duplicate(part));
    }
    let name = name.clone()?;
    match table.add(name) {
        Ok(_) => Ok(()),
        Err(_) => Err(TheoryRefusal::Memory),
    }
}
