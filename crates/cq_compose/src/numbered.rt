//! Variables named `x1`, `x2` and so on.
ghost use Rattle.std.specs.Prelude.{◌≡◌, ◌++◌, ◌∷◌, [], ◌<◌, ◌^◌, IfOk, OnOk, length, codes, decimal};
ghost use Rattle.cq_compose.specs.Composite.{numbered};

use cq_base::Name;
use itoa::Buffer;
use std::alloc::{AllocError, Global};

/// The name of a variable with a number: `x` and its decimal digits.
pub(crate) fn variable_name(alloc: Global, number: u64) -> Result<Name, AllocError>
    ensures { IfOk result (λ name. name ≡ codes "x" ++ decimal number) }
{
    let mut buffer = Buffer::new();
    let mut text = String::from_str(alloc, "x")?;
    text.push_str(buffer.format(number))?;
    match Name::new(alloc, text.as_str()) {
        Ok(name) => Ok(name),
        Err(_) => Err(AllocError),
    }
}

/// Appends the variable with a number.
fn push_variable(
    alloc: Global,
    number: u64,
    entity: u32,
    made: &mut Vec<(Name, u32)>,
) -> Result<(), AllocError>
    ensures { OnOk result (made.new.items ≡ made.old.items ++ (codes "x" ++ decimal number, entity) ∷ []) }
{
    let name = variable_name(alloc, number)?;
    made.push((name, entity))?;
    Ok(())
}

/// These entities as variables, named `x1`, `x2` and so on.
pub(crate) fn number_entities(
    alloc: Global,
    entities: &[u32],
) -> Result<Vec<(Name, u32)>, AllocError>
    requires { length entities.now < 2 ^ 32 }
    ensures { IfOk result (λ made. made.items ≡ numbered entities.now) }
{
    let mut made = Vec::with_capacity(alloc, entities.len())?;
    let mut number = 1;
    for entity in entities {
        push_variable(alloc, number, *entity, &mut made)?;
        number += 1;
    }
    Ok(made)
}
