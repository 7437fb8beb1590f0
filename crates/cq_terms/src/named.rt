//! Generators of presentations that the program makes: their sorts, and their names `g1`, `g2` and so on.
ghost use Rattle.std.specs.Prelude.{◌≡◌, ◌++◌, ◌∷◌, ◌<◌, ◌^◌, [], IfOk, OnOk, length, map, codes, decimal};
ghost use Rattle.cq_theory.specs.declared.presentation.Sort.TheVariants.{Plain};
ghost use Rattle.cq_theory.specs.Canonical.{named};

use cq_base::Name;
use cq_theory::Sort;
use itoa::Buffer;
use std::alloc::{AllocError, Global};

/// Appends the sorts of the nulls.
pub fn push_null_sorts(nulls: &[u32], made: &mut Vec<Sort>) -> Result<(), AllocError>
    ensures { OnOk result (made.new.items ≡ made.old.items ++ map Plain nulls.now) }
{
    for null in nulls {
        made.push(Sort::Plain(*null))?;
    }
    Ok(())
}

/// The name of a generator with a number: `g` and its decimal digits.
pub fn generator_name(alloc: Global, number: u64) -> Result<Name, AllocError>
    ensures { IfOk result (λ name. name ≡ codes "g" ++ decimal number) }
{
    let mut buffer = Buffer::new();
    let mut text = String::from_str(alloc, "g")?;
    text.push_str(buffer.format(number))?;
    match Name::new(alloc, text.as_str()) {
        Ok(name) => Ok(name),
        Err(_) => Err(AllocError),
    }
}

/// Appends the generator with a number.
fn push_generator(
    alloc: Global,
    number: u64,
    sort: Sort,
    made: &mut Vec<(Name, Sort)>,
) -> Result<(), AllocError>
    ensures { OnOk result (made.new.items ≡ made.old.items ++ (codes "g" ++ decimal number, sort) ∷ []) }
{
    let name = generator_name(alloc, number)?;
    made.push((name, sort))?;
    Ok(())
}

/// The generators of these sorts, named `g1`, `g2` and so on.
pub fn name_generators(alloc: Global, sorts: &[Sort]) -> Result<Vec<(Name, Sort)>, AllocError>
    requires { length sorts.now < 2 ^ 32 }
    ensures { IfOk result (λ made. made.items ≡ named sorts.now) }
{
    let mut made = Vec::with_capacity(alloc, sorts.len())?;
    let mut number = 1;
    for sort in sorts {
        push_generator(alloc, number, *sort, &mut made)?;
        number += 1;
    }
    Ok(made)
}
