//! The generators that are the first of their names.
ghost use Rattle.std.specs.Prelude.{◌≡◌, ◌≤◌, ◌<◌, ◌-◌, ◌^◌, ◌++◌, ◌∷◌, [], IfOk, length};
ghost use Rattle.cq_theory.specs.Sorts.{Generators};
ghost use Rattle.cq_scope.specs.Firsts.{AreFirsts, AreFirstsOf};

use cq_base::{Name, Names, Seq};
use cq_theory::Sort;
use std::alloc::{AllocError, Global};

/// Names, and the sort that each stands for.
pub struct Scope {
    pub names: Names,
    pub sorts: Seq<Sort>,
}

impl Drop for Scope {
    fn drop(self) {
        let Self { names: _, sorts: _ } = self;
    }
}

/// The names of generators, with the sort and the number of the first generator that has each.
pub struct Firsts {
    pub scope: Scope,
    pub numbers: Seq<u32>,
}

impl Drop for Firsts {
    fn drop(self) {
        let Self {
            scope: _,
            numbers: _,
        } = self;
    }
}

/// Adds a name that isn't there.
fn add_name(names: &mut Names, name: &Name) -> Result<(), AllocError>
    requires { length names.old < 2 ^ 32 - 1 }
    ensures { IfOk result (λ _. names.new ≡ names.old ++ name.now ∷ []) }
{
    match names.add(name.clone()?) {
        Ok(_) => Ok(()),
        Err(_) => Err(AllocError),
    }
}

/// Adds generator `number`, unless one before it has its name.
fn add_generator(
    names: &mut Names,
    sorts: &mut Vec<Sort>,
    numbers: &mut Vec<u32>,
    number: u32,
    generator: &(Name, Sort),
) -> Result<(), AllocError>
    requires { length names.old < 2 ^ 32 - 1 }
    ensures { IfOk result (λ _. (G : Generators) → number ≡ length G
        → AreFirsts G names.old sorts.old.items numbers.old.items
        → AreFirsts (G ++ generator.now ∷ []) names.new sorts.new.items numbers.new.items) }
{
    if names.find(&generator.0).is_some() {
        return Ok(());
    }
    add_name(names, &generator.0)?;
    sorts.push(generator.1)?;
    numbers.push(number)?;
    Ok(())
}

/// The names of generators. Of two generators with one name it stands for the first.
pub fn firsts_of(alloc: Global, generators: &[(Name, Sort)]) -> Result<Firsts, AllocError>
    requires { length generators.now ≤ 16000000 }
    ensures { IfOk result (AreFirstsOf generators.now) }
{
    let mut names = Names::new(alloc);
    let mut sorts = Vec::new(alloc);
    let mut numbers = Vec::new(alloc);
    for (number, generator) in generators.iter().enumerate() {
        add_generator(
            &mut names,
            &mut sorts,
            &mut numbers,
            number as u32,
            generator,
        )?;
    }
    Ok(Firsts {
        scope: Scope {
            names,
            sorts: Seq::from_vec(sorts),
        },
        numbers: Seq::from_vec(numbers),
    })
}
