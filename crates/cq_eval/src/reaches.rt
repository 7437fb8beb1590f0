//! How many variables a where equation needs, and so when it is tested.
ghost use Rattle.std.specs.Prelude.{◌≡◌, ◌+◌, IfOk, map, length};
ghost use Rattle.cq_theory.specs.Canonical.{below};
ghost use Rattle.cq_theory.specs.Groups.{positions};
ghost use Rattle.cq_eval.specs.Testing.{reach_of_entity as entity_reach, reach_of as type_reach};
ghost use Rattle.cq_eval.specs.Join.{IsLast};
ghost use Rattle.cq_eval.specs.Testing.{reach as equation_reach, stage};

use crate::grouping::grouped;
use cq_base::Seq;
use cq_theory::{EntTerm, Equation, TypeTerm};
use std::alloc::{AllocError, Global};

/// How many of the first variables an entity term needs.
pub(crate) fn reach_of_entity(term: &EntTerm) -> usize
    ensures { result ≡ entity_reach term.now }
{
    term.generator as usize + 1
}

/// How many of the first variables a type term needs.
pub(crate) fn reach_of(term: &TypeTerm) -> usize
    ensures { result ≡ type_reach term.now }
{
    match term {
        TypeTerm::Gen(generator) => *generator as usize + 1,
        TypeTerm::Const(_) => 0,
        TypeTerm::Att(_, term) => reach_of_entity(term),
        TypeTerm::Fun(_, args) => {
            let mut most = 0;
            for arg in args.as_slice() {
                most = reach_of(arg).max(most);
            }
            most
        }
    }
}

/// How many of the first variables a where equation needs.
pub(crate) fn reach(test: &Equation) -> usize
    ensures { result ≡ equation_reach test.now }
{
    match test {
        Equation::Ent(left, right) => reach_of_entity(left).max(reach_of_entity(right)),
        Equation::Typ(left, right) => reach_of(left).max(reach_of(right)),
    }
}

/// When each where equation is tested, if there are `width` variables: as soon as those that it needs are bound.
fn stages(alloc: Global, tests: &[Equation], width: usize) -> Result<Vec<usize>, AllocError>
    ensures { IfOk result (λ made. made.items ≡ map (stage width) tests.now) }
{
    let mut made = Vec::with_capacity(alloc, tests.len())?;
    for test in tests {
        made.push(width.min(reach(test)))?;
    }
    Ok(made)
}

/// The places of the where equations that are tested when so many of the variables with these counts are bound.
pub(crate) fn by_stage(
    alloc: Global,
    tests: &[Equation],
    counts: &[u32],
) -> Result<Seq<Seq<usize>>, AllocError>
    ensures { IfOk result (λ groups. groups ≡ map (positions (map (stage (length counts.now)) tests.now))
        (below (length counts.now + 1))) }
{
    let width = counts.len();
    let stages = stages(alloc, tests, width)?;
    grouped(alloc, width + 1, stages.as_slice())
}

/// How many variables are bound when the last where equation is tested.
pub(crate) fn last_stage(tests: &[Equation], counts: &[u32]) -> usize
    ensures { IsLast tests.now counts.now result }
{
    let mut last = 0;
    for test in tests {
        last = counts.len().min(reach(test)).max(last);
    }
    last
}
