//! Terms over generators, of terms as they are written.
ghost use Rattle.std.specs.Prelude.{◌≡◌, IfOk};
ghost use Rattle.cq_terms.specs.Generators.{names_of, sorts_of};
ghost use Rattle.cq_theory.specs.Resolved.{resolved};
ghost use Rattle.cq_theory.specs.Sorts.{Generators};
ghost use Rattle.cq_scope.specs.Firsts.{AreFirstsOf};
ghost use Rattle.cq_scope.specs.Renumbered.{entity_renumbered, type_renumbered, renumbered as term_renumbered};

use crate::names::Firsts;
use cq_base::{Raw, Seq, number_at};
use cq_theory::lookup::build;
use cq_theory::{EntTerm, Schema, Term, TypeTerm, alone, extend};
use std::alloc::{AllocError, Global};

/// An entity term over the generators with these numbers.
fn renumber_entity(alloc: Global, numbers: &[u32], term: &EntTerm) -> Result<EntTerm, AllocError>
    ensures { IfOk result (λ made. made ≡ entity_renumbered numbers.now term.now) }
{
    let generator = number_at(numbers, term.generator as usize);
    extend(alloc, &alone(alloc, generator), term.path.as_slice())
}

/// A type term over the generators with these numbers.
fn renumber_type(alloc: Global, numbers: &[u32], term: &TypeTerm) -> Result<TypeTerm, AllocError>
    ensures { IfOk result (λ made. made ≡ type_renumbered numbers.now term.now) }
{
    match term {
        TypeTerm::Gen(generator) => Ok(TypeTerm::Gen(number_at(numbers, *generator as usize))),
        TypeTerm::Const(constant) => Ok(TypeTerm::Const(constant.clone()?)),
        TypeTerm::Att(attribute, term) => {
            Ok(TypeTerm::Att(*attribute, renumber_entity(alloc, numbers, term)?))
        }
        TypeTerm::Fun(function, args) => {
            let mut made = Vec::new(alloc);
            for arg in args.as_slice() {
                made.push(renumber_type(alloc, numbers, arg)?)?;
            }
            Ok(TypeTerm::Fun(*function, Seq::from_vec(made)))
        }
    }
}

fn renumbered(alloc: Global, numbers: &[u32], term: &Term) -> Result<Term, AllocError>
    ensures { IfOk result (λ made. made ≡ term_renumbered numbers.now term.now) }
{
    match term {
        Term::Ent(term) => Ok(Term::Ent(renumber_entity(alloc, numbers, term)?)),
        Term::Typ(term) => Ok(Term::Typ(renumber_type(alloc, numbers, term)?)),
    }
}

/// The term over generators that a term as it is written stands for, where it breaks no rule. A name in it stands for
/// the first generator that has it.
pub fn build_over(
    alloc: Global,
    schema: &Schema,
    firsts: &Firsts,
    raw: &Raw,
) -> Result<Term, AllocError>
    ensures { (G : Generators) → AreFirstsOf G firsts.now
        → IfOk result (λ term. term ≡ resolved schema.now (names_of G) (sorts_of G) raw.now) }
{
    let sorts = firsts.scope.sorts.as_slice();
    let built = build(alloc, schema, &firsts.scope.names, sorts, raw)?;
    renumbered(alloc, firsts.numbers.as_slice(), &built)
}
