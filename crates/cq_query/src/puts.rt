//! Terms with other terms in place of their generators.
ghost use Rattle.std.specs.Prelude.{◌≡◌, ◌+◌, ◌≤◌, ◌^◌, ◌++◌, map, IfOk, OnOk};
ghost use Rattle.cq_query.specs.Puts.{generators_from, put, put_type, put_equation};

use cq_base::Seq;
use cq_theory::{EntTerm, Equation, TypeTerm, alone, extend};
use std::alloc::{AllocError, Global};

/// That many generators, from `first` on.
pub(crate) fn generators(alloc: Global, first: u32, count: u32) -> Result<Vec<EntTerm>, AllocError>
    requires { first + count ≤ 2 ^ 32 }
    ensures { IfOk result (λ made. made.items ≡ generators_from first count) }
{
    let mut made = Vec::new(alloc);
    for number in 0..count {
        made.push(alone(alloc, first + number))?;
    }
    Ok(made)
}

/// The entity term with these terms in place of its generator.
pub(crate) fn put_entity(
    alloc: Global,
    terms: &[EntTerm],
    term: &EntTerm,
) -> Result<EntTerm, AllocError>
    ensures { IfOk result (λ made. made ≡ put terms.now term.now) }
{
    match terms.get(term.generator as usize) {
        Some(at) => extend(alloc, at, term.path.as_slice()),
        None => extend(alloc, &alone(alloc, 0), term.path.as_slice()),
    }
}

/// Each of the entity terms with these terms in place of its generator.
pub(crate) fn put_each(
    alloc: Global,
    terms: &[EntTerm],
    each: &[EntTerm],
) -> Result<Vec<EntTerm>, AllocError>
    ensures { IfOk result (λ made. made.items ≡ map (put terms.now) each.now) }
{
    let mut made = Vec::new(alloc);
    for term in each {
        made.push(put_entity(alloc, terms, term)?)?;
    }
    Ok(made)
}

/// The type term with these terms in place of its entity generators.
pub(crate) fn put_into_type(
    alloc: Global,
    terms: &[EntTerm],
    term: &TypeTerm,
) -> Result<TypeTerm, AllocError>
    ensures { IfOk result (λ made. made ≡ put_type terms.now term.now) }
{
    match term {
        TypeTerm::Gen(n) => Ok(TypeTerm::Gen(*n)),
        TypeTerm::Const(constant) => Ok(TypeTerm::Const(constant.clone()?)),
        TypeTerm::Att(attribute, term) => {
            Ok(TypeTerm::Att(*attribute, put_entity(alloc, terms, term)?))
        }
        TypeTerm::Fun(function, args) => {
            let mut made = Vec::new(alloc);
            for arg in args.as_slice() {
                made.push(put_into_type(alloc, terms, arg)?)?;
            }
            Ok(TypeTerm::Fun(*function, Seq::from_vec(made)))
        }
    }
}

/// The equation with these terms in place of its entity generators.
fn put_into_equation(
    alloc: Global,
    terms: &[EntTerm],
    equation: &Equation,
) -> Result<Equation, AllocError>
    ensures { IfOk result (λ made. made ≡ put_equation terms.now equation.now) }
{
    match equation {
        Equation::Ent(left, right) => {
            let left = put_entity(alloc, terms, left)?;
            Ok(Equation::Ent(left, put_entity(alloc, terms, right)?))
        }
        Equation::Typ(left, right) => {
            let left = put_into_type(alloc, terms, left)?;
            Ok(Equation::Typ(left, put_into_type(alloc, terms, right)?))
        }
    }
}

/// Appends each of the equations with these terms in place of its entity generators.
pub(crate) fn push_equations(
    alloc: Global,
    terms: &[EntTerm],
    equations: &[Equation],
    made: &mut Vec<Equation>,
) -> Result<(), AllocError>
    ensures { OnOk result (made.new.items ≡ made.old.items ++ map (put_equation terms.now) equations.now) }
{
    for equation in equations {
        made.push(put_into_equation(alloc, terms, equation)?)?;
    }
    Ok(())
}
