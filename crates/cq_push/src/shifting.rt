//! Terms and equations whose generators stand behind others.
ghost use Rattle.std.specs.Prelude.{◌≡◌, ◌+◌, ◌++◌, IfOk, OnOk, map};
ghost use Rattle.cq_transform.specs.Shifted.{shifted_ent, shifted_type, shifted_equation};

use cq_base::Seq;
use cq_theory::{EntTerm, Equation, TypeTerm};
use std::alloc::{AllocError, Global};

/// The number of a generator that has `first` others before it. The sum fits, since there are at most 16,000,000
/// generators together.
fn shifted(first: u32, generator: u32) -> Result<u32, AllocError>
    ensures { IfOk result (λ number. number ≡ first + generator) }
{
    match first.checked_add(generator) {
        Some(number) => Ok(number),
        None => Err(AllocError),
    }
}

/// The entity term with its generator behind `first` others.
pub(crate) fn shift_ent(alloc: Global, first: u32, term: &EntTerm) -> Result<EntTerm, AllocError>
    ensures { IfOk result (λ made. made ≡ shifted_ent first term.now) }
{
    let generator = shifted(first, term.generator)?;
    Ok(EntTerm {
        generator,
        path: term.path.clone()?,
    })
}

/// The type term with its generators behind `first` others.
pub(crate) fn shift_type(alloc: Global, first: u32, term: &TypeTerm) -> Result<TypeTerm, AllocError>
    ensures { IfOk result (λ made. made ≡ shifted_type first term.now) }
{
    match term {
        TypeTerm::Gen(generator) => Ok(TypeTerm::Gen(shifted(first, *generator)?)),
        TypeTerm::Const(constant) => Ok(TypeTerm::Const(constant.clone()?)),
        TypeTerm::Att(attribute, term) => {
            Ok(TypeTerm::Att(*attribute, shift_ent(alloc, first, term)?))
        }
        TypeTerm::Fun(function, args) => {
            let mut made = Vec::new(alloc);
            for arg in args.as_slice() {
                made.push(shift_type(alloc, first, arg)?)?;
            }
            Ok(TypeTerm::Fun(*function, Seq::from_vec(made)))
        }
    }
}

/// The equation with its generators behind `first` others.
fn shift_equation(alloc: Global, first: u32, equation: &Equation) -> Result<Equation, AllocError>
    ensures { IfOk result (λ made. made ≡ shifted_equation first equation.now) }
{
    match equation {
        Equation::Ent(left, right) => {
            let left = shift_ent(alloc, first, left)?;
            Ok(Equation::Ent(left, shift_ent(alloc, first, right)?))
        }
        Equation::Typ(left, right) => {
            let left = shift_type(alloc, first, left)?;
            Ok(Equation::Typ(left, shift_type(alloc, first, right)?))
        }
    }
}

/// Appends equations with their generators behind `first` others.
pub(crate) fn push_shifted(
    alloc: Global,
    first: u32,
    equations: &[Equation],
    made: &mut Vec<Equation>,
) -> Result<(), AllocError>
    ensures { OnOk result (made.new.items ≡ made.old.items ++ map (shifted_equation first) equations.now) }
{
    for equation in equations {
        made.push(shift_equation(alloc, first, equation)?)?;
    }
    Ok(())
}
