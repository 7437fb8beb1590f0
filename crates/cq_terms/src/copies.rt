//! Copies of terms.
ghost use Rattle.std.specs.Prelude.{◌≡◌, IfOk};

use cq_base::Seq;
use cq_theory::{EntTerm, TypeTerm};
use std::alloc::{AllocError, Global};

/// The same entity term.
pub fn copy_entity_term(alloc: Global, term: &EntTerm) -> Result<EntTerm, AllocError>
    ensures { IfOk result (λ made. made ≡ term.now) }
{
    Ok(EntTerm {
        generator: term.generator,
        path: term.path.clone()?,
    })
}

/// The same type term.
pub fn copy_type_term(alloc: Global, term: &TypeTerm) -> Result<TypeTerm, AllocError>
    ensures { IfOk result (λ made. made ≡ term.now) }
{
    match term {
        TypeTerm::Gen(generator) => Ok(TypeTerm::Gen(*generator)),
        TypeTerm::Const(constant) => Ok(TypeTerm::Const(constant.clone()?)),
        TypeTerm::Att(attribute, term) => {
            Ok(TypeTerm::Att(*attribute, copy_entity_term(alloc, term)?))
        }
        TypeTerm::Fun(function, args) => {
            let mut made = Vec::new(alloc);
            for arg in args.as_slice() {
                made.push(copy_type_term(alloc, arg)?)?;
            }
            Ok(TypeTerm::Fun(*function, Seq::from_vec(made)))
        }
    }
}
