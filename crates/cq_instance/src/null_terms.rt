//! A term for each null.
//!
//! Where the tables were given, this is the null's generator. Else it is the first node that means the null: the nodes
//! are gone through once, in their order, each with its value, and a node is kept only where its value is a null of
//! which no term is known yet. What is kept has the size of the answer.
ghost use Rattle.std.specs.Prelude.{◌≡◌, IfOk, length, map};
ghost use Rattle.cq_theory.specs.Canonical.{below};
ghost use Rattle.cq_instance.specs.InstanceData.{IsCanonical};
ghost use Rattle.cq_instance.specs.Spelling.{first_node, null_term_of, null_terms_of, own_term};

mod cells;
mod known;
mod sides;

use crate::instance::Instance;
use cells::{learn_cells, learn_generators};
use cq_terms::copy_type_term;
use cq_theory::{Con, TypeTerm};
use known::{nothing_known, terms_of};
use sides::{learn_equations, learn_observations};
use std::alloc::{AllocError, Global};

impl Instance {
    /// A term for each null, by its label: in an instance of given tables the null's generator, and else the first
    /// node that means it. It takes one walk over the nodes, so whoever asks for several terms asks here.
    pub fn null_terms(&self, alloc: Global) -> Result<Vec<TypeTerm>, AllocError>
        ensures { IfOk result (λ terms. terms.items ≡ null_terms_of self.now) }
    {
        if self.is_given() {
            return generators_of_nulls(alloc, self);
        }
        first_nodes(alloc, self)
    }

    /// The term of a null: in an instance of given tables its generator, and else the first node that means it. Past
    /// the nulls it is the first constant. It costs as much as the terms of all nulls.
    pub fn null_term(&self, alloc: Global, label: u64) -> Result<TypeTerm, AllocError>
        ensures { IfOk result (λ term. term ≡ null_term_of self.now label) }
    {
        let terms = self.null_terms(alloc)?;
        match terms.as_slice().get(label as usize) {
            Some(term) => copy_type_term(alloc, term),
            None => Ok(TypeTerm::Const(Con::Named(0))),
        }
    }
}

/// The generator of each null of an instance of given tables: those of the nulls come last.
fn generators_of_nulls(alloc: Global, instance: &Instance) -> Result<Vec<TypeTerm>, AllocError>
    requires { IsCanonical instance.now }
    ensures { IfOk result (λ terms. terms.items ≡ map (own_term instance.now)
        (below (length instance.now.tables.algebra.nulls))) }
{
    let count = instance.algebra().nulls.len();
    let first = instance.presentation().generators.len() - count;
    let mut terms = Vec::with_capacity(alloc, count)?;
    for label in 0..count {
        terms.push(TypeTerm::Gen((first + label) as u32))?;
    }
    Ok(terms)
}

/// The first node that means each null, and the first constant where none does.
fn first_nodes(alloc: Global, instance: &Instance) -> Result<Vec<TypeTerm>, AllocError>
    ensures { IfOk result (λ terms. terms.items ≡ map (first_node instance.now)
        (below (length instance.now.tables.algebra.nulls))) }
{
    let mut known = nothing_known(alloc, instance.algebra().nulls.len())?;
    learn_cells(alloc, instance, &mut known)?;
    learn_generators(instance, &mut known);
    learn_equations(alloc, instance, &mut known)?;
    learn_observations(alloc, instance, &mut known)?;
    terms_of(alloc, known)
}
