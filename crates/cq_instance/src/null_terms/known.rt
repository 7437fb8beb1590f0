//! The terms of nulls that are known so far.
ghost use Rattle.std.specs.Prelude.{◌≡◌, true, IfOk, None, map};
ghost use Rattle.std.specs.Option.{unwrap_or};
ghost use Rattle.cq_theory.specs.Canonical.{below};
ghost use Rattle.cq_theory.specs.declared.constant.Con.TheVariants.{Named};
ghost use Rattle.cq_theory.specs.declared.term.TypeTerm.TheVariants as any_term;
ghost use Rattle.cq_instance.specs.Learning.{lacks, learned};

use cq_theory::{Con, TypeTerm, Value};
use std::alloc::{AllocError, Global};

/// No term of any null.
pub fn nothing_known(alloc: Global, nulls: usize) -> Result<Vec<Option<TypeTerm>>, AllocError>
    ensures { IfOk result (λ known. known.items ≡ map (λ _. None) (below nulls)) }
{
    let mut known = Vec::with_capacity(alloc, nulls)?;
    for _null in 0..nulls {
        known.push(None)?;
    }
    Ok(known)
}

/// Whether a value is a null of which no term is known.
pub fn is_unknown(known: &[Option<TypeTerm>], value: &Value) -> bool
    ensures { result ≡ lacks known.now value.now }
{
    match value {
        Value::Const(_) => false,
        Value::Null(label) => match known.get(*label as usize) {
            Some(None) => true,
            Some(Some(_)) => false,
            None => false,
        },
        Value::Fun(_, _) => false,
    }
}

/// Keeps a term for a null of which none is known.
pub fn learn(known: &mut Vec<Option<TypeTerm>>, value: &Value, term: TypeTerm)
    requires { lacks known.old.items value.now ≡ true }
    ensures { known.new.items ≡ learned value.now term known.old.items }
{
    match value {
        Value::Const(_) => (),
        Value::Null(label) => known[*label as usize] = Some(term),
        Value::Fun(_, _) => (),
    }
}

/// The terms, with the first constant for a null of which none is known.
pub fn terms_of(alloc: Global, known: Vec<Option<TypeTerm>>) -> Result<Vec<TypeTerm>, AllocError>
    ensures { IfOk result (λ terms. terms.items ≡ map (λ term. unwrap_or term (any_term.Const (Named 0)))
        known.items) }
{
    known
        .into_iter()
        .map(|term| term.unwrap_or(TypeTerm::Const(Con::Named(0))))
        .collect(alloc)
}
