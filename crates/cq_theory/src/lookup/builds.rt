//! Terms made of terms as they are written.
ghost use Rattle.std.specs.Prelude.{◌≡◌, ◌∷◌, [], IfOk, IfErr, IfSome, IfNone, Some, map, slice_get};
ghost use Rattle.cq_theory.specs.EntTerm.{extended};
ghost use Rattle.cq_theory.specs.Parts.{equation_of};
ghost use Rattle.cq_theory.specs.Resolve.{word_constant, symbol_of, term_fault as fault_of_term};
ghost use Rattle.cq_theory.specs.Resolved.{resolved, type_term_in, entity_term_in, first_entity_term, generator_term};
ghost use Rattle.cq_theory.specs.Resolved.{constant_term, word_term, symbol_term};

use crate::constant::Con;
use crate::lookup::Symbol;
use crate::lookup::faults::term_fault;
use crate::path::Path;
use crate::presentation::{Equation, Sort};
use crate::refusal::TermRefusal;
use crate::schema::Schema;
use crate::term::{EntTerm, Term, TypeTerm};
use cq_base::{Name, Names, Raw, Seq};
use std::alloc::{AllocError, Global};

/// The term with its names looked up. The name with number n stands for generator n.
pub fn resolve(
    alloc: Global,
    schema: &Schema,
    names: &Names,
    sorts: &[Sort],
    raw: &Raw,
) -> Result<Term, TermRefusal>
    // Where the term breaks a rule, the least such rule is answered.
    ensures broken { IfSome (fault_of_term schema.now names.now sorts.now raw.now) (λ rule. result ≡ Err rule) }
    ensures term { IfOk result (λ term. term ≡ resolved schema.now names.now sorts.now raw.now) }
    ensures memory { IfNone (fault_of_term schema.now names.now sorts.now raw.now)
        (IfErr result (λ refusal. refusal ≡ TermRefusal.Memory)) }
{
    match term_fault(schema, names, sorts, raw) {
        Some(rule) => Err(rule),
        None => match build(alloc, schema, names, sorts, raw) {
            Ok(term) => Ok(term),
            Err(_) => Err(TermRefusal::Memory),
        },
    }
}

pub(crate) fn generator(number: u32, sort: Option<Sort>) -> Term
    ensures { result ≡ generator_term number sort }
{
    match sort {
        Some(Sort::Entity(_)) => Term::Ent(EntTerm {
            generator: number,
            path: Path::empty(),
        }),
        Some(Sort::Plain(_)) => Term::Typ(TypeTerm::Gen(number)),
        None => Term::Typ(TypeTerm::Gen(number)),
    }
}

fn constant(constant: Option<Con>) -> Term
    ensures { result ≡ constant_term constant }
{
    match constant {
        Some(constant) => Term::Typ(TypeTerm::Const(constant)),
        None => Term::Typ(TypeTerm::Const(Con::Named(0))),
    }
}

/// The constant of a word.
fn find_word(schema: &Schema, word: &Name) -> Option<Con>
    ensures { result ≡ word_constant schema.now word.now }
{
    match schema.find_constant(word) {
        Some(number) => Some(Con::Named(number)),
        None => None,
    }
}

/// A word, which is a generator where there is one of that name, and else a constant.
fn word(sorts: &[Sort], number: Option<u32>, other: Option<Con>) -> Term
    ensures { result ≡ word_term sorts.now number other }
{
    match number {
        Some(number) => generator(number, sorts.get(number as usize).copied()),
        None => constant(other),
    }
}

/// The type term, which is there where the whole term breaks no rule.
pub fn type_term(term: Term) -> TypeTerm
    ensures { result ≡ type_term_in term }
{
    match term {
        Term::Typ(term) => term,
        Term::Ent(_) => TypeTerm::Const(Con::Named(0)),
    }
}

/// The entity term, which is there where the whole term breaks no rule.
pub fn entity_term(term: Term) -> EntTerm
    ensures { result ≡ entity_term_in term }
{
    match term {
        Term::Ent(term) => term,
        Term::Typ(_) => EntTerm {
            generator: 0,
            path: Path::empty(),
        },
    }
}

/// An equation of two terms of one kind, which they are where the parts break no rule.
pub fn make_equation(left: Term, right: Term) -> Equation
    ensures { result ≡ equation_of left right }
{
    match (left, right) {
        (Term::Ent(left), Term::Ent(right)) => Equation::Ent(left, right),
        (Term::Typ(left), Term::Typ(right)) => Equation::Typ(left, right),
        _ => Equation::Typ(
            TypeTerm::Const(Con::Named(0)),
            TypeTerm::Const(Con::Named(0)),
        ),
    }
}

/// The term with one more foreign key.
pub(crate) fn with_key(alloc: Global, term: &EntTerm, key: u32) -> Result<EntTerm, AllocError>
    ensures { IfOk result (λ made. made ≡ extended term.now (key ∷ [])) }
{
    Ok(EntTerm {
        generator: term.generator,
        path: term.path.followed_by(alloc, &[key])?,
    })
}

#[cycle(build)]
pub fn build(
    alloc: Global,
    schema: &Schema,
    names: &Names,
    sorts: &[Sort],
    raw: &Raw,
) -> Result<Term, AllocError>
    ensures { IfOk result (λ term. term ≡ resolved schema.now names.now sorts.now raw.now) }
{
    match raw {
        Raw::Word(name) => Ok(word(sorts, names.find(name), find_word(schema, name))),
        Raw::Text(name) => Ok(constant(schema.find_text(name)?)),
        Raw::App(name, args) => {
            let term = build_application(alloc, schema, names, sorts, name, args.as_slice())?;
            Ok(term)
        }
    }
}

#[cycle(build)]
fn build_application(
    alloc: Global,
    schema: &Schema,
    names: &Names,
    sorts: &[Sort],
    name: &Name,
    args: &[Raw],
) -> Result<Term, AllocError>
    ensures { IfOk result (λ term. term ≡ symbol_term (symbol_of schema.now name.now)
        (map (resolved schema.now names.now sorts.now) args.now)) }
{
    match schema.find_symbol(name) {
        Some(Symbol::Function(function)) => {
            let args = build_args(alloc, schema, names, sorts, args)?;
            Ok(Term::Typ(TypeTerm::Fun(function, Seq::from_vec(args))))
        }
        Some(Symbol::Key(key)) => {
            let term = build_first(alloc, schema, names, sorts, args)?;
            Ok(Term::Ent(with_key(alloc, &term, key)?))
        }
        Some(Symbol::Attribute(attribute)) => {
            let term = build_first(alloc, schema, names, sorts, args)?;
            Ok(Term::Typ(TypeTerm::Att(attribute, term)))
        }
        None => Ok(Term::Typ(TypeTerm::Const(Con::Named(0)))),
    }
}

#[cycle(build)]
fn build_args(
    alloc: Global,
    schema: &Schema,
    names: &Names,
    sorts: &[Sort],
    args: &[Raw],
) -> Result<Vec<TypeTerm>, AllocError>
    ensures { IfOk result (λ terms. terms.items ≡ map type_term_in
        (map (resolved schema.now names.now sorts.now) args.now)) }
{
    let mut terms = Vec::new(alloc);
    for arg in args {
        let term = build(alloc, schema, names, sorts, arg)?;
        terms.push(type_term(term))?;
    }
    Ok(terms)
}

#[cycle(build)]
fn build_first(
    alloc: Global,
    schema: &Schema,
    names: &Names,
    sorts: &[Sort],
    args: &[Raw],
) -> Result<EntTerm, AllocError>
    ensures { IfOk result (λ term. term ≡ first_entity_term (map (resolved schema.now names.now sorts.now) args.now)) }
{
    match args.first() {
        Some(arg) => {
            let term = build(alloc, schema, names, sorts, arg)?;
            Ok(entity_term(term))
        }
        None => Ok(EntTerm {
            generator: 0,
            path: Path::empty(),
        }),
    }
}
