//! Terms over a block of the second query as terms over the composite's block.
ghost use Rattle.std.specs.Prelude.{◌≡◌, ◌++◌, IfOk, OnOk, map};
ghost use Rattle.std.specs.List.{flat_map};
ghost use Rattle.cq_query.specs.Puts.{put_type, put_equation};
ghost use Rattle.cq_query.specs.Translation.{attribute_term};
ghost use Rattle.cq_compose.specs.Composite.{translated, translated_test};
ghost use Rattle.cq_compose.specs.Frame.{IsFrame, terms_of};

use crate::frame::{Frame, component_count, make_component};
use cq_base::Seq;
use cq_query::push_equal_terms;
use cq_query::translation::found_term;
use cq_theory::{Con, EntTerm, Equation, TypeTerm};
use std::alloc::{AllocError, Global};

/// Appends the components of a term.
pub(crate) fn push_components(
    alloc: Global,
    frame: &Frame,
    term: &EntTerm,
    made: &mut Vec<EntTerm>,
) -> Result<(), AllocError>
    requires { IsFrame frame.now }
    ensures { OnOk result (made.new.items ≡ made.old.items ++ terms_of frame.now term.now) }
{
    for place in 0..component_count(frame, term) {
        made.push(make_component(alloc, frame, term, place, &[])?)?;
    }
    Ok(())
}

/// The components of these terms, term by term.
pub(crate) fn all_components(
    alloc: Global,
    frame: &Frame,
    terms: &[EntTerm],
) -> Result<Vec<EntTerm>, AllocError>
    requires { IsFrame frame.now }
    ensures { IfOk result (λ made. made.items ≡ flat_map (terms_of frame.now) terms.now) }
{
    let mut made = Vec::new(alloc);
    for term in terms {
        push_components(alloc, frame, term, &mut made)?;
    }
    Ok(made)
}

/// A term of the first query, with the components of a term in place of its generators.
fn put_components(
    alloc: Global,
    frame: &Frame,
    at: &EntTerm,
    term: &TypeTerm,
) -> Result<TypeTerm, AllocError>
    requires { IsFrame frame.now }
    ensures { IfOk result (λ made. made ≡ put_type (terms_of frame.now at.now) term.now) }
{
    match term {
        TypeTerm::Gen(n) => Ok(TypeTerm::Gen(*n)),
        TypeTerm::Const(constant) => Ok(TypeTerm::Const(constant.clone()?)),
        TypeTerm::Att(attribute, term) => {
            let place = term.generator as usize;
            let term = make_component(alloc, frame, at, place, term.path.as_slice())?;
            Ok(TypeTerm::Att(*attribute, term))
        }
        TypeTerm::Fun(function, args) => {
            let mut made = Vec::new(alloc);
            for arg in args.as_slice() {
                made.push(put_components(alloc, frame, at, arg)?)?;
            }
            Ok(TypeTerm::Fun(*function, Seq::from_vec(made)))
        }
    }
}

/// The first query's term of an attribute, on the components of a term.
fn put_attribute(
    alloc: Global,
    frame: &Frame,
    at: &EntTerm,
    attribute: u32,
) -> Result<TypeTerm, AllocError>
    requires { IsFrame frame.now }
    ensures { IfOk result (λ made. made
        ≡ put_type (terms_of frame.now at.now) (attribute_term frame.now.first.now attribute)) }
{
    match found_term(frame.first, attribute) {
        Some(term) => put_components(alloc, frame, at, term),
        None => Ok(TypeTerm::Const(Con::Named(0))),
    }
}

/// A type term, with the first query's terms for attributes on the components.
pub(crate) fn translate(
    alloc: Global,
    frame: &Frame,
    term: &TypeTerm,
) -> Result<TypeTerm, AllocError>
    requires { IsFrame frame.now }
    ensures { IfOk result (λ made. made
        ≡ translated frame.now.first.now frame.now.second.now frame.now.entity term.now) }
{
    match term {
        TypeTerm::Gen(n) => Ok(TypeTerm::Gen(*n)),
        TypeTerm::Const(constant) => Ok(TypeTerm::Const(constant.clone()?)),
        TypeTerm::Att(attribute, at) => put_attribute(alloc, frame, at, *attribute),
        TypeTerm::Fun(function, args) => {
            let mut made = Vec::new(alloc);
            for arg in args.as_slice() {
                made.push(translate(alloc, frame, arg)?)?;
            }
            Ok(TypeTerm::Fun(*function, Seq::from_vec(made)))
        }
    }
}

/// A where equation of the first query, with the components of a term in place of its generators.
fn put_test(
    alloc: Global,
    frame: &Frame,
    at: &EntTerm,
    test: &Equation,
) -> Result<Equation, AllocError>
    requires { IsFrame frame.now }
    ensures { IfOk result (λ made. made ≡ put_equation (terms_of frame.now at.now) test.now) }
{
    match test {
        Equation::Ent(left, right) => {
            let place = left.generator as usize;
            let made = make_component(alloc, frame, at, place, left.path.as_slice())?;
            let place = right.generator as usize;
            let other = make_component(alloc, frame, at, place, right.path.as_slice())?;
            Ok(Equation::Ent(made, other))
        }
        Equation::Typ(left, right) => {
            let left = put_components(alloc, frame, at, left)?;
            Ok(Equation::Typ(left, put_components(alloc, frame, at, right)?))
        }
    }
}

/// Appends where equations of the first query, with the components of a term in place of their generators.
pub(crate) fn push_put_tests(
    alloc: Global,
    frame: &Frame,
    at: &EntTerm,
    tests: &[Equation],
    made: &mut Vec<Equation>,
) -> Result<(), AllocError>
    requires { IsFrame frame.now }
    ensures { OnOk result (made.new.items
        ≡ made.old.items ++ map (put_equation (terms_of frame.now at.now)) tests.now) }
{
    for test in tests {
        made.push(put_test(alloc, frame, at, test)?)?;
    }
    Ok(())
}

/// Appends the equations that a where equation of the second query gives.
pub(crate) fn push_translated_test(
    alloc: Global,
    frame: &Frame,
    test: &Equation,
    made: &mut Vec<Equation>,
) -> Result<(), AllocError>
    requires { IsFrame frame.now }
    ensures { OnOk result (made.new.items ≡ made.old.items
        ++ translated_test frame.now.first.now frame.now.second.now frame.now.entity test.now) }
{
    match test {
        Equation::Ent(left, right) => {
            let mut terms = Vec::new(alloc);
            push_components(alloc, frame, left, &mut terms)?;
            let mut others = Vec::new(alloc);
            push_components(alloc, frame, right, &mut others)?;
            push_equal_terms(alloc, terms.as_slice(), others.as_slice(), made)
        }
        Equation::Typ(left, right) => {
            let left = translate(alloc, frame, left)?;
            made.push(Equation::Typ(left, translate(alloc, frame, right)?))?;
            Ok(())
        }
    }
}
