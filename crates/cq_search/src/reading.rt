//! Nodes as terms.
use crate::halt::Halt;
use crate::node::{Node, Symbol};
use crate::terms::Terms;
use cq_base::Seq;
use cq_theory::{Con, EntTerm, Equation, Path, TypeTerm};
use std::alloc::Global;

/// The equation between two nodes.
pub fn equation_of(alloc: Global, terms: &Terms, left: u64, right: u64) -> Result<Equation, Halt> {
    if terms.entity(left).is_some() {
        let left = entity_term_of(alloc, terms, left)?;
        let right = entity_term_of(alloc, terms, right)?;
        return Ok(Equation::Ent(left, right));
    }
    let left = type_term_of(alloc, terms, left, u64::MAX)?;
    let right = type_term_of(alloc, terms, right, u64::MAX)?;
    Ok(Equation::Typ(left, right))
}

/// The term of an entity that a node is.
pub fn entity_term_of(alloc: Global, terms: &Terms, number: u64) -> Result<EntTerm, Halt> {
    let mut path = Vec::new(alloc);
    let mut here = number;
    for _turn in 0..u64::MAX {
        let node = terms.node(here)?;
        match node.symbol {
            Symbol::Generator(generator) => {
                path.reverse();
                return Ok(EntTerm {
                    generator,
                    path: Path::from_vec(path)?,
                });
            }
            Symbol::Key(key) => {
                path.push(key)?;
                here = only_argument(node)?;
            }
            _ => return Err(Halt::Absent),
        }
    }
    Err(Halt::Absent)
}

/// The term of a type that a node is, at most this deep.
fn type_term_of(alloc: Global, terms: &Terms, number: u64, depth: u64) -> Result<TypeTerm, Halt> {
    if depth == 0 {
        return Err(Halt::Absent);
    }
    let node = terms.node(number)?;
    match node.symbol {
        Symbol::Generator(generator) => Ok(TypeTerm::Gen(generator)),
        Symbol::Constant(constant) => Ok(TypeTerm::Const(Con::Named(constant))),
        Symbol::Text(text) => Ok(TypeTerm::Const(Con::Open(terms.text(text)?.clone()?))),
        Symbol::Attribute(attribute) => {
            let at = only_argument(node)?;
            Ok(TypeTerm::Att(attribute, entity_term_of(alloc, terms, at)?))
        }
        Symbol::Function(function) => {
            let mut arguments = Vec::new(alloc);
            for argument in node.arguments.as_slice() {
                arguments.push(type_term_of(alloc, terms, *argument, depth - 1)?)?;
            }
            Ok(TypeTerm::Fun(function, Seq::from_vec(arguments)))
        }
        Symbol::Key(_) => Err(Halt::Absent),
    }
}

/// The argument of a node that has one.
fn only_argument(node: &Node) -> Result<u64, Halt> {
    match node.arguments.as_slice().first() {
        Some(argument) => Ok(*argument),
        None => Err(Halt::Absent),
    }
}
