//! Terms are put into a graph.
use crate::forest::Reason;
use crate::graph::Graph;
use crate::halt::Halt;
use crate::hashing::hashing_of;
use crate::near::Near;
use crate::node::{Node, Symbol};
use cq_base::Hashing;
use cq_theory::{EntTerm, Equation, Presentation, Schema, Sort, TypeTerm};
use smallvec::SmallVec;
use std::alloc::Global;

/// What is wanted of a term: to be there itself, or that any equal one is there.
#[derive(Clone, Copy)]
pub enum Wanted {
    Itself,
    AnyEqual,
}

impl Wanted {
    fn put(self, graph: &mut Graph, node: Node, entity: Option<u32>) -> Result<u64, Halt> {
        match self {
            Wanted::Itself => graph.put(node, entity),
            Wanted::AnyEqual => graph.put_like(node, entity),
        }
    }
}

/// A graph of the generators, by their numbers, and of the equations of a presentation, which are closed.
pub fn graph_of(
    alloc: Global,
    schema: &Schema,
    presentation: &Presentation,
) -> Result<Graph, Halt> {
    let count = presentation.generators.len();
    let mut graph = Graph::new(alloc, hashing_of(presentation), count)?;
    put_generators(alloc, &mut graph, presentation)?;
    put_equations(alloc, &mut graph, schema, presentation)?;
    graph.close()?;
    Ok(graph)
}

/// A graph of some generators of a presentation and of some of its equations, in which no others stand; they are
/// closed. So few need no key.
pub fn graph_near(
    alloc: Global,
    schema: &Schema,
    presentation: &Presentation,
    near: &Near,
) -> Result<Graph, Halt> {
    let count = presentation.generators.len();
    let mut graph = Graph::new(alloc, Hashing::new(), count)?;
    for number in near.generators.as_slice() {
        if let Some(generator) = presentation.generators.as_slice().get(*number as usize) {
            put_generator(alloc, &mut graph, *number, generator.1)?;
        }
    }
    for number in near.equations.as_slice() {
        if let Some(equation) = presentation.equations.as_slice().get(*number as usize) {
            put_equation(alloc, &mut graph, schema, u64::from(*number), equation)?;
        }
    }
    graph.close()?;
    Ok(graph)
}

fn put_generators(
    alloc: Global,
    graph: &mut Graph,
    presentation: &Presentation,
) -> Result<(), Halt> {
    for (number, generator) in presentation.generators.as_slice().iter().enumerate() {
        let Ok(number) = u32::try_from(number) else {
            return Err(Halt::Absent);
        };
        put_generator(alloc, graph, number, generator.1)?;
    }
    Ok(())
}

fn put_generator(alloc: Global, graph: &mut Graph, number: u32, sort: Sort) -> Result<(), Halt> {
    let entity = match sort {
        Sort::Entity(entity) => Some(entity),
        Sort::Plain(_) => None,
    };
    graph.put_generator(number, leaf(alloc, Symbol::Generator(number)), entity)
}

fn put_equations(
    alloc: Global,
    graph: &mut Graph,
    schema: &Schema,
    presentation: &Presentation,
) -> Result<(), Halt> {
    for (number, equation) in presentation.equations.as_slice().iter().enumerate() {
        put_equation(alloc, graph, schema, number as u64, equation)?;
    }
    Ok(())
}

fn put_equation(
    alloc: Global,
    graph: &mut Graph,
    schema: &Schema,
    number: u64,
    equation: &Equation,
) -> Result<(), Halt> {
    let (left, right) = put_sides(alloc, graph, schema, equation)?;
    graph.equate(left, right, Reason::Given(number))?;
    Ok(())
}

/// Puts both sides of an equation in.
pub fn put_sides(
    alloc: Global,
    graph: &mut Graph,
    schema: &Schema,
    equation: &Equation,
) -> Result<(u64, u64), Halt> {
    let wanted = Wanted::Itself;
    match equation {
        Equation::Ent(left, right) => {
            let left = put_entity_term(alloc, graph, schema, left, None, wanted)?;
            let right = put_entity_term(alloc, graph, schema, right, None, wanted)?;
            Ok((left, right))
        }
        Equation::Typ(left, right) => {
            let left = put_type_term(alloc, graph, schema, left, None, wanted)?;
            let right = put_type_term(alloc, graph, schema, right, None, wanted)?;
            Ok((left, right))
        }
    }
}

/// Puts a term of an entity in, with a node in the place of its generator, if there is one.
pub fn put_entity_term(
    alloc: Global,
    graph: &mut Graph,
    schema: &Schema,
    term: &EntTerm,
    at: Option<u64>,
    wanted: Wanted,
) -> Result<u64, Halt> {
    let start = match at {
        Some(node) => node,
        None => graph.generator(term.generator)?,
    };
    put_path(alloc, graph, schema, start, term.path.as_slice(), wanted)
}

/// Puts in what the foreign keys of a path lead to from a node.
pub fn put_path(
    alloc: Global,
    graph: &mut Graph,
    schema: &Schema,
    start: u64,
    path: &[u32],
    wanted: Wanted,
) -> Result<u64, Halt> {
    let mut here = start;
    for key in path {
        here = put_key(alloc, graph, schema, here, *key, wanted)?;
    }
    Ok(here)
}

/// Puts in what a foreign key leads to from a node.
pub fn put_key(
    alloc: Global,
    graph: &mut Graph,
    schema: &Schema,
    node: u64,
    key: u32,
    wanted: Wanted,
) -> Result<u64, Halt> {
    let Some(edge) = schema.keys.as_slice().get(key as usize) else {
        return Err(Halt::Absent);
    };
    let node = unary(alloc, Symbol::Key(key), node)?;
    wanted.put(graph, node, Some(edge.to))
}

/// Puts a term of a type in, with a node in the place of the generator of each entity term in it, if there is one.
pub fn put_type_term(
    alloc: Global,
    graph: &mut Graph,
    schema: &Schema,
    term: &TypeTerm,
    at: Option<u64>,
    wanted: Wanted,
) -> Result<u64, Halt> {
    match term {
        TypeTerm::Gen(number) => graph.generator(*number),
        TypeTerm::Const(constant) => {
            let symbol = graph.terms.put_constant(constant)?;
            graph.put(leaf(alloc, symbol), None)
        }
        TypeTerm::Att(attribute, term) => {
            let argument = put_entity_term(alloc, graph, schema, term, at, wanted)?;
            let node = unary(alloc, Symbol::Attribute(*attribute), argument)?;
            wanted.put(graph, node, None)
        }
        TypeTerm::Fun(function, args) => {
            let mut arguments = SmallVec::with_capacity(alloc, args.len())?;
            for term in args.as_slice() {
                arguments.push(put_type_term(alloc, graph, schema, term, at, wanted)?)?;
            }
            let node = Node {
                symbol: Symbol::Function(*function),
                arguments,
            };
            wanted.put(graph, node, None)
        }
    }
}

/// A node without arguments.
fn leaf(alloc: Global, symbol: Symbol) -> Node {
    Node {
        symbol,
        arguments: SmallVec::new(alloc),
    }
}

/// A node with one argument.
fn unary(alloc: Global, symbol: Symbol, argument: u64) -> Result<Node, Halt> {
    let mut arguments = SmallVec::new(alloc);
    arguments.push(argument)?;
    Ok(Node { symbol, arguments })
}
