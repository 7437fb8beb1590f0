//! The search for a derivation of an equation.
use crate::expanding::join_by_equations;
use crate::graph::Graph;
use crate::halt::Halt;
use crate::listing::list_steps;
use crate::near::part_near;
use crate::putting::{graph_near, graph_of, put_sides};
use cq_steps::Step;
use cq_theory::{Equation, Presentation, Schema};
use std::alloc::{AllocError, Global};

/// The most nodes that a search among what lies near an equation makes.
const MOST_NEAR: u64 = 20_000;

/// Steps that end in the equation, where the search finds some: in a large presentation first among what lies near the
/// equation, and then in the whole. It goes on while the equations of the schema give new
/// terms, so it ends where the equation is derivable or where the presentation has finitely many terms up to equality.
/// Nothing is claimed of the steps: a caller checks them.
pub fn sought(
    alloc: Global,
    schema: &Schema,
    presentation: &Presentation,
    equation: &Equation,
) -> Result<Option<Vec<Step>>, AllocError> {
    match search(alloc, schema, presentation, equation) {
        Ok(steps) => Ok(steps),
        Err(Halt::Absent) => Ok(None),
        Err(Halt::Memory) => Err(AllocError),
    }
}

fn search(
    alloc: Global,
    schema: &Schema,
    presentation: &Presentation,
    equation: &Equation,
) -> Result<Option<Vec<Step>>, Halt> {
    if let Some(steps) = search_near(alloc, schema, presentation, equation)? {
        return Ok(Some(steps));
    }
    let mut graph = graph_of(alloc, schema, presentation)?;
    search_in(alloc, &mut graph, schema, equation, u64::MAX)
}

/// The search among what lies near the equation, where the presentation is large.
fn search_near(
    alloc: Global,
    schema: &Schema,
    presentation: &Presentation,
    equation: &Equation,
) -> Result<Option<Vec<Step>>, Halt> {
    let Some(part) = part_near(alloc, presentation, equation)? else {
        return Ok(None);
    };
    let mut graph = graph_near(alloc, schema, presentation, &part)?;
    search_in(alloc, &mut graph, schema, equation, MOST_NEAR)
}

/// The search in a graph, up to so many nodes.
fn search_in(
    alloc: Global,
    graph: &mut Graph,
    schema: &Schema,
    equation: &Equation,
    most: u64,
) -> Result<Option<Vec<Step>>, Halt> {
    let (left, right) = put_sides(alloc, graph, schema, equation)?;
    graph.close()?;
    if !join_by_equations(alloc, graph, schema, most, (left, right))? {
        return Ok(None);
    }
    Ok(Some(list_steps(alloc, graph, left, right)?))
}
