//! The equations of the schema are put into a graph at one node of each class, until two nodes are equal.
use crate::forest::Reason;
use crate::graph::Graph;
use crate::halt::Halt;
use crate::putting::{Wanted, put_key, put_path, put_type_term};
use cq_theory::{Beginnings, Groups, ObsEq, PathEq, Schema};
use std::alloc::Global;

/// How far the nodes were gone through: those before `expanded` to put the equations of the schema in, those before
/// `followed` to follow foreign keys from them.
#[derive(Clone, Copy)]
pub struct Progress {
    expanded: u64,
    followed: u64,
}

/// Puts equations in until the nodes are equal or there are too many, and says whether they are. Nodes are gone through
/// as they came, so that each equation is put in at each class some time. Foreign keys are followed from the next node
/// only when all equations are in (Todd and Coxeter, A practical method for enumerating cosets of a finite abstract
/// group, 1936).
pub fn join_by_equations(
    alloc: Global,
    graph: &mut Graph,
    schema: &Schema,
    most: u64,
    (left, right): (u64, u64),
) -> Result<bool, Halt> {
    let beginnings = Beginnings::of(alloc, schema)?;
    let are_joined = advance_until(alloc, graph, schema, &beginnings, most, (left, right))?;
    Ok(are_joined)
}

/// Goes on node by node until these nodes are equal or there are too many, and says whether they are.
fn advance_until(
    alloc: Global,
    graph: &mut Graph,
    schema: &Schema,
    beginnings: &Beginnings,
    most: u64,
    (left, right): (u64, u64),
) -> Result<bool, Halt> {
    let mut progress = Progress {
        expanded: 0,
        followed: 0,
    };
    for _turn in 0..u64::MAX {
        if graph.are_joined(left, right) {
            return Ok(true);
        }
        if graph.terms.len() > most {
            return Ok(false);
        }
        match advance(alloc, graph, schema, beginnings, progress)? {
            Some(next) => progress = next,
            None => return Ok(false),
        }
    }
    Ok(false)
}

/// Goes on by one node, if there is one.
fn advance(
    alloc: Global,
    graph: &mut Graph,
    schema: &Schema,
    beginnings: &Beginnings,
    progress: Progress,
) -> Result<Option<Progress>, Halt> {
    let Progress { expanded, followed } = progress;
    let count = graph.terms.len();
    if expanded < count {
        expand(alloc, graph, schema, beginnings, expanded)?;
        graph.close()?;
        return Ok(Some(Progress {
            expanded: expanded + 1,
            followed,
        }));
    }
    if followed < count {
        follow(alloc, graph, schema, beginnings, followed)?;
        graph.close()?;
        return Ok(Some(Progress {
            expanded,
            followed: followed + 1,
        }));
    }
    Ok(None)
}

/// The numbers of what begins at an entity.
fn beginning_at(groups: &Groups, entity: u32) -> &[u32] {
    match groups.groups.as_slice().get(entity as usize) {
        Some(numbers) => numbers.as_slice(),
        None => &[],
    }
}

/// Puts the equations of a node's entity in at the node, unless they were at another one of its class. Those that hold
/// there already are left out.
fn expand(
    alloc: Global,
    graph: &mut Graph,
    schema: &Schema,
    beginnings: &Beginnings,
    node: u64,
) -> Result<(), Halt> {
    let Some(entity) = graph.terms.entity(node) else {
        return Ok(());
    };
    if graph.classes.expand(node) {
        put_path_eqs(
            alloc,
            graph,
            schema,
            beginning_at(&beginnings.path_eqs, entity),
            node,
        )?;
        put_obs_eqs(
            alloc,
            graph,
            schema,
            beginning_at(&beginnings.obs_eqs, entity),
            node,
        )?;
    }
    Ok(())
}

fn put_path_eqs(
    alloc: Global,
    graph: &mut Graph,
    schema: &Schema,
    numbers: &[u32],
    node: u64,
) -> Result<(), Halt> {
    for number in numbers {
        let Some(equation) = schema.path_eqs.as_slice().get(*number as usize) else {
            return Err(Halt::Absent);
        };
        let (left, right) = path_sides(alloc, graph, schema, equation, node, Wanted::AnyEqual)?;
        if !graph.are_joined(left, right) {
            let sides = path_sides(alloc, graph, schema, equation, node, Wanted::Itself)?;
            graph.equate(sides.0, sides.1, Reason::Path(*number, node))?;
        }
    }
    Ok(())
}

fn path_sides(
    alloc: Global,
    graph: &mut Graph,
    schema: &Schema,
    equation: &PathEq,
    node: u64,
    wanted: Wanted,
) -> Result<(u64, u64), Halt> {
    let left = put_path(alloc, graph, schema, node, equation.left.as_slice(), wanted)?;
    let right = put_path(
        alloc,
        graph,
        schema,
        node,
        equation.right.as_slice(),
        wanted,
    )?;
    Ok((left, right))
}

fn put_obs_eqs(
    alloc: Global,
    graph: &mut Graph,
    schema: &Schema,
    numbers: &[u32],
    node: u64,
) -> Result<(), Halt> {
    for number in numbers {
        let Some(equation) = schema.obs_eqs.as_slice().get(*number as usize) else {
            return Err(Halt::Absent);
        };
        let (left, right) = obs_sides(alloc, graph, schema, equation, node, Wanted::AnyEqual)?;
        if !graph.are_joined(left, right) {
            let sides = obs_sides(alloc, graph, schema, equation, node, Wanted::Itself)?;
            graph.equate(sides.0, sides.1, Reason::Obs(*number, node))?;
        }
    }
    Ok(())
}

fn obs_sides(
    alloc: Global,
    graph: &mut Graph,
    schema: &Schema,
    equation: &ObsEq,
    node: u64,
    wanted: Wanted,
) -> Result<(u64, u64), Halt> {
    let left = put_type_term(alloc, graph, schema, &equation.left, Some(node), wanted)?;
    let right = put_type_term(alloc, graph, schema, &equation.right, Some(node), wanted)?;
    Ok((left, right))
}

/// Puts in what the foreign keys lead to from a node, unless they were followed from another one of its class.
fn follow(
    alloc: Global,
    graph: &mut Graph,
    schema: &Schema,
    beginnings: &Beginnings,
    node: u64,
) -> Result<(), Halt> {
    let Some(entity) = graph.terms.entity(node) else {
        return Ok(());
    };
    if graph.classes.follow(node) {
        for key in beginning_at(&beginnings.keys, entity) {
            put_key(alloc, graph, schema, node, *key, Wanted::AnyEqual)?;
        }
    }
    Ok(())
}
