//! Whether the sides of equations are equal over rows that were made up to some depth.
ghost use Rattle.std.specs.Prelude.{ℕ, ◌≡◌, ◌<◌, IfOk, MatchOption, Some, length, map, slice_get};
ghost use Rattle.cq_check.specs.Asking.{AreMade, AreKnown, AreWellSorted, AllJudged};
ghost use Rattle.cq_check.specs.Closed.{IsAmong, IsTold, AreTold, AreCompared};
ghost use Rattle.cq_check.specs.declared.asking.Asked.TheVariants.{Answered};
ghost use Rattle.cq_check.specs.Prepared.{AreObservations};
ghost use Rattle.cq_flat.specs.Nodes.{HasEarlierArguments, AreSides};

use crate::asking::{Asked, MadeRows, ask_all};
use crate::equations::{push_given, push_observations};
use crate::nodes::NodeList;
use cq_flat::Flat;
use cq_terms::is_same_value;
use cq_theory::{Equation, Groups, Presentation, Schema};
use std::alloc::{AllocError, Global};

/// The answers, where no nodes have to be compared.
fn answered(alloc: Global, asked: &[Asked]) -> Result<Option<Vec<bool>>, AllocError>
    ensures { IfOk result (λ answers. MatchOption answers (Unit {0})
        (λ answers. map Answered answers.items ≡ asked.now)) }
{
    let mut answers = Vec::new(alloc);
    for one in asked {
        let Asked::Answered(answer) = one else {
            return Ok(None);
        };
        answers.push(*answer)?;
    }
    Ok(Some(answers))
}

/// The answer where the values of all nodes are known.
fn answer_by(flat: &Flat, asked: &Asked) -> bool
    requires { IsAmong (length flat.now.values) asked.now }
    ensures { IsTold flat.now.values asked.now result }
{
    match asked {
        Asked::Answered(answer) => *answer,
        Asked::Nodes(left, right) => is_same_value(flat.value(*left), flat.value(*right)),
    }
}

/// Each answer where the values of all nodes are known.
fn answers_by(alloc: Global, flat: &Flat, asked: &[Asked]) -> Result<Vec<bool>, AllocError>
    requires { (n : ℕ) (one : _) → slice_get asked.now n ≡ Some one → IsAmong (length flat.now.values) one }
    ensures { IfOk result (λ answers. AreTold flat.now.values asked.now answers.items) }
{
    let mut answers = Vec::new(alloc);
    for one in asked {
        answers.push(answer_by(flat, one))?;
    }
    Ok(answers)
}

/// Each answer, where nodes are compared in the closure of the equations.
fn compare(alloc: Global, list: NodeList, asked: &[Asked]) -> Result<Vec<bool>, AllocError>
    requires arguments { HasEarlierArguments list.nodes }
    requires sides { AreSides list.nodes list.equations }
    requires among { (n : ℕ) (one : _) → slice_get asked.now n ≡ Some one → IsAmong (length list.nodes) one }
    ensures { IfOk result (λ answers. AreCompared list.nodes list.equations asked.now answers.items) }
{
    let NodeList { nodes, equations } = list;
    let flat = Flat::close(alloc, nodes, equations)?;
    let answers = answers_by(alloc, &flat, asked)?;
    Ok(answers)
}

/// Whether the sides of each equation are equal over rows: yes only where it is derivable, and no only where no
/// derivation concludes it within a depth up to which all terms lead to rows. The nodes of all sides go into one list,
/// which is closed once, and only where some nodes have to be compared. The places of the observation equations are
/// given by entity.
pub fn are_equal(
    alloc: Global,
    rows: &MadeRows,
    observations: &Groups,
    equations: &[&Equation],
    known: &[bool],
) -> Result<Vec<bool>, AllocError>
    requires made { AreMade rows.now }
    requires observations { AreObservations rows.now.schema.now observations.now }
    requires sorted { AreWellSorted rows.now.schema.now rows.now.presentation.now (map (λ e. e.now) equations.now) }
    requires known { AreKnown rows.now.schema.now rows.now.presentation.now (map (λ e. e.now) equations.now) known.now }
    ensures { IfOk result (λ answers. AllJudged rows.now (map (λ e. e.now) equations.now) answers.items) }
{
    let schema: &Schema = rows.schema;
    let presentation: &Presentation = rows.presentation;
    schema.is_well_sorted();
    let mut list = NodeList::new(alloc);
    list.push_leaves(rows.tables.made())?;
    list.push_leaves(presentation.generators.len() as u64)?;
    let asked = ask_all(alloc, rows, equations, known, &mut list)?;
    if let Some(answers) = answered(alloc, &asked)? {
        return Ok(answers);
    }
    push_given(
        alloc,
        schema,
        presentation,
        rows.tables,
        rows.entries,
        &mut list,
    )?;
    push_observations(alloc, schema, observations, rows.tables, &mut list)?;
    let answers = compare(alloc, list, &asked)?;
    Ok(answers)
}
