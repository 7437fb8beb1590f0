//! What says whether the sides of an equation are equal over rows: that they lead to one row, or two nodes.
ghost use Rattle.std.specs.Prelude.{ℕ, ◌≡◌, ◌<◌, ◌↔◌, IfOk, IsTrue, Some, length, map, slice_get, true};
ghost use Rattle.cq_check.specs.Answers.{IsWellSorted, IsDerived};
ghost use Rattle.cq_check.specs.Asking.{AreMade, AreKnown, AreWellSorted, IsSoundList, OneAsked, AllAsked};
ghost use Rattle.cq_check.specs.Frame.{AreOneRow};
ghost use Rattle.cq_check.specs.Reading.{IsReadablePath};
ghost use Rattle.cq_theory.specs.declared.presentation.Equation.TheVariants.{Typ as TypEquation};

use crate::nodes::{NodeList, push_term, row_of};
use cq_tables::Tables;
use cq_theory::{EntTerm, Equation, Presentation, Schema, TypeTerm};
use std::alloc::{AllocError, Global};

/// Rows that were made for a presentation over a schema, and the row of each generator.
#[derive(Clone, Copy)]
pub struct MadeRows<'a> {
    pub schema: &'a Schema,
    pub presentation: &'a Presentation,
    pub tables: &'a Tables,
    pub entries: &'a [u64],
}

/// What says whether the sides of an equation are equal.
#[derive(Clone, Copy)]
pub enum Asked {
    /// It is known.
    Answered(bool),
    /// They are exactly where these nodes have one value.
    Nodes(u64, u64),
}

/// Whether two entity terms lead to one row.
fn are_one_row(tables: &Tables, entries: &[u64], left: &EntTerm, right: &EntTerm) -> bool
    requires left { (count : ℕ) × IsReadablePath tables.now entries.now count left.now }
    requires right { (count : ℕ) × IsReadablePath tables.now entries.now count right.now }
    ensures { IsTrue result ↔ AreOneRow tables.now entries.now left.now right.now }
{
    let Some(first) = row_of(tables, entries, left) else {
        return false;
    };
    let Some(second) = row_of(tables, entries, right) else {
        return false;
    };
    first == second
}

/// Adds the nodes of two type terms. They are not equal where some path of one of them ends at an empty cell.
fn ask_nodes(
    alloc: Global,
    rows: &MadeRows,
    left: &TypeTerm,
    right: &TypeTerm,
    list: &mut NodeList,
) -> Result<Asked, AllocError>
    requires made { AreMade rows.now }
    requires sorted { IsWellSorted rows.now.schema.now rows.now.presentation.now (TypEquation left.now right.now) }
    requires sound { IsSoundList rows.now list.old }
    ensures { IfOk result (OneAsked rows.now list.old list.new (TypEquation left.now right.now)) }
{
    let schema: &Schema = rows.schema;
    schema.is_well_sorted();
    let first = push_term(alloc, rows.tables, rows.entries, &mut list.nodes, left)?;
    let Some(first) = first else {
        return Ok(Asked::Answered(false));
    };
    let second = push_term(alloc, rows.tables, rows.entries, &mut list.nodes, right)?;
    let Some(second) = second else {
        return Ok(Asked::Answered(false));
    };
    Ok(Asked::Nodes(first, second))
}

/// What says whether the sides of an equation are equal, which may be known. Nodes of sides of a type are added.
fn ask(
    alloc: Global,
    rows: &MadeRows,
    equation: &Equation,
    known: bool,
    list: &mut NodeList,
) -> Result<Asked, AllocError>
    requires made { AreMade rows.now }
    requires sorted { IsWellSorted rows.now.schema.now rows.now.presentation.now equation.now }
    requires known { known ≡ true → IsDerived rows.now.schema.now rows.now.presentation.now equation.now }
    requires sound { IsSoundList rows.now list.old }
    ensures { IfOk result (OneAsked rows.now list.old list.new equation.now) }
{
    let schema: &Schema = rows.schema;
    schema.is_well_sorted();
    if known {
        return Ok(Asked::Answered(true));
    }
    match equation {
        Equation::Ent(left, right) => {
            let same = are_one_row(rows.tables, rows.entries, left, right);
            Ok(Asked::Answered(same))
        }
        Equation::Typ(left, right) => ask_nodes(alloc, rows, left, right, list),
    }
}

/// The flag at a place.
fn flag_at(flags: &[bool], place: usize) -> bool
    requires { place < length flags.now }
    ensures { slice_get flags.now place ≡ Some result }
{
    flags[place]
}

/// What says of each equation whether its sides are equal. Those that are known to be derivable are not asked again.
pub fn ask_all(
    alloc: Global,
    rows: &MadeRows,
    equations: &[&Equation],
    known: &[bool],
    list: &mut NodeList,
) -> Result<Vec<Asked>, AllocError>
    requires made { AreMade rows.now }
    requires sorted { AreWellSorted rows.now.schema.now rows.now.presentation.now (map (λ e. e.now) equations.now) }
    requires known { AreKnown rows.now.schema.now rows.now.presentation.now (map (λ e. e.now) equations.now) known.now }
    requires sound { IsSoundList rows.now list.old }
    ensures { IfOk result (λ asked. AllAsked rows.now list.old list.new (map (λ e. e.now) equations.now) asked.items) }
{
    let mut asked = Vec::new(alloc);
    for (place, equation) in equations.iter().enumerate() {
        let equation: &Equation = equation;
        let one = ask(alloc, rows, equation, flag_at(known, place), list)?;
        asked.push(one)?;
    }
    Ok(asked)
}
