//! The columns of attributes.
ghost use Rattle.std.specs.Prelude.{ℕ, List, ◌≡◌, ◌∷◌, ◌++◌, [], false, IfOk, IfErr, OnOk, Some, length, map, nat_lt};
ghost use Rattle.std.specs.Prelude.{slice_get};
ghost use Rattle.std.specs.List.{enumerate_from, list_any};
ghost use Rattle.cq_theory.specs.Canonical.{below};
ghost use Rattle.cq_theory.specs.Tables.{AtRow, value_of};
ghost use Rattle.cq_theory.specs.Value.{symbols_of};
ghost use Rattle.cq_instance.specs.Given.{has_long_cell};
ghost use Rattle.cq_instance.specs.Terms.{IsTypeTermOf};
ghost use Rattle.cq_eval.specs.Made.{answers_of, made_cells, made_tables};
ghost use Rattle.cq_eval.specs.Refused.{TellsLarge};

use crate::choice::Choice;
use crate::refusal::EvalRefusal;
use crate::table::Answers;
use cq_base::Seq;
use cq_instance::Instance;
use cq_query::Query;
use cq_query::translation::found_term;
use cq_theory::{TypeTerm, Value, is_long_value};
use std::alloc::{AllocError, Global};

/// The value of a term at an answer.
fn value_at(
    alloc: Global,
    instance: &Instance,
    term: &TypeTerm,
    rows: &[u32],
) -> Result<Value, AllocError>
    requires { (type : ℕ) × IsTypeTermOf instance.now.schema instance.now.tables (map AtRow rows.now) term.now type }
    ensures { IfOk result (λ value. value ≡ value_of instance.now.tables (map AtRow rows.now) term.now) }
{
    let choice = Choice::of(alloc, rows)?;
    instance.value_over(alloc, choice.standings(), term)
}

/// Puts the value of a term at an answer behind a column. It has at most 1,024 symbols.
fn push_value(
    alloc: Global,
    instance: &Instance,
    term: &TypeTerm,
    rows: &[u32],
    column: &mut Vec<Value>,
) -> Result<(), EvalRefusal>
    requires { (type : ℕ) × IsTypeTermOf instance.now.schema instance.now.tables (map AtRow rows.now) term.now type }
    ensures value { OnOk result (column.new.items ≡ column.old.items
        ++ value_of instance.now.tables (map AtRow rows.now) term.now ∷ []) }
    ensures fits { OnOk result (nat_lt 1024 (symbols_of
        (value_of instance.now.tables (map AtRow rows.now) term.now)) ≡ false) }
    ensures refused { IfErr result (TellsLarge (nat_lt 1024
        (symbols_of (value_of instance.now.tables (map AtRow rows.now) term.now)))) }
{
    let value = value_at(alloc, instance, term, rows)?;
    if is_long_value(&value) {
        return Err(EvalRefusal::TooLarge);
    }
    match column.push(value) {
        Ok(()) => Ok(()),
        Err(_) => Err(EvalRefusal::Memory),
    }
}

/// The values of a term at answers, each of at most 1,024 symbols.
fn cell_column(
    alloc: Global,
    instance: &Instance,
    term: &TypeTerm,
    source: &Answers,
) -> Result<Seq<Value>, EvalRefusal>
    requires { (type : ℕ) × ((place : ℕ) (rows : List ℕ) → slice_get source.now place ≡ Some rows
        → IsTypeTermOf instance.now.schema instance.now.tables (map AtRow rows) term.now type) }
    ensures values { IfOk result (λ column. column ≡ map
        (λ rows. value_of instance.now.tables (map AtRow rows) term.now) source.now) }
    ensures fits { IfOk result (λ column. list_any (λ v. nat_lt 1024 (symbols_of v)) column ≡ false) }
    ensures refused { IfErr result (TellsLarge (list_any (λ v. nat_lt 1024 (symbols_of v))
        (map (λ rows. value_of instance.now.tables (map AtRow rows) term.now) source.now))) }
{
    let Ok(mut column) = Vec::with_capacity(alloc, source.len()) else {
        return Err(EvalRefusal::Memory);
    };
    for place in 0..source.len() {
        if let Err(refusal) = push_value(alloc, instance, term, source.at(place), &mut column) {
            return Err(refusal);
        }
    }
    Ok(Seq::from_vec(column))
}

/// Puts the column of an attribute behind others. Its values have at most 1,024 symbols.
fn push_cells(
    alloc: Global,
    instance: &Instance,
    term: &TypeTerm,
    source: &Answers,
    columns: &mut Vec<Seq<Value>>,
) -> Result<(), EvalRefusal>
    requires { (type : ℕ) × ((place : ℕ) (rows : List ℕ) → slice_get source.now place ≡ Some rows
        → IsTypeTermOf instance.now.schema instance.now.tables (map AtRow rows) term.now type) }
    ensures column { OnOk result (columns.new.items ≡ columns.old.items
        ++ map (λ rows. value_of instance.now.tables (map AtRow rows) term.now) source.now ∷ []) }
    ensures fits { OnOk result (list_any (λ v. nat_lt 1024 (symbols_of v))
        (map (λ rows. value_of instance.now.tables (map AtRow rows) term.now) source.now) ≡ false) }
    ensures refused { IfErr result (TellsLarge (list_any (λ v. nat_lt 1024 (symbols_of v))
        (map (λ rows. value_of instance.now.tables (map AtRow rows) term.now) source.now))) }
{
    match cell_column(alloc, instance, term, source) {
        Ok(column) => match columns.push(column) {
            Ok(()) => Ok(()),
            Err(_) => Err(EvalRefusal::Memory),
        },
        Err(refusal) => Err(refusal),
    }
}

/// The column of each attribute of the target.
pub(crate) fn cell_columns(
    alloc: Global,
    query: &Query,
    instance: &Instance,
    answers: &[Answers],
) -> Result<Seq<Seq<Value>>, EvalRefusal>
    requires over { instance.now.schema ≡ query.now.source }
    requires answers { answers.now ≡ map (answers_of query.now instance.now.tables)
        (below (length query.now.target.entities)) }
    ensures columns { IfOk result (λ columns. columns ≡ map (made_cells query.now instance.now.tables)
        (enumerate_from 0 query.now.target.attributes)) }
    ensures fits { IfOk result (λ _. has_long_cell (made_tables query.now instance.now.tables) ≡ false) }
    ensures refused { IfErr result (TellsLarge (has_long_cell (made_tables query.now instance.now.tables))) }
{
    query.is_well_sorted();
    let attributes = query.target.attributes.as_slice();
    let Ok(mut columns) = Vec::with_capacity(alloc, attributes.len()) else {
        return Err(EvalRefusal::Memory);
    };
    for (attribute, edge) in attributes.iter().enumerate() {
        let source = &answers[edge.from as usize];
        let Some(term) = found_term(query, attribute as u32) else {
            unreachable!();
        };
        if let Err(refusal) = push_cells(alloc, instance, term, source, &mut columns) {
            return Err(refusal);
        }
    }
    Ok(Seq::from_vec(columns))
}
