//! The columns of foreign keys.
ghost use Rattle.std.specs.Prelude.{ℕ, List, ◌≡◌, ◌≤◌, All, IfOk, Some, length, map, slice_get};
ghost use Rattle.cq_theory.specs.declared.term.EntTerm.{EntTerm};
ghost use Rattle.std.specs.List.{enumerate_from};
ghost use Rattle.cq_theory.specs.Canonical.{below};
ghost use Rattle.cq_theory.specs.Tables.{AtRow, row_of};
ghost use Rattle.cq_instance.specs.Terms.{IsEntTermOf};
ghost use Rattle.cq_query.specs.Translation.{assigned as assigned_terms};
ghost use Rattle.cq_eval.specs.Made.{answers_of, made_keys, place_in};

use crate::choice::Choice;
use crate::rows::Rows;
use crate::table::Answers;
use cq_base::Seq;
use cq_instance::Instance;
use cq_query::Query;
use cq_query::translation::found_terms;
use cq_theory::EntTerm;
use std::alloc::{AllocError, Global};

/// The rows that terms name at a choice.
fn named_rows(
    alloc: Global,
    instance: &Instance,
    choice: &Choice,
    terms: &[EntTerm],
) -> Result<Rows, AllocError>
    requires { (n : ℕ) (t : EntTerm) → slice_get terms.now n ≡ Some t → (entity : ℕ)
        × IsEntTermOf instance.now.schema instance.now.tables (map AtRow choice.now) t entity }
    ensures { IfOk result (λ rows. rows ≡ map (row_of instance.now.tables (map AtRow choice.now)) terms.now) }
{
    let standings = choice.standings();
    let mut rows = Vec::with_capacity(alloc, terms.len())?;
    for term in terms {
        rows.push(instance.row_over(standings, term))?;
    }
    Ok(Rows::from_vec(rows))
}

/// The place of the answer that terms give at another answer.
fn place_at(
    alloc: Global,
    instance: &Instance,
    terms: &[EntTerm],
    rows: &[u32],
    target: &Answers,
) -> Result<u32, AllocError>
    requires typed { (n : ℕ) (t : EntTerm) → slice_get terms.now n ≡ Some t → (entity : ℕ)
        × IsEntTermOf instance.now.schema instance.now.tables (map AtRow rows.now) t entity }
    requires few { length target.now ≤ 1000000 }
    ensures { IfOk result (λ place. place ≡ place_in target.now
        (map (row_of instance.now.tables (map AtRow rows.now)) terms.now)) }
{
    let choice = Choice::of(alloc, rows)?;
    let named = named_rows(alloc, instance, &choice, terms)?;
    Ok(target.place_of(&named) as u32)
}

/// For each answer of some, the place of the answer that terms give.
fn key_column(
    alloc: Global,
    instance: &Instance,
    terms: &[EntTerm],
    source: &Answers,
    target: &Answers,
) -> Result<Seq<u32>, AllocError>
    requires typed { (place : ℕ) (rows : List ℕ) → slice_get source.now place ≡ Some rows → (n : ℕ) (t : EntTerm)
        → slice_get terms.now n ≡ Some t
        → (entity : ℕ) × IsEntTermOf instance.now.schema instance.now.tables (map AtRow rows) t entity }
    requires few { length target.now ≤ 1000000 }
    ensures { IfOk result (λ column. column ≡ map (λ rows. place_in target.now
        (map (row_of instance.now.tables (map AtRow rows)) terms.now)) source.now) }
{
    let mut column = Vec::with_capacity(alloc, source.len())?;
    for place in 0..source.len() {
        column.push(place_at(alloc, instance, terms, source.at(place), target)?)?;
    }
    Ok(Seq::from_vec(column))
}

/// The terms that a foreign key assigns.
fn assigned(query: &Query, key: u32) -> &[EntTerm]
    ensures { result.now ≡ assigned_terms query.now key }
{
    match found_terms(query, key) {
        Some(terms) => terms.as_slice(),
        None => &[],
    }
}

/// The column of each foreign key of the target.
pub(crate) fn key_columns(
    alloc: Global,
    query: &Query,
    instance: &Instance,
    answers: &[Answers],
) -> Result<Seq<Seq<u32>>, AllocError>
    requires over { instance.now.schema ≡ query.now.source }
    requires answers { answers.now ≡ map (answers_of query.now instance.now.tables)
        (below (length query.now.target.entities)) }
    requires few { All (λ answers. length answers ≤ 1000000) answers.now }
    ensures { IfOk result (λ columns. columns ≡ map (made_keys query.now instance.now.tables)
        (enumerate_from 0 query.now.target.keys)) }
{
    query.is_well_sorted();
    let keys = query.target.keys.as_slice();
    let mut columns = Vec::with_capacity(alloc, keys.len())?;
    for (key, edge) in keys.iter().enumerate() {
        let source = &answers[edge.from as usize];
        let target = &answers[edge.to as usize];
        columns.push(key_column(alloc, instance, assigned(query, key as u32), source, target)?)?;
    }
    Ok(Seq::from_vec(columns))
}
