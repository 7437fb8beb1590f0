//! Choices of a row for each variable.
ghost use Rattle.std.specs.Prelude.{◌≡◌, ◌<◌, ◌++◌, IfOk, drop, length, map, slice_set, take};
ghost use Rattle.cq_theory.specs.Tables.{AtRow, row_in};
ghost use Rattle.cq_instance.specs.Standing.{meaning};

use crate::rows::Rows;
use cq_instance::Standing;
use std::alloc::{AllocError, Global};
use std::marker::Model;

/// A row for each variable of a block, as what the variables stand for. Contracts see the list of the rows.
#[derive(Drop)]
pub(crate) struct Choice {
    standings: Vec<Standing>,
}

impl Model for Choice {
    ghost use Rattle.std.specs.Prelude.{ℕ, List, map, ◌≡◌};
    ghost use Rattle.cq_theory.specs.Tables.{AtRow, row_in};
    ghost use Rattle.cq_instance.specs.Standing.{meaning};

    ghost Value = { List ℕ };

    ghost view = { λ choice. map (λ s. row_in (meaning s)) choice.standings.items };

    // Each variable stands for a row.
    ghost invariant = { λ choice. map meaning choice.standings.items ≡ map AtRow
        (map (λ s. row_in (meaning s)) choice.standings.items) };
}

/// The row for which a variable stands.
fn row_of(standing: &Standing) -> u32
    ensures { result ≡ row_in (meaning standing.now) }
{
    match standing {
        Standing::Row(row) => *row,
        Standing::Value(_) => 0,
    }
}

/// So many of the first standings, and all where there are fewer.
fn first_of(standings: &[Standing], bound: usize) -> &[Standing]
    ensures { result.now ≡ take bound standings.now }
{
    if bound <= standings.len() {
        &standings[..bound]
    } else {
        standings
    }
}

/// The numbers behind so many.
fn rest_of(numbers: &[u32], bound: usize) -> &[u32]
    ensures { result.now ≡ drop bound numbers.now }
{
    if bound <= numbers.len() {
        &numbers[bound..]
    } else {
        &[]
    }
}

impl Choice {
    /// These rows.
    pub(crate) fn of(alloc: Global, rows: &[u32]) -> Result<Choice, AllocError>
        ensures { IfOk result (λ choice. choice ≡ rows.now) }
    {
        let mut standings = Vec::with_capacity(alloc, rows.len())?;
        for row in rows {
            standings.push(Standing::Row(*row))?;
        }
        Ok(Choice { standings })
    }

    /// The first row for each of as many variables as there are counts.
    pub(crate) fn first(alloc: Global, counts: &[u32]) -> Result<Choice, AllocError>
        ensures { IfOk result (λ choice. choice ≡ map (λ _. 0) counts.now) }
    {
        let mut standings = Vec::with_capacity(alloc, counts.len())?;
        for _count in counts {
            standings.push(Standing::Row(0))?;
        }
        Ok(Choice { standings })
    }

    /// Chooses another row for a variable.
    pub(crate) fn set(&mut self, variable: usize, row: u32)
        requires { variable < length self.old }
        ensures { self.new ≡ slice_set self.old variable row }
    {
        self.standings[variable] = Standing::Row(row);
    }

    /// What the variables stand for.
    pub(crate) fn standings(&self) -> &[Standing]
        ensures { map meaning result.now ≡ map AtRow self.now }
    {
        self.standings.as_slice()
    }

    /// The first rows of these, and the rows of others for the other variables.
    pub(crate) fn behind(
        &self,
        alloc: Global,
        bound: usize,
        others: &[u32],
    ) -> Result<Rows, AllocError>
        ensures { IfOk result (λ rows. rows ≡ take bound self.now ++ drop bound others.now) }
    {
        let mut rows = Vec::with_capacity(alloc, self.standings.len())?;
        for standing in first_of(self.standings.as_slice(), bound) {
            rows.push(row_of(standing))?;
        }
        rows.extend_from_slice(rest_of(others, bound))?;
        Ok(Rows::from_vec(rows))
    }

    /// The rows.
    pub(crate) fn rows(&self, alloc: Global) -> Result<Rows, AllocError>
        ensures { IfOk result (λ rows. rows ≡ self.now) }
    {
        let mut rows = Vec::with_capacity(alloc, self.standings.len())?;
        for standing in self.standings.as_slice() {
            rows.push(row_of(standing))?;
        }
        Ok(Rows::from_vec(rows))
    }
}
