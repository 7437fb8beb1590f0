//! Answers with their places.
ghost use Rattle.std.specs.Prelude.{◌≡◌, ◌<◌, ◌≤◌, ◌++◌, ◌∷◌, [], All, IfOk, IfErr, OnOk, Some, length, map, slice_get};
ghost use Rattle.cq_theory.specs.Canonical.{below};
ghost use Rattle.cq_eval.specs.Made.{answers_of, place_in, AreAscending, StandOnce};
ghost use Rattle.cq_eval.specs.Refused.{TellsFirst};

use crate::answering::found_answers;
use crate::kept::Kept;
use crate::refusal::EvalRefusal;
use crate::rows::Rows;
use cq_instance::Instance;
use cq_query::Query;
use std::alloc::{AllocError, Global};
use std::marker::Model;

/// The answers for an entity in their order, by which the place of each is found. Contracts see the list.
#[derive(Drop)]
pub(crate) struct Answers {
    rows: Vec<Rows>,
}

impl Model for Answers {
    ghost use Rattle.std.specs.Prelude.{ℕ, List};
    ghost use Rattle.cq_eval.specs.Made.{AreAscending, StandOnce};

    ghost Value = { List (List ℕ) };

    ghost view = { λ answers. answers.rows.items };

    ghost invariant = { λ answers. StandOnce answers.rows.items × AreAscending answers.rows.items };
}

impl Answers {
    /// The table of these answers, which takes no memory.
    fn from_vec(rows: Vec<Rows>) -> Answers
        requires once { StandOnce rows.items }
        requires ascend { AreAscending rows.items }
        ensures { result ≡ rows.items }
    {
        Answers { rows }
    }

    /// How many answers there are.
    pub(crate) fn len(&self) -> usize
        ensures { result ≡ length self.now }
    {
        self.rows.len()
    }

    /// The answer at a place.
    pub(crate) fn at(&self, place: usize) -> &[u32]
        requires { place < length self.now }
        ensures { slice_get self.now place ≡ Some result.now }
    {
        self.rows[place].as_slice()
    }

    /// The place of an answer.
    pub(crate) fn place_of(&self, rows: &Rows) -> usize
        ensures place { result ≡ place_in self.now rows.now }
        ensures within { result ≤ length self.now }
    {
        match self.rows.as_slice().binary_search(rows) {
            Ok(place) => place,
            Err(_) => 0,
        }
    }
}

/// Puts the table of these answers behind others.
fn push_answers(found: Vec<Rows>, made: &mut Vec<Answers>) -> Result<(), AllocError>
    requires once { StandOnce found.items }
    requires ascend { AreAscending found.items }
    ensures { OnOk result (made.new.items ≡ made.old.items ++ found.items ∷ []) }
{
    made.push(Answers::from_vec(found))?;
    Ok(())
}

/// The answers for each entity of the target. The first entity with over 1,000,000 is told.
pub(crate) fn all_answers(
    alloc: Global,
    query: &Query,
    instance: &Instance,
) -> Result<Vec<Answers>, EvalRefusal>
    requires over { instance.now.schema ≡ query.now.source }
    ensures answers { IfOk result (λ made. made.items ≡ map (answers_of query.now instance.now.tables)
        (below (length query.now.target.entities))) }
    ensures few { IfOk result (λ made. All (λ answers. length answers ≤ 1000000) made.items) }
    ensures refused { IfErr result (TellsFirst (length query.now.target.entities)
        (λ entity. length (answers_of query.now instance.now.tables entity))) }
{
    query.target.is_well_sorted();
    let count = query.target.entities.len();
    let mut made = Vec::with_capacity(alloc, count)?;
    let mut kept = Kept::new(alloc);
    for entity in 0..count as u32 {
        match found_answers(alloc, query, instance, &mut kept, entity) {
            Ok(found) => push_answers(found, &mut made)?,
            Err(refusal) => return Err(refusal),
        }
    }
    Ok(made)
}
