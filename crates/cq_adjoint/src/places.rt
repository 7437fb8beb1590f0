//! The places of answers.
ghost use Rattle.std.specs.Prelude.{◌≡◌, ◌<◌, ◌^◌, [], true, All, IfOk, Some, length, map, slice_get, slice_index_or};
ghost use Rattle.cq_adjoint.specs.Copies.{place_of as place_among, AreInOrder};

use std::alloc::{AllocError, Global};
use std::marker::Model;

/// The answers for an entity in their order, in which the place of each is found by halves. Contracts see the list.
#[derive(Drop)]
pub(crate) struct Places<'a> {
    answers: &'a [Vec<u32>],
}

impl<'a> Model for Places<'a> {
    ghost use Rattle.std.specs.Prelude.{ℕ, List, map};
    ghost use Rattle.cq_adjoint.specs.Copies.{AreInOrder};

    ghost Value = { List (List ℕ) };

    ghost view = { λ places. map (λ rows. rows.items) places.answers.now };

    ghost invariant = { λ places. AreInOrder (map (λ rows. rows.items) places.answers.now) };
}

impl<'a> Places<'a> {
    /// The places of these answers.
    fn new(answers: &'a [Vec<u32>]) -> Places<'a>
        requires { AreInOrder (map (λ rows. rows.items) answers.now) }
        ensures { result ≡ map (λ rows. rows.items) answers.now }
    {
        Places { answers }
    }

    /// The answer at a place.
    pub(crate) fn at(&self, place: u32) -> &[u32]
        requires { place < length self.now }
        ensures { slice_get self.now place ≡ Some result.now }
    {
        self.answers[place as usize].as_slice()
    }

    /// Whether the answer at a place has these rows.
    fn stands_at(&self, place: u32, rows: &[u32]) -> bool
        ensures { result ≡ true → place ≡ place_among self.now rows.now }
    {
        match self.answers.get(place as usize) {
            Some(answer) => answer.as_slice() == rows,
            None => false,
        }
    }

    /// The place of an answer, and 0 of a list that is none. Since much keeps its place where it moves, `near` is tried
    /// before the others are searched.
    pub(crate) fn place_of(&self, rows: &Vec<u32>, near: u32) -> u32
        requires { length self.now < 2 ^ 32 }
        ensures { result ≡ place_among self.now rows.now.items }
    {
        if self.stands_at(near, rows.as_slice()) {
            return near;
        }
        match self.answers.binary_search(rows) {
            Ok(place) => place as u32,
            Err(_) => 0,
        }
    }
}

/// The places of the answers for each entity.
pub(crate) fn all_places<'a>(
    alloc: Global,
    answers: &'a [Vec<Vec<u32>>],
) -> Result<Vec<Places<'a>>, AllocError>
    requires { All (λ list. AreInOrder (map (λ rows. rows.items) list.items)) answers.now }
    ensures { IfOk result (λ made. made.items ≡ map (λ list. map (λ rows. rows.items) list.items) answers.now) }
{
    let mut made = Vec::with_capacity(alloc, answers.len())?;
    for list in answers {
        made.push(Places::new(list.as_slice()))?;
    }
    Ok(made)
}

/// The places of the answers for an entity.
pub(crate) fn places_at<'a, 'b>(places: &'a [Places<'b>], entity: u32) -> &'a Places<'b>
    requires { entity < length places.now }
    ensures { result.now ≡ slice_index_or places.now entity [] }
{
    &places[entity as usize]
}
