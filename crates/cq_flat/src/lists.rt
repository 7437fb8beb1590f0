//! A list of numbers for each of some numbers.
ghost use Rattle.std.specs.Prelude.{◌≡◌, ◌<◌, ◌≤◌, ℕ, [], ◌∷◌, ◌++◌, length, OnOk, slice_index_or, if◌then◌else◌, ◌==◌};

use smallvec::SmallVec;
use std::alloc::{AllocError, Global};
use std::marker::Model;

/// Numbered lists of numbers, of which most have at most one: these need no allocation. Behind the
/// last list that has a number there may be none at all, which counts as empty lists.
#[derive(Drop)]
pub struct Lists {
    lists: Vec<SmallVec<u64, 1>>,
    alloc: Global,
}

impl Model for Lists {
    ghost use Rattle.std.specs.Prelude.{ℕ, List, map};

    ghost Value = { List (List ℕ) };

    ghost view = { λ all. map (λ list. list.items) all.lists.items };
}

impl Lists {
    /// Empty lists. They take no memory.
    pub fn new(alloc: Global) -> Lists
        ensures { result ≡ [] }
    {
        Lists {
            lists: Vec::new(alloc),
            alloc,
        }
    }

    pub fn get(&self, at: u64) -> &[u64]
        ensures { result.now ≡ slice_index_or self.now at [] }
    {
        match self.lists.get(at as usize) {
            Some(list) => list.as_slice(),
            None => &[],
        }
    }

    /// Puts a number at the end of a list.
    pub fn push(&mut self, at: u64, number: u64) -> Result<(), AllocError>
        ensures { OnOk result ((k : ℕ) → slice_index_or self.new k []
            ≡ (if k == at then slice_index_or self.old at [] ++ number ∷ [] else slice_index_or self.old k [])) }
    {
        self.extend_to(at)?;
        let list = &mut self.lists[at as usize];
        list.push(number)?;
        Ok(())
    }

    // Makes room for this list and those before it.
    fn extend_to(&mut self, at: u64) -> Result<(), AllocError>
        ensures reached { OnOk result (at < length self.new) }
        ensures same { OnOk result ((k : ℕ) → slice_index_or self.new k [] ≡ slice_index_or self.old k []) }
    {
        while self.lists.len() as u64 <= at {
            self.lists.push(SmallVec::new(self.alloc))?;
        }
        Ok(())
    }
}
