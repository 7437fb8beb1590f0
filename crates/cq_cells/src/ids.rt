//! Tables of ids.
ghost use Rattle.std.specs.Prelude.{ℕ, List, ◌≡◌, [], None, Some, IfOk, is_some, true};
ghost use Rattle.std.specs.Map.{lookup};
ghost use Rattle.std.proofs.Common.{cond};
ghost use Rattle.cq_base.specs.Names.{same_name};

use cq_base::Hashing;
use cq_import::Id;
use indexmap::IndexMap;
use indexmap::map::Entry;
use std::alloc::{AllocError, Global};
use std::marker::Model;

/// Ids with the numbers of the records in which they stand first. Contracts see the pairs.
pub struct Places {
    places: IndexMap<Id, u32, Hashing>,
}

impl Model for Places {
    ghost use Rattle.std.specs.Prelude.{ℕ, List};

    ghost Value = { List (List ℕ × ℕ) };

    ghost view = { λ table. table.places.entries };
}

impl Drop for Places {
    fn drop(self) {
        let Self { places: _ } = self;
    }
}

impl Places {
    /// A table without ids, which hashes by this key.
    pub fn new(alloc: Global, hashing: Hashing) -> Places
        ensures { result ≡ [] }
    {
        Places {
            places: IndexMap::with_hasher(alloc, hashing),
        }
    }

    /// How the table hashes.
    pub fn hashing(&self) -> Hashing {
        *self.places.hasher()
    }

    /// The record in which an id stands first.
    pub fn find(&self, id: &Id) -> Option<u32>
        ensures { result ≡ lookup (same_name id.now) self.now }
    {
        self.places.get(id).copied()
    }

    /// Notes that an id stands in the record with this number, unless it stands in one before; tells in which.
    pub fn note(&mut self, id: Id, number: u32) -> Result<Option<u32>, AllocError>
        ensures known { IfOk result (λ before. before ≡ lookup (same_name id) self.old) }
        ensures kept { IfOk result (λ before. is_some before ≡ true → self.new ≡ self.old) }
        ensures noted { IfOk result (λ before. before ≡ None → (other : List ℕ)
            → lookup (same_name other) self.new
            ≡ cond (same_name id other) (Some number) (lookup (same_name other) self.old)) }
    {
        match self.places.entry(id) {
            Ok(Entry::Occupied(found)) => Ok(Some(*found.get())),
            Ok(Entry::Vacant(place)) => {
                place.insert(number);
                Ok(None)
            }
            Err(_) => Err(AllocError),
        }
    }
}
