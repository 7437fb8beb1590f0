//! Tables of ids.
ghost use Rattle.std.specs.Prelude.{◌≡◌, ◌+◌, ◌<◌, ◌^◌, ◌-◌, ◌++◌, ◌∷◌, [], true, not, is_some, length, nat_eq, IfOk};
ghost use Rattle.std.specs.Prelude.{OnErr};
ghost use Rattle.std.specs.Hash as fed;
ghost use Rattle.std.specs.Cmp.Lexicographic.{pointwise, nat_list_eq_equiv};
ghost use Rattle.std.specs.Cmp.{partial_equiv_from_equiv};
ghost use Rattle.std.specs.Cmp.Rules.{hashing};
ghost use Rattle.std.proofs.Common.{rules};
ghost use Rattle.cq_base.specs.Names.{number_of};

use cq_base::Hashing;
use indexmap::IndexSet;
use std::alloc::{AllocError, Global};
use std::hash::{Hash, Hasher};
use std::marker::Model;

/// The id of a record. Contracts see its bytes.
#[derive(Drop)]
pub struct Id {
    bytes: Vec<u8>,
}

impl Model for Id {
    ghost use Rattle.std.specs.Prelude.{ℕ, List};

    ghost Value = { List ℕ };

    ghost view = { λ id. id.bytes.items };
}

impl Id {
    /// The id with these bytes.
    pub fn new(alloc: Global, bytes: &[u8]) -> Result<Id, AllocError>
        ensures { IfOk result (λ id. id ≡ bytes.now) }
    {
        Ok(Id {
            bytes: bytes.to_vec(alloc)?,
        })
    }
}

impl PartialEq for Id {
    ghost eq = { pointwise nat_eq };

    ghost laws = { partial_equiv_from_equiv nat_list_eq_equiv };

    fn eq(&self, other: &Id) -> bool {
        self.bytes.as_slice() == other.bytes.as_slice()
    }
}

impl Eq for Id {
    ghost laws = { nat_list_eq_equiv };
}

impl Hash for Id {
    ghost hash_input = { λ id. fed.slice fed.u8 id };

    ghost respects_eq = { Prim.search (hashing, rules) };

    fn hash<H: Hasher>(&self, state: &mut H) {
        self.bytes.as_slice().hash(state);
    }
}

/// Ids, numbered in the order in which they were added. Contracts see the list of the ids.
pub struct Ids {
    ids: IndexSet<Id, Hashing>,
}

impl Model for Ids {
    ghost use Rattle.std.specs.Prelude.{ℕ, List, length, ◌<◌, ◌^◌};

    ghost Value = { List (List ℕ) };

    ghost view = { λ table. table.ids.keys };

    ghost invariant = { λ table. length table.ids.keys < 2 ^ 32 };
}

impl Drop for Ids {
    fn drop(self) {
        let Self { ids: _ } = self;
    }
}

impl Ids {
    /// A table without ids, which hashes by this key.
    pub fn new(alloc: Global, hashing: Hashing) -> Ids
        ensures { result ≡ [] }
    {
        Ids {
            ids: IndexSet::with_hasher(alloc, hashing),
        }
    }

    /// How the table hashes.
    pub fn hashing(&self) -> Hashing {
        *self.ids.hasher()
    }

    /// How many ids there are.
    pub fn len(&self) -> u32
        ensures { result ≡ length self.now }
    {
        self.ids.len() as u32
    }

    /// Adds an id, and tells whether it is new.
    pub fn add(&mut self, id: Id) -> Result<bool, AllocError>
        requires { length self.old < 2 ^ 32 - 1 }
        ensures known { IfOk result (λ is_new. is_new ≡ not (is_some (number_of self.old id))) }
        ensures added { IfOk result (λ is_new. is_new ≡ true → self.new ≡ self.old ++ id ∷ []) }
    {
        let is_new = self.ids.insert(id)?;
        Ok(is_new)
    }

    /// The number of an id.
    pub fn find(&self, id: &Id) -> Option<u32>
        ensures { result ≡ number_of self.now id.now }
    {
        match self.ids.get_index_of(id) {
            Some(number) => Some(number as u32),
            None => None,
        }
    }
}
