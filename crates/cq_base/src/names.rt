//! Tables of names, numbered in the order in which they were added.
ghost use Rattle.std.specs.Prelude.{◌≡◌, ◌+◌, ◌-◌, ◌<◌, ◌^◌, ◌↔◌, ◌++◌, ◌∷◌, [], length, ℕ, IfOk, OnOk, OnErr, Some};
ghost use Rattle.std.specs.Prelude.{None, slice_get};
ghost use Rattle.cq_base.specs.Names.{number_of};

use crate::hashing::Hashing;
use crate::name::Name;
use crate::refusal::NamesRefusal;
use indexmap::IndexSet;
use std::alloc::Global;
use std::marker::Model;

/// Names with their numbers, from 0. Contracts see the list of the names, in which no name stands twice.
pub struct Names {
    // Hashed as its first name wants it.
    names: IndexSet<Name, Hashing>,
    alloc: Global,
}

impl Model for Names {
    ghost use Rattle.std.specs.Prelude.{ℕ, List, length, ◌<◌, ◌^◌};
    ghost use Rattle.cq_base.specs.declared.name.Name.{Name};
    ghost use Rattle.cq_base.specs.Names.{AreDistinct};

    ghost Value = { List Name };

    ghost view = { λ table. table.names.keys };

    ghost invariant = { λ table. (length table.names.keys < 2 ^ 32) × AreDistinct table.names.keys };
}

impl Drop for Names {
    fn drop(self) {
        let Self { names: _, alloc: _ } = self;
    }
}

impl Names {
    /// A table without names.
    pub fn new(alloc: Global) -> Names
        ensures { result ≡ [] }
    {
        Names {
            names: IndexSet::with_hasher(alloc, Hashing::new()),
            alloc,
        }
    }

    /// Adds a name, and gives its number.
    pub fn add(&mut self, name: Name) -> Result<u32, NamesRefusal>
        requires { length self.old < 2 ^ 32 - 1 }
        ensures number { IfOk result (λ number. number ≡ length self.old) }
        ensures added { OnOk result (self.new ≡ self.old ++ name ∷ []) }
        ensures taken { (number : ℕ) → (result ≡ Err (NamesRefusal.Taken number)) ↔
            (number_of self.old name ≡ Some number) }
        ensures unchanged { OnErr result (self.new ≡ self.old) }
    {
        if let Some(number) = self.names.get_index_of(&name) {
            return Err(NamesRefusal::Taken(number as u32));
        }
        let number = self.names.len() as u32;
        if self.names.is_empty() {
            self.names = IndexSet::with_hasher(self.alloc, name.hashing());
        }
        self.names.insert(name)?;
        Ok(number)
    }

    /// How many names there are.
    pub fn len(&self) -> u32
        ensures { result ≡ length self.now }
    {
        self.names.len() as u32
    }

    /// The number of a name.
    pub fn find(&self, name: &Name) -> Option<u32>
        ensures { result ≡ number_of self.now name.now }
    {
        // Tables without names are asked often, and a hash costs more than this test.
        if self.names.is_empty() {
            return None;
        }
        match self.names.get_index_of(name) {
            Some(number) => Some(number as u32),
            None => None,
        }
    }
}
