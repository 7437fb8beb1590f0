//! The assignments of one foreign key, by the names of the variables.
ghost use Rattle.std.specs.Prelude.{ℕ, List, ◌≡◌, ◌<◌, [], IfOk, OnOk, Some, None, if◌then◌else◌, option_copied};
ghost use Rattle.std.specs.Prelude.{option_map, length};
ghost use Rattle.std.specs.Map.{lookup};
ghost use Rattle.cq_base.specs.Names.{same_name};
ghost use Rattle.cq_theory.specs.Resolve.{or_else};
ghost use Rattle.cq_blocks.specs.Index.{IsIndex, at_place};
ghost use Rattle.cq_blocks.specs.Assigned.{IsAssigned};
ghost use Rattle.cq_blocks.specs.Blocks.{first_of, assigned_given as given_assigned, assigned_in};

use crate::index::Index;
use crate::missing::{assigned_given, is_key};
use crate::parts::Clause;
use cq_base::{Hashing, Name, Raw};
use cq_theory::Schema;
use std::alloc::{AllocError, Global};
use std::collections::HashMap;
use std::marker::Model;

/// For each variable to which a foreign key assigns a term, the place of the clause. Contracts see the pairs.
pub(crate) struct Assigned {
    places: HashMap<Name, u32, Hashing>,
}

impl Model for Assigned {
    ghost use Rattle.std.specs.Prelude.{ℕ, List};

    ghost Value = { List (List ℕ × ℕ) };

    ghost view = { λ assigned. assigned.places.entries };
}

impl Drop for Assigned {
    fn drop(self) {
        let Self { places: _ } = self;
    }
}

impl Assigned {
    fn new(alloc: Global, hashing: Hashing) -> Assigned
        ensures { result ≡ [] }
    {
        Assigned {
            places: HashMap::with_hasher(alloc, hashing),
        }
    }

    /// The place for a variable.
    fn place_of(&self, variable: &Name) -> Option<u32>
        ensures { result ≡ lookup (same_name variable.now) self.now }
    {
        self.places.get(variable).copied()
    }

    /// Puts a place for a variable.
    fn put(&mut self, variable: Name, place: u32) -> Result<(), AllocError>
        ensures { OnOk result ((q : List ℕ) → lookup (same_name q) self.new
            ≡ (if same_name variable q then Some place else lookup (same_name q) self.old)) }
    {
        self.places.insert(variable, place)?;
        Ok(())
    }

    /// Puts a place for a variable that has none.
    fn add(&mut self, variable: &Name, place: u32) -> Result<(), AllocError>
        ensures { OnOk result ((q : List ℕ) → lookup (same_name q) self.new ≡ or_else (lookup (same_name q) self.old)
            (if same_name q variable.now then Some place else None)) }
    {
        if self.place_of(variable).is_some() {
            return Ok(());
        }
        self.put(variable.clone()?, place)
    }

    /// Adds the clause at a place, where it assigns a term for the foreign key.
    fn add_clause(
        &mut self,
        target: &Schema,
        key: u32,
        part: &Clause,
        place: u32,
    ) -> Result<(), AllocError>
        ensures { OnOk result ((q : List ℕ) → lookup (same_name q) self.new ≡ or_else (lookup (same_name q) self.old)
            (option_map (λ _. place) (given_assigned target.now key q part.now))) }
    {
        match part {
            Clause::Test(_, _) => Ok(()),
            Clause::Att(_, _) => Ok(()),
            Clause::Key(_) => Ok(()),
            Clause::Assign(name, variable, _) => {
                if is_key(key, target.find_symbol(name)) {
                    self.add(variable, place)
                } else {
                    Ok(())
                }
            }
        }
    }

    /// The same for the clause that stands at a place, if there is one.
    fn add_place(
        &mut self,
        target: &Schema,
        clauses: &[(u32, Clause)],
        key: u32,
        place: u32,
    ) -> Result<(), AllocError>
        ensures { OnOk result ((q : List ℕ) → lookup (same_name q) self.new ≡ or_else (lookup (same_name q) self.old)
            (option_map (λ _. place) (at_place (λ part. given_assigned target.now key q part.1) clauses.now place))) }
    {
        match clauses.get(place as usize) {
            Some(part) => self.add_clause(target, key, &part.1, place),
            None => Ok(()),
        }
    }
}

/// The assignments of a foreign key among the clauses at these places.
fn assigned_among(
    alloc: Global,
    target: &Schema,
    clauses: &[(u32, Clause)],
    places: &[u32],
    key: u32,
) -> Result<Assigned, AllocError>
    ensures { IfOk result (λ made. (q : List ℕ) → lookup (same_name q) made ≡ first_of
        (λ place. option_map (λ _. place) (at_place (λ part. given_assigned target.now key q part.1) clauses.now place))
        places.now) }
{
    let mut made = Assigned::new(alloc, target.hashing());
    for place in places {
        made.add_place(target, clauses, key, *place)?;
    }
    Ok(made)
}

/// The assignments of a foreign key.
pub(crate) fn make_assigned(
    alloc: Global,
    target: &Schema,
    clauses: &[(u32, Clause)],
    index: &Index,
    key: u32,
) -> Result<Assigned, AllocError>
    requires index { IsIndex target.now clauses.now index.now }
    requires key { key < length target.now.keys }
    ensures { IfOk result (λ made. IsAssigned target.now clauses.now key made) }
{
    let places = index.keys.of(key);
    assigned_among(alloc, target, clauses, places, key)
}

fn assigned_at<'a>(
    target: &Schema,
    clauses: &'a [(u32, Clause)],
    place: u32,
    key: u32,
    variable: &Name,
) -> Option<&'a Raw>
    ensures { option_copied result ≡ at_place (λ part. given_assigned target.now key variable.now part.1)
        clauses.now place }
{
    match clauses.get(place as usize) {
        Some(part) => assigned_given(target, key, variable, &part.1),
        None => None,
    }
}

/// The term that the foreign key assigns to a variable.
pub(crate) fn find_assigned<'a>(
    target: &Schema,
    clauses: &'a [(u32, Clause)],
    assigned: &Assigned,
    key: u32,
    variable: &Name,
) -> Option<&'a Raw>
    requires { IsAssigned target.now clauses.now key assigned.now }
    ensures { option_copied result ≡ assigned_in target.now clauses.now key variable.now }
{
    match assigned.place_of(variable) {
        Some(place) => assigned_at(target, clauses, place, key, variable),
        None => None,
    }
}
