//! The entries of functions by what they are for.
ghost use Rattle.std.specs.Prelude.{◌≡◌, ◌<◌, IfOk, find, length, map, option_copied, slice_get};
ghost use Rattle.cq_theory.specs.Tables.{is_for as is_entry_for, entry_or_built};
ghost use Rattle.cq_instance.specs.EntryLists.{AreEntryLists, entry_number, passing, first_among, list_for};

use crate::application::{applied, is_for};
use crate::digests::{add_values, application_digest};
use crate::groups::grouped;
use crate::values::copied;
use cq_base::{Hashing, Keys, Seq};
use cq_theory::{Algebra, Entry, Value};
use std::alloc::{AllocError, Global};
use std::marker::Model;

/// Nulls and entries, with lists of the places of entries by the numbers of what they are for, from which the entry of
/// a function at arguments is found. There are no lists where there is no entry. Contracts see the nulls and entries.
pub struct EntryTable {
    algebra: Algebra,
    hashing: Hashing,
    lists: Seq<Seq<u32>>,
}

impl Model for EntryTable {
    ghost use Rattle.std.specs.Coded.{codes};
    ghost use Rattle.cq_theory.specs.contracts.value.Value as value;
    ghost use Rattle.cq_theory.specs.declared.value.Algebra.{Algebra};
    ghost use Rattle.cq_instance.specs.EntryLists.{AreEntryLists};

    ghost Value = { Algebra };

    ghost coded = { Prim.hlevel (codes, value.the_row.coded) };

    ghost view = { λ table. table.algebra };

    ghost invariant = { λ table. AreEntryLists table.hashing table.algebra.entries table.lists };
}

impl Drop for EntryTable {
    fn drop(self) {
        let Self {
            algebra: _,
            hashing: _,
            lists: _,
        } = self;
    }
}

/// How entries are hashed: by a key of all their functions and arguments.
fn hashing_of(entries: &[Entry]) -> Hashing {
    let mut keys = Keys::new();
    for entry in entries {
        keys.add_number(u64::from(entry.function));
        add_values(entry.args.as_slice(), &mut keys);
    }
    keys.hashing()
}

/// The number of each entry.
fn entry_numbers(
    alloc: Global,
    hashing: Hashing,
    entries: &[Entry],
    count: u32,
) -> Result<Vec<u32>, AllocError>
    requires { 0 < count }
    ensures { IfOk result (λ made. made.items ≡ map (entry_number hashing count) entries.now) }
{
    let mut made = Vec::with_capacity(alloc, entries.len())?;
    for entry in entries {
        let digest = application_digest(hashing, entry.function, entry.args.as_slice());
        made.push((digest % count as u64) as u32)?;
    }
    Ok(made)
}

/// The places of the entries by their numbers, of which there are as many as entries.
fn entry_lists(
    alloc: Global,
    hashing: Hashing,
    entries: &[Entry],
) -> Result<Seq<Seq<u32>>, AllocError>
    ensures { IfOk result (λ lists. AreEntryLists hashing entries.now lists) }
{
    let count = entries.len();
    if count == 0 || count > u32::MAX as usize {
        return Ok(Seq::from_vec(Vec::new(alloc)));
    }
    let numbers = entry_numbers(alloc, hashing, entries, count as u32)?;
    grouped(alloc, count, numbers.as_slice())
}

/// The places of the entries that can be for a function at these arguments.
fn places_for<'a>(
    hashing: Hashing,
    lists: &'a [Seq<u32>],
    function: u32,
    args: &[Value],
) -> &'a [u32]
    requires { 0 < length lists.now }
    ensures { result.now ≡ list_for hashing lists.now function args.now }
{
    let place = (application_digest(hashing, function, args) % lists.len() as u64) as usize;
    lists[place].as_slice()
}

/// The entry at a place, if it is for a function at these arguments.
fn entry_at<'a>(
    entries: &'a [Entry],
    place: u32,
    function: u32,
    args: &[Value],
) -> Option<&'a Entry>
    ensures { option_copied result ≡ passing (is_entry_for function args.now) (slice_get entries.now place) }
{
    match entries.get(place as usize) {
        Some(entry) => {
            if is_for(function, args, entry) {
                Some(entry)
            } else {
                None
            }
        }
        None => None,
    }
}

/// The value of the first entry for a function at these arguments among those at some places, or the value that is
/// built where there is none.
fn applied_among(
    alloc: Global,
    entries: &[Entry],
    places: &[u32],
    function: u32,
    args: Vec<Value>,
) -> Result<Value, AllocError>
    ensures { IfOk result (λ value. value ≡ entry_or_built (first_among (is_entry_for function args.items) entries.now
        places.now) function args.items) }
{
    for place in places {
        if let Some(entry) = entry_at(entries, *place, function, args.as_slice()) {
            return copied(alloc, &entry.value);
        }
    }
    Ok(Value::Fun(function, Seq::from_vec(args)))
}

impl EntryTable {
    /// The table of these nulls and entries.
    pub fn new(alloc: Global, algebra: Algebra) -> Result<EntryTable, AllocError>
        ensures { IfOk result (λ table. table ≡ algebra) }
    {
        let hashing = hashing_of(algebra.entries.as_slice());
        let lists = entry_lists(alloc, hashing, algebra.entries.as_slice())?;
        Ok(EntryTable {
            algebra,
            hashing,
            lists,
        })
    }

    /// The nulls and entries.
    pub(crate) fn algebra(&self) -> &Algebra
        ensures { result.now ≡ self.now }
    {
        &self.algebra
    }

    /// The value of a function at values: that of the first entry for it, or the value that is built where there is
    /// none.
    pub(crate) fn applied(
        &self,
        alloc: Global,
        function: u32,
        args: Vec<Value>,
    ) -> Result<Value, AllocError>
        ensures { IfOk result (λ value. value ≡ entry_or_built (find (is_entry_for function args.items)
            self.now.entries) function args.items) }
    {
        let entries = self.algebra.entries.as_slice();
        let lists = self.lists.as_slice();
        if lists.len() == 0 {
            return applied(alloc, entries, function, args);
        }
        let places = places_for(self.hashing, lists, function, args.as_slice());
        applied_among(alloc, entries, places, function, args)
    }
}
