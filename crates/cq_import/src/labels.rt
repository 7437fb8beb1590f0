//! The labels of nulls.
ghost use Rattle.std.specs.Prelude.{◌≡◌, ◌+◌, ◌++◌, ◌∷◌, ◌≤◌, ◌<◌, ◌^◌, [], None, IfOk, OnOk, length, map, slice_get};
ghost use Rattle.cq_theory.specs.declared.presentation.Sort.TheVariants.{Plain};
ghost use Rattle.cq_import.specs.Labels.{function_types, place_of_label, type_of_label, use_trouble, uses_in};
ghost use Rattle.cq_import.specs.Labels.{uses_trouble, with_use, with_uses, value_term as term_of_value};

use cq_base::{Hashing, Seq};
use cq_theory::{Sort, TypeTerm, Typeside, Value};
use indexmap::IndexMap;
use std::alloc::{AllocError, Global};
use std::marker::Model;

/// What is wrong with a label where it stands.
#[derive(Clone, Copy, Debug)]
pub enum Trouble {
    /// The label has another type, or it isn't among the labels that are given.
    Wrong,
    /// There is no room for one more label.
    Full,
}

/// Labels with their types, in order of first appearance. Contracts see the list of the pairs.
pub struct Labels {
    types: IndexMap<u64, u32, Hashing>,
}

impl Model for Labels {
    ghost use Rattle.std.specs.Prelude.{ℕ, List};

    ghost Value = { List (ℕ × ℕ) };

    ghost view = { λ labels. labels.types.entries };
}

impl Drop for Labels {
    fn drop(self) {
        let Self { types: _ } = self;
    }
}

impl Labels {
    /// No labels, in a table that hashes by this key.
    pub fn new(alloc: Global, hashing: Hashing) -> Labels
        ensures { result ≡ [] }
    {
        Labels {
            types: IndexMap::with_hasher(alloc, hashing),
        }
    }

    /// How many labels there are.
    pub fn len(&self) -> usize
        ensures { result ≡ length self.now }
    {
        self.types.len()
    }

    /// Appends the sorts of the labels' generators.
    pub fn push_sorts(&self, made: &mut Vec<Sort>) -> Result<(), AllocError>
        ensures { OnOk result (made.new.items ≡ made.old.items ++ map (λ u. Plain u.1) self.now) }
    {
        for place in 0..self.types.len() {
            let Some((_, sort)) = self.types.get_index(place) else {
                return Err(AllocError);
            };
            made.push(Sort::Plain(*sort))?;
        }
        Ok(())
    }

    /// The type of a label.
    pub fn type_of(&self, label: u64) -> Option<u32>
        ensures { result ≡ type_of_label self.now label }
    {
        self.types.get(&label).copied()
    }

    /// The place of a label.
    pub fn place_of(&self, label: u64) -> usize
        ensures place { result ≡ place_of_label self.now label }
        ensures within { result ≤ length self.now }
    {
        self.types.get_index_of(&label).unwrap_or(0)
    }

    /// Adds a label that isn't there.
    pub fn add(&mut self, label: u64, sort: u32) -> Result<(), AllocError>
        requires { type_of_label self.old label ≡ None }
        ensures { OnOk result (self.new ≡ self.old ++ (label, sort) ∷ []) }
    {
        self.types.insert(label, sort)?;
        Ok(())
    }

    /// Notes that a label stands at a place of this type, and tells what is wrong there. Labels are added up to `room`,
    /// or none at all, where they are given.
    pub fn note(
        &mut self,
        room: Option<u32>,
        label: u64,
        sort: u32,
    ) -> Result<Option<Trouble>, AllocError>
        ensures told { IfOk result (λ trouble. trouble ≡ use_trouble room self.old (label, sort)) }
        ensures noted { IfOk result (λ trouble. trouble ≡ None → self.new ≡ with_use self.old (label, sort)) }
    {
        if let Some(known) = self.type_of(label) {
            return Ok(if sort == known {
                None
            } else {
                Some(Trouble::Wrong)
            });
        }
        let Some(most) = room else {
            return Ok(Some(Trouble::Wrong));
        };
        if self.len() >= most as usize {
            return Ok(Some(Trouble::Full));
        }
        self.add(label, sort)?;
        Ok(None)
    }
}

/// The types of a function's arguments.
fn argument_types(typeside: &Typeside, function: u32) -> &[u32]
    ensures { result.now ≡ function_types (slice_get typeside.now.functions function) }
{
    match typeside.functions.as_slice().get(function as usize) {
        Some(function) => function.args.as_slice(),
        None => &[],
    }
}

/// Notes the labels in a value at a place of this type, and tells the first thing that is wrong there.
pub fn note_labels(
    typeside: &Typeside,
    room: Option<u32>,
    value: &Value,
    sort: u32,
    labels: &mut Labels,
) -> Result<Option<Trouble>, AllocError>
    ensures told { IfOk result (λ trouble. trouble ≡ uses_trouble room labels.old
        (uses_in typeside.now value.now sort)) }
    ensures noted { IfOk result (λ trouble. trouble ≡ None
        → labels.new ≡ with_uses labels.old (uses_in typeside.now value.now sort)) }
{
    match value {
        Value::Const(_) => Ok(None),
        Value::Null(label) => labels.note(room, *label, sort),
        Value::Fun(function, args) => {
            let types = argument_types(typeside, *function);
            for (place, arg) in args.as_slice().iter().enumerate() {
                let Some(sort) = types.get(place) else {
                    return Ok(None);
                };
                if let Some(trouble) = note_labels(typeside, room, arg, *sort, labels)? {
                    return Ok(Some(trouble));
                }
            }
            Ok(None)
        }
    }
}

/// The generator of a label, where those of the labels are the ones from `first` on.
fn generator_of(first: u32, labels: &Labels, label: u64) -> u32
    requires { first + length labels.now < 2 ^ 32 }
    ensures { result ≡ first + place_of_label labels.now label }
{
    first + labels.place_of(label) as u32
}

/// The value as a term, in which each null stands as its generator; those of the labels are the ones from `first` on.
pub fn value_term(
    alloc: Global,
    first: u32,
    labels: &Labels,
    value: &Value,
) -> Result<TypeTerm, AllocError>
    requires { first + length labels.now < 2 ^ 32 }
    ensures { IfOk result (λ made. made ≡ term_of_value first labels.now value.now) }
{
    match value {
        Value::Const(constant) => Ok(TypeTerm::Const(constant.clone()?)),
        Value::Null(label) => Ok(TypeTerm::Gen(generator_of(first, labels, *label))),
        Value::Fun(function, args) => {
            let mut made = Vec::new(alloc);
            for arg in args.as_slice() {
                made.push(value_term(alloc, first, labels, arg)?)?;
            }
            Ok(TypeTerm::Fun(*function, Seq::from_vec(made)))
        }
    }
}
