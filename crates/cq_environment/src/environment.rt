//! The declared names in order, and what they stand for.
ghost use Rattle.std.specs.Prelude.{◌≡◌, ◌++◌, ◌∷◌, [], Some, None, IfOk, IfErr, OnErr, OnOk, option_map};
ghost use Rattle.cq_environment.specs.Meanings.{meant_by, moved_under, typeside, typeside_used, schema_used};
ghost use Rattle.cq_environment.specs.Environment.{Answers, environment_of, meant, schema_meant};
ghost use Rattle.cq_environment.specs.declared.refusal.ProgramRefusal.TheVariants.{Broken};
ghost use Rattle.cq_environment.specs.declared.reason.Reason.TheVariants.{NameUnknown, WrongKind};

use crate::moved::Moved;
use crate::reason::Reason;
use crate::refusal::ProgramRefusal;
use cq_base::{Hashing, Name, Seq};
use cq_instance::{Instance, Transform};
use cq_lazy::LazyQuery;
use cq_mapping::Mapping;
use cq_syntax::Spot;
use cq_theory::{Schema, Typeside};
use indexmap::IndexMap;
use std::alloc::{AllocError, Global};
use std::rc::Rc;

/// A schema, with the name under which it is printed, that of its own declaration, and the name of its typeside's
/// declaration.
#[derive(Drop)]
pub struct NamedSchema {
    pub name: Name,
    pub typeside: Name,
    pub schema: Rc<Schema>,
}

/// A part of a colimit: the name under which it stands in the colimit's declaration, the name under which its schema is
/// printed, and its inclusion.
#[derive(Drop)]
pub struct NamedPart {
    pub name: Name,
    pub source: Name,
    pub inclusion: Rc<Mapping>,
}

/// A colimit: its schema, which is printed under its own name, and its parts in order.
pub struct NamedColimit {
    pub schema: NamedSchema,
    pub parts: Seq<NamedPart>,
}

impl Drop for NamedColimit {
    fn drop(self) {
        let Self {
            schema: _,
            parts: _,
        } = self;
    }
}

/// An instance, with the name under which its schema is printed.
#[derive(Drop)]
pub struct NamedInstance {
    pub schema: Name,
    pub instance: Rc<Instance>,
}

/// The ends of a transform, with their declared names.
pub struct NamedEnds {
    pub source: Name,
    pub target: Name,
    pub start: NamedInstance,
    pub finish: NamedInstance,
}

impl Drop for NamedEnds {
    fn drop(self) {
        let Self {
            source: _,
            target: _,
            start: _,
            finish: _,
        } = self;
    }
}

/// A transform, with its ends.
pub struct NamedTransform {
    pub ends: NamedEnds,
    pub transform: Rc<Transform>,
}

impl Drop for NamedTransform {
    fn drop(self) {
        let Self {
            ends: _,
            transform: _,
        } = self;
    }
}

/// What a declared name stands for. An instance goes with the name under which its schema is printed, a mapping and a
/// query with those of their source and their target, and a transform with its ends.
#[derive(Drop)]
pub enum Meaning {
    Typeside(Rc<Typeside>),
    Schema(NamedSchema),
    Colimit(NamedColimit),
    Mapping(Name, Name, Rc<Mapping>),
    Query(Name, Name, Rc<LazyQuery>),
    Instance(Name, Rc<Instance>),
    Transform(NamedTransform),
}

/// What a declared name stands for, and by what it was declared, if an operation moved it.
pub struct Bound {
    pub meaning: Meaning,
    pub moved: Option<Moved>,
}

impl Bound {
    /// What the name stands for.
    pub fn into_meaning(self) -> Meaning
        ensures { result ≡ self.meaning }
    {
        let Self { meaning, moved: _ } = self;
        meaning
    }
}

impl Drop for Bound {
    fn drop(self) {
        let Self {
            meaning: _,
            moved: _,
        } = self;
    }
}

/// The declared names in order, with what each stands for. That is boxed, so that what holds an entry is small.
pub struct Environment {
    // Hashed as its first name wants it.
    pub names: IndexMap<Name, Box<Bound>, Hashing>,
}

impl Drop for Environment {
    fn drop(self) {
        let Self { names: _ } = self;
    }
}

impl Environment {
    /// The names, each with what it stands for.
    pub fn into_names(self) -> IndexMap<Name, Box<Bound>, Hashing>
        ensures { result.entries ≡ self.names.entries }
    {
        let Self { names } = self;
        names
    }

    /// No names.
    pub fn new(alloc: Global) -> Environment
        ensures { result.names.entries ≡ [] }
    {
        Environment {
            names: IndexMap::with_hasher(alloc, Hashing::new()),
        }
    }

    /// What a name stands for.
    pub fn find(&self, name: &Name) -> Option<&Meaning>
        ensures { option_map (λ meaning. meant meaning.now) result ≡ meant_by
            (environment_of self.now.names.entries) name.now }
    {
        match self.names.get(name) {
            Some(bound) => Some(&bound.meaning),
            None => None,
        }
    }

    /// By what the instance of a name was declared, if an operation moved it.
    pub fn moved(&self, name: &Name) -> Option<&Moved>
        ensures { option_map (λ moved. moved.now) result ≡ moved_under
            (environment_of self.now.names.entries) name.now }
    {
        match self.names.get(name) {
            Some(bound) => bound.moved.as_ref(),
            None => None,
        }
    }

    /// What a used name stands for; `NameUnknown`, where it isn't declared.
    pub fn find_used(&self, used: &Spot) -> Result<&Meaning, ProgramRefusal>
        ensures declared { IfOk result (λ meaning. meant_by (environment_of self.now.names.entries) used.now.name
            ≡ Some (meant meaning.now)) }
        ensures unknown { IfErr result (λ refusal. (refusal ≡ Broken used.now.place NameUnknown)
            × (meant_by (environment_of self.now.names.entries) used.now.name ≡ None)) }
    {
        match self.find(&used.name) {
            Some(meaning) => Ok(meaning),
            None => Err(tell_unknown(used)),
        }
    }

    /// The typeside for which a used name stands.
    pub fn typeside(&self, used: &Spot) -> Result<Rc<Typeside>, ProgramRefusal>
        ensures answers { Answers (λ typeside. typeside.value) result
            (typeside_used (environment_of self.now.names.entries) used.now) }
        ensures meant { IfOk result (λ found. meant_by (environment_of self.now.names.entries) used.now.name
            ≡ Some (typeside found.value)) }
    {
        match self.find_used(used)? {
            Meaning::Typeside(typeside) => Ok(typeside.clone()?),
            _ => Err(tell_wrong_kind(used)),
        }
    }

    /// The schema for which a used name stands.
    pub fn schema(&self, used: &Spot) -> Result<NamedSchema, ProgramRefusal>
        ensures { Answers schema_meant result (schema_used (environment_of self.now.names.entries) used.now) }
    {
        match self.find_used(used)? {
            Meaning::Schema(named) => Ok(copy_named(named)?),
            Meaning::Colimit(named) => Ok(copy_named(&named.schema)?),
            _ => Err(tell_wrong_kind(used)),
        }
    }

    /// Adds a name behind the others. Where memory is wanting, or the name is there already, nothing changes.
    pub fn add(&mut self, alloc: Global, name: Name, bound: Bound) -> Result<(), AllocError>
        ensures added { OnOk result (environment_of self.new.names.entries
            ≡ environment_of self.old.names.entries ++ (name, meant bound.meaning, bound.moved) ∷ []) }
        ensures unchanged { OnErr result (self.new.names.entries ≡ self.old.names.entries) }
    {
        let bound = Box::new(alloc, bound)?;
        if self.names.contains_key(&name) {
            return Err(AllocError);
        }
        self.hash_like(alloc, &name);
        self.names.insert(name, bound)?;
        Ok(())
    }

    /// Lets a table without names hash as this name wants it.
    fn hash_like(&mut self, alloc: Global, name: &Name)
        ensures { self.new.names.entries ≡ self.old.names.entries }
    {
        if self.names.is_empty() {
            self.names = IndexMap::with_hasher(alloc, name.hashing());
        }
    }
}

/// A schema once more.
pub fn copy_named(named: &NamedSchema) -> Result<NamedSchema, AllocError>
    ensures { IfOk result (λ copy. schema_meant copy ≡ schema_meant named.now) }
{
    Ok(NamedSchema {
        name: named.name.clone()?,
        typeside: named.typeside.clone()?,
        schema: named.schema.clone()?,
    })
}

/// The refusal that a used name isn't declared.
fn tell_unknown(used: &Spot) -> ProgramRefusal
    ensures { result ≡ Broken used.now.place NameUnknown }
{
    ProgramRefusal::Broken(used.place, Reason::NameUnknown)
}

/// The refusal that a used name stands for something of another kind.
pub fn tell_wrong_kind(used: &Spot) -> ProgramRefusal
    ensures { result ≡ Broken used.now.place WrongKind }
{
    ProgramRefusal::Broken(used.place, Reason::WrongKind)
}
