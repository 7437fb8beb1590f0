//! The schemas of joined symbols: without equations, and with the added ones.
ghost use Rattle.std.specs.Prelude.{ℕ, List, ◌≡◌, ◌+◌, ◌<◌, ◌≤◌, ◌^◌, ◌⊎◌, All, IfOk, IfErr, None, Some, length, map};
ghost use Rattle.std.specs.Prelude.{option_map};
ghost use Rattle.cq_theory.specs.Canonical.{below};
ghost use Rattle.cq_colimit.specs.Placing.{Part};
ghost use Rattle.cq_colimit.specs.Classes.{class_of};
ghost use Rattle.cq_colimit.specs.Joined.{entities_of, keys_of, attributes_of, keyed, framed as framed_by};
ghost use Rattle.cq_colimit.specs.Faults.{added_fault, of_colimit};
ghost use Rattle.cq_colimit.specs.Frame.{AreSymbols, HasSymbols, IsFrame, bare as bare_by};

use crate::added::of_added;
use crate::placed::Placed;
use crate::refusal::ColimitRefusal;
use crate::text::Text;
use crate::written::{attribute_parts, key_parts};
use cq_base::{Name, Seq};
use cq_theory::{ColimitParts, ObsPart, Schema, SchemaParts, Typeside};
use std::alloc::{AllocError, Global};
use std::rc::Rc;

/// The names of the joined entities.
pub(crate) fn names_of(alloc: Global, given: &[(Text, u32)]) -> Result<Vec<Name>, AllocError>
    ensures { IfOk result (λ made. made.items ≡ map (λ g. g.0) given.now) }
{
    let mut made = Vec::new(alloc);
    for name in given {
        made.push(name.0.to_name(alloc)?)?;
    }
    Ok(made)
}

/// The same names.
fn copied(alloc: Global, names: &[Name]) -> Result<Vec<Name>, AllocError>
    ensures { IfOk result (λ made. made.items ≡ names.now) }
{
    let mut made = Vec::new(alloc);
    for name in names {
        made.push(name.clone()?)?;
    }
    Ok(made)
}

/// The parts, the classes of their entities, and the names of the joined entities.
pub(crate) struct Symbols {
    pub parts: Vec<Placed>,
    pub numbers: Vec<u32>,
    pub entities: Vec<Name>,
}

impl Drop for Symbols {
    fn drop(self) {
        let Self {
            parts: _,
            numbers: _,
            entities: _,
        } = self;
    }
}

/// The parts of the joined schema, with equations that are not yet looked up.
fn schema_parts(
    alloc: Global,
    symbols: &Symbols,
    path_eqs: Seq<(Seq<Name>, Seq<Name>)>,
    obs_eqs: Seq<ObsPart>,
) -> Result<SchemaParts, AllocError>
    requires { All (λ part. part.start.entity + length part.schema.entities ≤ length symbols.now.numbers.items)
        symbols.now.parts.items }
    ensures entities { IfOk result (λ made. made.entities ≡ symbols.now.entities.items) }
    ensures path_eqs { IfOk result (λ made. made.path_eqs ≡ path_eqs) }
    ensures obs_eqs { IfOk result (λ made. made.obs_eqs ≡ obs_eqs) }
    ensures keys { (links : List (ℕ × ℕ)) → symbols.now.numbers.items ≡ map (class_of links) (below (length
        symbols.now.numbers.items)) → IfOk result (λ made.
        made.keys ≡ keys_of links symbols.now.entities.items symbols.now.parts.items) }
    ensures attributes { (links : List (ℕ × ℕ)) → symbols.now.numbers.items ≡ map (class_of links) (below (length
        symbols.now.numbers.items)) → IfOk result (λ made.
        made.attributes ≡ attributes_of links symbols.now.entities.items symbols.now.parts.items) }
{
    let parts = symbols.parts.as_slice();
    let numbers = symbols.numbers.as_slice();
    let entities = symbols.entities.as_slice();
    let keys = key_parts(alloc, parts, numbers, entities)?;
    let attributes = attribute_parts(alloc, parts, numbers, entities)?;
    let names = copied(alloc, entities)?;
    Ok(SchemaParts {
        entities: Seq::from_vec(names),
        keys: Seq::from_vec(keys),
        path_eqs,
        attributes: Seq::from_vec(attributes),
        obs_eqs,
    })
}

/// The schema of the joined symbols, without equations.
pub(crate) fn bare(
    alloc: Global,
    typeside: Rc<Typeside>,
    symbols: &Symbols,
) -> Result<Rc<Schema>, AllocError>
    requires { (links : List (ℕ × ℕ)) × (given : List Part) × AreSymbols links typeside.value given
        symbols.now.parts.items symbols.now.numbers.items symbols.now.entities.items }
    ensures right { (links : List (ℕ × ℕ)) (given : List Part) → AreSymbols links typeside.value given
        symbols.now.parts.items symbols.now.numbers.items symbols.now.entities.items
        → IfOk result (λ _. HasSymbols links typeside.value symbols.now.parts.items) }
    ensures made { (links : List (ℕ × ℕ)) (given : List Part) → AreSymbols links typeside.value given
        symbols.now.parts.items symbols.now.numbers.items symbols.now.entities.items
        → IfOk result (λ made. made.value ≡ bare_by links typeside.value symbols.now.parts.items) }
    ensures frame { (links : List (ℕ × ℕ)) (given : List Part) → AreSymbols links typeside.value given
        symbols.now.parts.items symbols.now.numbers.items symbols.now.entities.items
        → IfOk result (λ made. IsFrame links symbols.now.parts.items made.value) }
{
    let none = Seq::from_vec(Vec::new(alloc));
    let written = schema_parts(alloc, symbols, none, Seq::from_vec(Vec::new(alloc)))?;
    // The joined names have passed their tests, so what is left is want of memory.
    let made = Schema::new(alloc, typeside, written);
    let Ok(schema) = made else {
        return Err(AllocError);
    };
    schema.is_well_sorted();
    let frame = shared(alloc, schema)?;
    Ok(frame)
}

/// The schema behind a shared pointer.
pub(crate) fn shared(alloc: Global, schema: Schema) -> Result<Rc<Schema>, AllocError>
    ensures { IfOk result (λ made. made.value ≡ schema) }
{
    match Rc::new(alloc, schema) {
        Ok(schema) => Ok(schema),
        Err(_) => Err(AllocError),
    }
}

/// The schema of the joined symbols with the added equations, the first of which is part `first` of the call.
pub(crate) fn framed(
    alloc: Global,
    typeside: Rc<Typeside>,
    symbols: &Symbols,
    first: u32,
    joins: ColimitParts,
) -> Result<Schema, ColimitRefusal>
    requires symbols { (links : List (ℕ × ℕ)) × (given : List Part) × AreSymbols links typeside.value given
        symbols.now.parts.items symbols.now.numbers.items symbols.now.entities.items }
    requires few { length joins.path_eqs + length joins.obs_eqs ≤ 1000000 }
    requires first { first + length joins.path_eqs + length joins.obs_eqs < 2 ^ 32 }
    ensures accepted { (links : List (ℕ × ℕ)) (given : List Part) → AreSymbols links typeside.value given
        symbols.now.parts.items symbols.now.numbers.items symbols.now.entities.items
        → IfOk result (λ _. added_fault (keyed links typeside.value symbols.now.parts.items) (attributes_of links
        (entities_of links symbols.now.parts.items) symbols.now.parts.items) first joins ≡ None) }
    ensures made { (links : List (ℕ × ℕ)) (given : List Part) → AreSymbols links typeside.value given
        symbols.now.parts.items symbols.now.numbers.items symbols.now.entities.items
        → IfOk result (λ made. made ≡ framed_by links typeside.value symbols.now.parts.items joins) }
    ensures refused { (links : List (ℕ × ℕ)) (given : List Part) → AreSymbols links typeside.value given
        symbols.now.parts.items symbols.now.numbers.items symbols.now.entities.items
        → HasSymbols links typeside.value symbols.now.parts.items
        → IfErr result (λ refusal. (refusal ≡ ColimitRefusal.Memory) ⊎ (option_map of_colimit (added_fault (keyed links
        typeside.value symbols.now.parts.items) (attributes_of links (entities_of links symbols.now.parts.items)
        symbols.now.parts.items) first joins) ≡ Some refusal)) }
{
    let ColimitParts {
        pairs: _,
        path_eqs,
        obs_eqs,
    } = joins;
    let written = schema_parts(alloc, symbols, path_eqs, obs_eqs)?;
    let before = (written.entities.len() + written.keys.len()) as u32;
    let paths = written.path_eqs.len() as u32;
    let attributes = written.attributes.len() as u32;
    let made = Schema::new(alloc, typeside, written);
    match made {
        Ok(schema) => Ok(schema),
        Err(refusal) => Err(of_added(refusal, first, before, paths, attributes)),
    }
}
