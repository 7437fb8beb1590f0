//! Schemas: entities, foreign keys, attributes and equations over a typeside.
ghost use Rattle.std.specs.Prelude.{◌≡◌, ◌+◌, ◌<◌, ◌^◌, ◌⊎◌, [], length, map, IfOk, OnOk, IfErr, Some, None};
ghost use Rattle.cq_base.specs.Names.{number_of};
ghost use Rattle.cq_theory.specs.Schema.{IsSchema, edge_names};
ghost use Rattle.cq_theory.specs.Paths.{made_path_eq};
ghost use Rattle.cq_theory.specs.SchemaParts.{entities_fault, keys_fault, started, path_eqs_fault, with_path_eqs};
ghost use Rattle.cq_theory.specs.SchemaParts.{attributes_fault, with_attributes, observations_fault, with_observations};
ghost use Rattle.cq_theory.specs.SchemaParts.{rest_fault, completed, schema_fault, schema_made};
ghost use Rattle.cq_theory.specs.Resolve.{or_else, constant_of, text_constant, symbol_of, sort_named};

use crate::constant::Con;
use crate::lookup::Symbol;
use crate::lookup::observations::add_observations;
use crate::lookup::paths::add_path_eqs;
use crate::lookup::schema_parts::{add_attributes, add_entities, add_keys, declared_names};
use crate::parts::{ObsPart, SchemaParts};
use crate::presentation::Sort;
use crate::refusal::TheoryRefusal;
use crate::term::TypeTerm;
use crate::typeside::Typeside;
use cq_base::{Hashing, Name, Names, Seq};
use std::alloc::{AllocError, Global};
use std::marker::Model;
use std::rc::Rc;

/// A foreign key from an entity to an entity, or an attribute from an entity to a type.
#[derive(Drop)]
pub struct Edge {
    pub name: Name,
    pub from: u32,
    pub to: u32,
}

/// Two paths of foreign keys from one entity.
#[derive(Drop)]
pub struct PathEq {
    pub entity: u32,
    pub left: Seq<u32>,
    pub right: Seq<u32>,
}

/// Two type terms over one variable of an entity, which is generator 0.
#[derive(Drop)]
pub struct ObsEq {
    pub entity: u32,
    pub left: TypeTerm,
    pub right: TypeTerm,
}

/// Entities, foreign keys, attributes and equations over a typeside. Contracts see these lists, which are well sorted
/// and in which no name stands twice among types and entities, nor among functions, foreign keys and attributes.
pub struct Schema {
    pub typeside: Rc<Typeside>,
    pub entities: Seq<Name>,
    pub keys: Seq<Edge>,
    pub attributes: Seq<Edge>,
    pub path_eqs: Seq<PathEq>,
    pub obs_eqs: Seq<ObsEq>,
    entity_table: Names,
    key_table: Names,
    attribute_table: Names,
}

impl Model for Schema {
    ghost use Rattle.std.specs.Prelude.{◌≡◌};
    ghost use Rattle.cq_theory.specs.SchemaData.{SchemaData};
    ghost use Rattle.std.specs.Coded.{codes};
    ghost use Rattle.cq_theory.specs.contracts.term.TypeTerm as type_term;

    ghost Value = { SchemaData };

    ghost coded = { Prim.hlevel (codes, type_term.the_row.coded) };

    ghost use Rattle.cq_theory.specs.Schema.{IsSchema, edge_names};

    ghost view = { λ s. record {
      typeside = s.typeside.value;
      entities = s.entities;
      keys = s.keys;
      attributes = s.attributes;
      path_eqs = s.path_eqs;
      obs_eqs = s.obs_eqs;
    } };

    // Each table has the names of its list.
    ghost invariant = { λ s.
        IsSchema (record {
          typeside = s.typeside.value;
          entities = s.entities;
          keys = s.keys;
          attributes = s.attributes;
          path_eqs = s.path_eqs;
          obs_eqs = s.obs_eqs;
        })
        × (s.entity_table ≡ s.entities)
        × (s.key_table ≡ edge_names s.keys)
        × (s.attribute_table ≡ edge_names s.attributes) };
}

impl Drop for Schema {
    fn drop(self) {
        let Self {
            typeside: _,
            entities: _,
            keys: _,
            attributes: _,
            path_eqs: _,
            obs_eqs: _,
            entity_table: _,
            key_table: _,
            attribute_table: _,
        } = self;
    }
}

impl Schema {
    /// The schema that the parts give over a typeside. Where parts break rules, the answer is the first such part
    /// with the least rule that it breaks, or want of memory.
    pub fn new(
        alloc: Global,
        typeside: Rc<Typeside>,
        parts: SchemaParts,
    ) -> Result<Schema, TheoryRefusal>
        requires { length parts.entities + length parts.keys + length parts.path_eqs + length parts.attributes + length
            parts.obs_eqs < 2 ^ 32 }
        ensures accepted { IfOk result (λ _. schema_fault typeside.value parts ≡ None) }
        ensures made { IfOk result (λ made. made ≡ schema_made typeside.value parts) }
        ensures refused { IfErr result (λ refusal. (refusal ≡ TheoryRefusal.Memory)
            ⊎ (schema_fault typeside.value parts ≡ Some refusal)) }
    {
        let SchemaParts {
            entities,
            keys,
            path_eqs,
            attributes,
            obs_eqs,
        } = parts;
        let first_key = entities.len() as u32;
        let first_path_eq = first_key + keys.len() as u32;
        let mut schema = start(alloc, typeside, entities, keys.as_slice())?;
        match complete(
            alloc,
            &mut schema,
            first_path_eq,
            path_eqs.as_slice(),
            attributes.as_slice(),
            obs_eqs.as_slice(),
        ) {
            Ok(()) => Ok(schema),
            Err(refusal) => Err(refusal),
        }
    }

    /// Every schema is well sorted. The call does nothing.
    pub fn is_well_sorted(&self)
        ensures { IsSchema self.now }
    {
        let _entities = self.entities.len();
    }

    /// How tables of what a file says over the schema are to hash: by the key of the file that declares its first
    /// entity, without which there is nothing to say.
    pub fn hashing(&self) -> Hashing {
        match self.entities.as_slice().first() {
            Some(entity) => entity.hashing(),
            None => Hashing::new(),
        }
    }

    /// The number of a declared constant of the typeside.
    pub fn find_constant(&self, name: &Name) -> Option<u32>
        ensures { result ≡ constant_of self.now name.now }
    {
        self.typeside.find_constant(name)
    }

    /// The constant of a text: the declared one with this content, else the open one, where the typeside has an open
    /// type.
    pub fn find_text(&self, text: &Name) -> Result<Option<Con>, AllocError>
        ensures { IfOk result (λ constant. constant ≡ text_constant self.now text.now) }
    {
        if let Some(number) = self.find_constant(text) {
            return Ok(Some(Con::Named(number)));
        }
        match self.typeside.open_type {
            Some(_) => Ok(Some(Con::Open(text.clone()?))),
            None => Ok(None),
        }
    }

    /// The type or entity of a name.
    pub fn find_sort(&self, name: &Name) -> Option<Sort>
        ensures { result ≡ sort_named self.now name.now }
    {
        if let Some(number) = self.typeside.find_type(name) {
            return Some(Sort::Plain(number));
        }
        match self.entity_table.find(name) {
            Some(number) => Some(Sort::Entity(number)),
            None => None,
        }
    }

    /// The number of an entity.
    pub fn find_entity(&self, name: &Name) -> Option<u32>
        ensures { result ≡ number_of self.now.entities name.now }
    {
        self.entity_table.find(name)
    }

    /// The number of a foreign key.
    pub fn find_key(&self, name: &Name) -> Option<u32>
        ensures { result ≡ number_of (edge_names self.now.keys) name.now }
    {
        self.key_table.find(name)
    }

    /// The number of an attribute.
    pub fn find_attribute(&self, name: &Name) -> Option<u32>
        ensures { result ≡ number_of (edge_names self.now.attributes) name.now }
    {
        self.attribute_table.find(name)
    }

    /// The table of the attributes.
    pub fn attribute_names(&self) -> &Names
        ensures { result.now ≡ edge_names self.now.attributes }
    {
        &self.attribute_table
    }

    /// The function, foreign key or attribute of a name.
    pub fn find_symbol(&self, name: &Name) -> Option<Symbol>
        ensures { result ≡ symbol_of self.now name.now }
    {
        if let Some(number) = self.typeside.find_function(name) {
            return Some(Symbol::Function(number));
        }
        if let Some(number) = self.key_table.find(name) {
            return Some(Symbol::Key(number));
        }
        match self.attribute_table.find(name) {
            Some(number) => Some(Symbol::Attribute(number)),
            None => None,
        }
    }
}

/// The schema of the entities and foreign keys.
fn start(
    alloc: Global,
    typeside: Rc<Typeside>,
    entities: Seq<Name>,
    key_parts: &[(Name, Name, Name)],
) -> Result<Schema, TheoryRefusal>
    requires { length entities + length key_parts.now < 2 ^ 32 }
    ensures accepted { IfOk result (λ _. or_else (entities_fault typeside.value entities)
        (keys_fault typeside.value entities (length entities) key_parts.now) ≡ None) }
    ensures made { IfOk result (λ made. made ≡ started typeside.value entities key_parts.now) }
    ensures refused { IfErr result (λ refusal. (refusal ≡ TheoryRefusal.Memory)
        ⊎ (or_else (entities_fault typeside.value entities)
        (keys_fault typeside.value entities (length entities) key_parts.now) ≡ Some refusal)) }
{
    let first = entities.len() as u32;
    typeside.is_well_sorted();
    let entity_table = add_entities(alloc, &typeside, entities.as_slice())?;
    match add_keys(alloc, &typeside, &entity_table, first, key_parts) {
        Ok((key_table, keys)) => Ok(Schema {
            typeside,
            entities,
            keys: Seq::from_vec(keys),
            attributes: Seq::from_vec(Vec::new(alloc)),
            path_eqs: Seq::from_vec(Vec::new(alloc)),
            obs_eqs: Seq::from_vec(Vec::new(alloc)),
            entity_table,
            key_table,
            attribute_table: Names::new(alloc),
        }),
        Err(refusal) => Err(refusal),
    }
}

/// Adds the path equations, the first of which is part `first`, the attributes and the observation equations.
fn complete(
    alloc: Global,
    schema: &mut Schema,
    first: u32,
    path_eqs: &[(Seq<Name>, Seq<Name>)],
    attributes: &[(Name, Name, Name)],
    obs_eqs: &[ObsPart],
) -> Result<(), TheoryRefusal>
    requires parts { first + length path_eqs.now + length attributes.now + length obs_eqs.now < 2 ^ 32 }
    requires started { schema.old.obs_eqs ≡ [] }
    ensures accepted { OnOk result (rest_fault schema.old path_eqs.now attributes.now obs_eqs.now first ≡ None) }
    ensures made { OnOk result (schema.new ≡ completed schema.old path_eqs.now attributes.now obs_eqs.now) }
    ensures refused { IfErr result (λ refusal. (refusal ≡ TheoryRefusal.Memory)
        ⊎ (rest_fault schema.old path_eqs.now attributes.now obs_eqs.now first ≡ Some refusal)) }
{
    let first_attribute = first + path_eqs.len() as u32;
    let first_observation = first_attribute + attributes.len() as u32;
    complete_path_eqs(alloc, schema, attributes, first, path_eqs)?;
    complete_attributes(alloc, schema, first_attribute, attributes)?;
    complete_observations(alloc, schema, first_observation, obs_eqs)?;
    Ok(())
}

/// Adds the path equations, while the attributes are not yet there.
fn complete_path_eqs(
    alloc: Global,
    schema: &mut Schema,
    attributes: &[(Name, Name, Name)],
    first: u32,
    parts: &[(Seq<Name>, Seq<Name>)],
) -> Result<(), TheoryRefusal>
    requires parts { first + length parts.now < 2 ^ 32 }
    requires attributes { length attributes.now < 2 ^ 32 }
    ensures accepted { OnOk result (path_eqs_fault schema.old attributes.now first parts.now ≡ None) }
    ensures made { OnOk result (schema.new ≡ with_path_eqs schema.old parts.now) }
    ensures refused { IfErr result (λ refusal. (refusal ≡ TheoryRefusal.Memory)
        ⊎ (path_eqs_fault schema.old attributes.now first parts.now ≡ Some refusal)) }
{
    let path_eqs = find_path_eqs(alloc, schema, attributes, first, parts)?;
    schema.path_eqs = Seq::from_vec(path_eqs);
    Ok(())
}

/// The path equations, while the attributes are not yet there.
fn find_path_eqs(
    alloc: Global,
    schema: &Schema,
    attributes: &[(Name, Name, Name)],
    first: u32,
    parts: &[(Seq<Name>, Seq<Name>)],
) -> Result<Vec<PathEq>, TheoryRefusal>
    requires parts { first + length parts.now < 2 ^ 32 }
    requires attributes { length attributes.now < 2 ^ 32 }
    ensures schema { IsSchema schema.now }
    ensures accepted { IfOk result (λ _. path_eqs_fault schema.now attributes.now first parts.now ≡ None) }
    ensures made { IfOk result (λ made. made.items ≡ map (made_path_eq schema.now) parts.now) }
    ensures refused { IfErr result (λ refusal. (refusal ≡ TheoryRefusal.Memory)
        ⊎ (path_eqs_fault schema.now attributes.now first parts.now ≡ Some refusal)) }
{
    schema.is_well_sorted();
    let names = declared_names(alloc, attributes)?;
    add_path_eqs(alloc, schema, &names, first, parts)
}

/// Adds the attributes.
fn complete_attributes(
    alloc: Global,
    schema: &mut Schema,
    first: u32,
    parts: &[(Name, Name, Name)],
) -> Result<(), TheoryRefusal>
    requires parts { first + length parts.now < 2 ^ 32 }
    requires started { schema.old.obs_eqs ≡ [] }
    ensures accepted { OnOk result (attributes_fault schema.old first parts.now ≡ None) }
    ensures made { OnOk result (schema.new ≡ with_attributes schema.old parts.now) }
    ensures refused { IfErr result (λ refusal. (refusal ≡ TheoryRefusal.Memory)
        ⊎ (attributes_fault schema.old first parts.now ≡ Some refusal)) }
{
    schema.is_well_sorted();
    let (table, attributes) = add_attributes(alloc, schema, first, parts)?;
    schema.attributes = Seq::from_vec(attributes);
    schema.attribute_table = table;
    Ok(())
}

/// Adds the observation equations.
fn complete_observations(
    alloc: Global,
    schema: &mut Schema,
    first: u32,
    parts: &[ObsPart],
) -> Result<(), TheoryRefusal>
    requires parts { first + length parts.now < 2 ^ 32 }
    ensures accepted { OnOk result (observations_fault schema.old first parts.now ≡ None) }
    ensures made { OnOk result (schema.new ≡ with_observations schema.old parts.now) }
    ensures refused { IfErr result (λ refusal. (refusal ≡ TheoryRefusal.Memory)
        ⊎ (observations_fault schema.old first parts.now ≡ Some refusal)) }
{
    schema.is_well_sorted();
    let obs_eqs = add_observations(alloc, schema, first, parts)?;
    schema.obs_eqs = Seq::from_vec(obs_eqs);
    Ok(())
}
