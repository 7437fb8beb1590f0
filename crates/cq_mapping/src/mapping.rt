//! Mappings.
ghost use Rattle.std.specs.Prelude.{◌≡◌, ◌+◌, ◌<◌, ◌^◌, ◌⊎◌, ◌∷◌, [], length, map, IfOk, IfErr, Some, None};
ghost use Rattle.cq_mapping.specs.Mapping.{IsMapping, identity_of, attribute_itself};
ghost use Rattle.cq_theory.specs.Canonical.{below};
ghost use Rattle.cq_mapping.specs.MappingParts.{mapping_fault, mapping_made};

use crate::arrows::make_arrows;
use crate::blocks::make_entities;
use cq_base::Seq;
use cq_theory::{ArrowRefusal, EntTerm, MappingParts, Path, Schema, TypeTerm};
use std::alloc::{AllocError, Global};
use std::marker::Model;
use std::rc::Rc;

/// A mapping from a schema to another over the same typeside: the image of each entity, the path of each foreign key,
/// and the term of each attribute over one variable, which is generator 0. Contracts see these lists, in which each
/// image has the right ends and type.
pub struct Mapping {
    pub source: Rc<Schema>,
    pub target: Rc<Schema>,
    pub entities: Seq<u32>,
    pub keys: Seq<Seq<u32>>,
    pub attributes: Seq<TypeTerm>,
}

impl Model for Mapping {
    ghost use Rattle.cq_mapping.specs.MappingData.{MappingData};
    ghost use Rattle.std.specs.Coded.{codes};
    ghost use Rattle.cq_theory.specs.contracts.term.TypeTerm as type_term;

    ghost Value = { MappingData };

    ghost coded = { Prim.hlevel (codes, type_term.the_row.coded) };

    ghost use Rattle.cq_mapping.specs.Mapping.{IsMapping};

    ghost view = { λ f. record {
      source = f.source.value;
      target = f.target.value;
      entities = f.entities;
      keys = f.keys;
      attributes = f.attributes;
    } };

    ghost invariant = { λ f. IsMapping (record {
      source = f.source.value;
      target = f.target.value;
      entities = f.entities;
      keys = f.keys;
      attributes = f.attributes;
    }) };
}

impl Drop for Mapping {
    fn drop(self) {
        let Self {
            source: _,
            target: _,
            entities: _,
            keys: _,
            attributes: _,
        } = self;
    }
}

impl Mapping {
    /// The mapping that the parts give between schemas of one typeside. The parts of entities are tried first, then
    /// whether each entity has an image, then the other parts in order, and then whether each foreign key and each
    /// attribute has one. The answer is the first fault, of a part the least rule that it breaks, or want of memory.
    pub fn new(
        alloc: Global,
        source: Rc<Schema>,
        target: Rc<Schema>,
        parts: MappingParts,
    ) -> Result<Mapping, ArrowRefusal>
        requires typeside { source.value.typeside ≡ target.value.typeside }
        requires parts { length parts.entities + length parts.arrows < 2 ^ 32 }
        ensures accepted { IfOk result (λ _. mapping_fault source.value target.value parts ≡ None) }
        ensures made { IfOk result (λ made. made ≡ mapping_made source.value target.value parts) }
        ensures refused { IfErr result (λ refusal. (refusal ≡ ArrowRefusal.Memory)
            ⊎ (mapping_fault source.value target.value parts ≡ Some refusal)) }
    {
        let MappingParts { entities, arrows } = parts;
        let first = entities.len() as u32;
        let images = make_entities(alloc, &source, &target, entities.as_slice())?;
        match make_arrows(
            alloc,
            &source,
            &target,
            images.as_slice(),
            first,
            arrows.as_slice(),
        ) {
            Ok((keys, attributes)) => {
                source.is_well_sorted();
                target.is_well_sorted();
                Ok(Mapping {
                    source,
                    target,
                    entities: Seq::from_vec(images),
                    keys: Seq::from_vec(keys),
                    attributes: Seq::from_vec(attributes),
                })
            }
            Err(refusal) => Err(refusal),
        }
    }

    /// Every mapping is well sorted. The call does nothing.
    pub fn is_well_sorted(&self)
        ensures { IsMapping self.now }
    {
        let _entities = self.entities.len();
    }

    /// The mapping that sends each entity, foreign key and attribute of a schema to itself.
    pub fn identity(alloc: Global, schema: Rc<Schema>) -> Result<Mapping, AllocError>
        ensures { IfOk result (λ made. made ≡ identity_of schema.value) }
    {
        schema.is_well_sorted();
        let entities = numbers_below(alloc, schema.entities.len() as u32)?;
        let keys = single_keys(alloc, schema.keys.len() as u32)?;
        let attributes = single_attributes(alloc, schema.attributes.len() as u32)?;
        Ok(Mapping {
            source: schema.clone()?,
            target: schema,
            entities: Seq::from_vec(entities),
            keys: Seq::from_vec(keys),
            attributes: Seq::from_vec(attributes),
        })
    }
}

#[tactic(auto, using(crate::proofs::Ranges::below_more))]
fn numbers_below(alloc: Global, count: u32) -> Result<Vec<u32>, AllocError>
    ensures { IfOk result (λ made. made.items ≡ below count) }
{
    let mut made = Vec::new(alloc);
    for number in 0..count {
        made.push(number)?;
    }
    Ok(made)
}

/// The paths of one foreign key each.
#[tactic(auto, using(crate::proofs::Ranges::map_below_more))]
fn single_keys(alloc: Global, count: u32) -> Result<Vec<Seq<u32>>, AllocError>
    ensures { IfOk result (λ made. made.items ≡ map (λ k. k ∷ []) (below count)) }
{
    let mut made = Vec::new(alloc);
    for key in 0..count {
        made.push(Seq::from_vec(vec![in alloc; key]?))?;
    }
    Ok(made)
}

/// The attributes of the one variable.
#[tactic(auto, using(crate::proofs::Ranges::map_below_more))]
fn single_attributes(alloc: Global, count: u32) -> Result<Vec<TypeTerm>, AllocError>
    ensures { IfOk result (λ made. made.items ≡ map attribute_itself (below count)) }
{
    let mut made = Vec::new(alloc);
    for attribute in 0..count {
        let variable = EntTerm {
            generator: 0,
            path: Path::empty(),
        };
        made.push(TypeTerm::Att(attribute, variable))?;
    }
    Ok(made)
}
