//! Queries.
ghost use Rattle.std.specs.Prelude.{◌≡◌, ◌+◌, ◌<◌, ◌≤◌, ◌^◌, ◌⊎◌, All, IfOk, IfErr, Some, None, length, slice_get};
ghost use Rattle.std.specs.Prelude.{option_copied};
ghost use Rattle.cq_query.specs.QueryParts.{query_fault, query_made};
ghost use Rattle.cq_theory.specs.Groups.{positions, places};
ghost use Rattle.cq_query.specs.Translation.{variables_at, key_sources, attribute_sources, path_sources};
ghost use Rattle.cq_query.specs.Translation.{observation_sources};
ghost use Rattle.cq_query.specs.IsQuery.{IsQuery};

use cq_base::Seq;
pub use cq_blocks::Block;
use cq_blocks::{BlockParts, QueryParts, make_blocks, make_entities};
use cq_theory::{ArrowRefusal, Beginnings, Edge, ObsEq, PathEq, Schema};
use std::alloc::{AllocError, Global};
use std::marker::Model;
use std::rc::Rc;

/// A query from a source to a target: a block for each entity of the target, in its order (Schultz and Wisnesky,
/// Algebraic Data Integration: uber-flower queries). Contracts see the schemas and the blocks, which are well sorted.
pub struct Query {
    pub source: Rc<Schema>,
    pub target: Rc<Schema>,
    pub blocks: Seq<Block>,
    beginnings: Beginnings,
}

impl Model for Query {
    ghost use Rattle.std.specs.Coded.{codes};
    ghost use Rattle.cq_theory.specs.contracts.term.TypeTerm as type_term;
    ghost use Rattle.cq_query.specs.QueryData.{QueryData};
    ghost use Rattle.cq_query.specs.IsQuery.{IsQuery};
    ghost use Rattle.cq_theory.specs.Beginnings.{AreBeginningsOf};

    ghost Value = { QueryData };

    ghost coded = { Prim.hlevel (codes, type_term.the_row.coded) };

    ghost view = { λ q. record {
      source = q.source.value;
      target = q.target.value;
      blocks = q.blocks;
    } };

    ghost invariant = { λ q.
        IsQuery (record {
          source = q.source.value;
          target = q.target.value;
          blocks = q.blocks;
        })
        × AreBeginningsOf q.target.value q.beginnings };
}

impl Drop for Query {
    fn drop(self) {
        let Self {
            source: _,
            target: _,
            blocks: _,
            beginnings: _,
        } = self;
    }
}

impl Query {
    /// The query that the parts give between schemas of one typeside. The entities of the blocks are tried first,
    /// then whether each entity has a block, then the variables, then the clauses in order, and then, entity by
    /// entity, whether each attribute and each foreign key is given, and each foreign key's term for each variable.
    /// The answer is the first fault, of a part the least rule that it breaks, or want of memory.
    pub fn new(
        alloc: Global,
        source: Rc<Schema>,
        target: Rc<Schema>,
        parts: QueryParts,
    ) -> Result<Query, ArrowRefusal>
        requires typeside { source.value.typeside ≡ target.value.typeside }
        requires parts { length parts.entities + length parts.vars + length parts.clauses < 2 ^ 32 }
        // Each variable and each clause stands in a block.
        requires vars { All (λ part. part.0 < length parts.entities) parts.vars }
        requires clauses { All (λ part. part.0 < length parts.entities) parts.clauses }
        ensures accepted { IfOk result (λ _. query_fault source.value target.value parts ≡ None) }
        ensures made { IfOk result (λ made. made ≡ query_made source.value target.value parts) }
        ensures refused { IfErr result (λ refusal. (refusal ≡ ArrowRefusal.Memory)
            ⊎ (query_fault source.value target.value parts ≡ Some refusal)) }
    {
        let QueryParts {
            entities,
            vars,
            clauses,
        } = parts;
        source.is_well_sorted();
        target.is_well_sorted();
        let first = entities.len() as u32;
        let blocks = make_entities(alloc, &target, entities.as_slice())?;
        let parts = BlockParts {
            entities: blocks.as_slice(),
            first,
            vars: vars.as_slice(),
            clauses: clauses.as_slice(),
        };
        match make_blocks(alloc, &source, &target, &parts) {
            Ok((blocks, beginnings)) => Ok(Query {
                source,
                target,
                blocks: Seq::from_vec(blocks),
                beginnings,
            }),
            Err(refusal) => Err(refusal),
        }
    }

    /// The query of these blocks, one for each entity of the target, between these schemas.
    pub fn of_blocks(
        alloc: Global,
        source: Rc<Schema>,
        target: Rc<Schema>,
        blocks: Seq<Block>,
    ) -> Result<Query, AllocError>
        requires { IsQuery (record { source = source.value; target = target.value; blocks = blocks }) }
        ensures { IfOk result (λ made. made ≡ record {
          source = source.value;
          target = target.value;
          blocks = blocks;
        }) }
    {
        let beginnings = Beginnings::of(alloc, &target)?;
        Ok(Query {
            source,
            target,
            blocks,
            beginnings,
        })
    }

    /// Every query is well sorted. The call does nothing.
    pub fn is_well_sorted(&self)
        ensures { IsQuery self.now }
    {
        let _blocks = self.blocks.len();
    }

    /// How many entities the target has.
    pub fn entity_count(&self) -> u32
        ensures { result ≡ length self.now.target.entities }
    {
        self.is_well_sorted();
        self.target.entities.len() as u32
    }

    /// The block of an entity of the target.
    pub fn block(&self, entity: u32) -> Option<&Block>
        ensures { option_copied result ≡ slice_get self.now.blocks entity }
    {
        self.blocks.as_slice().get(entity as usize)
    }

    /// A foreign key of the target.
    pub(crate) fn key(&self, key: u32) -> Option<&Edge>
        ensures { option_copied result ≡ slice_get self.now.target.keys key }
    {
        self.target.keys.as_slice().get(key as usize)
    }

    /// A path equation of the target.
    pub(crate) fn path_eq(&self, number: u32) -> Option<&PathEq>
        ensures { option_copied result ≡ slice_get self.now.target.path_eqs number }
    {
        self.target.path_eqs.as_slice().get(number as usize)
    }

    /// An observation equation of the target.
    pub(crate) fn obs_eq(&self, number: u32) -> Option<&ObsEq>
        ensures { option_copied result ≡ slice_get self.now.target.obs_eqs number }
    {
        self.target.obs_eqs.as_slice().get(number as usize)
    }

    /// The place of a foreign key of the target among those of its entity.
    pub(crate) fn key_place(&self, key: u32) -> Option<u32>
        ensures { result ≡ slice_get (places (key_sources self.now)) key }
    {
        self.beginnings
            .keys
            .places
            .as_slice()
            .get(key as usize)
            .copied()
    }

    /// The place of an attribute of the target among those of its entity.
    pub(crate) fn attribute_place(&self, attribute: u32) -> Option<u32>
        ensures { result ≡ slice_get (places (attribute_sources self.now)) attribute }
    {
        self.beginnings
            .attributes
            .places
            .as_slice()
            .get(attribute as usize)
            .copied()
    }

    /// The numbers of the foreign keys from an entity of the target.
    pub(crate) fn keys_from(&self, entity: u32) -> &[u32]
        requires { entity < length self.now.target.entities }
        ensures { result.now ≡ positions (key_sources self.now) entity }
    {
        self.beginnings.keys.of(entity)
    }

    /// The numbers of the attributes from an entity of the target.
    pub(crate) fn attributes_from(&self, entity: u32) -> &[u32]
        requires { entity < length self.now.target.entities }
        ensures { result.now ≡ positions (attribute_sources self.now) entity }
    {
        self.beginnings.attributes.of(entity)
    }

    /// The numbers of the path equations that begin at an entity of the target.
    pub(crate) fn path_eqs_from(&self, entity: u32) -> &[u32]
        requires { entity < length self.now.target.entities }
        ensures { result.now ≡ positions (path_sources self.now) entity }
    {
        self.beginnings.path_eqs.of(entity)
    }

    /// The numbers of the observation equations at an entity of the target.
    pub(crate) fn obs_eqs_from(&self, entity: u32) -> &[u32]
        requires { entity < length self.now.target.entities }
        ensures { result.now ≡ positions (observation_sources self.now) entity }
    {
        self.beginnings.obs_eqs.of(entity)
    }

    /// How many variables the block of an entity has.
    pub(crate) fn variable_count(&self, entity: u32) -> u32
        ensures count { result ≡ length (variables_at self.now entity) }
        ensures few { result ≤ 16000000 }
    {
        self.is_well_sorted();
        match self.block(entity) {
            Some(block) => block.vars.len() as u32,
            None => 0,
        }
    }
}
