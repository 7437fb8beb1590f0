//! The schemas that a colimit joins, and the names that they give.
use crate::signature::Signature;
use crate::sorted::{Arrow, NamedSort, numbered_sort};
use cq_base::Name;
use cq_environment::{Environment, Meaning};
use cq_known::{Kind, joined_name};
use cq_syntax::{ColimitLit, PairSyn};
use cq_theory::{Edge, Schema};
use std::alloc::{AllocError, Global};
use std::rc::Rc;

/// A schema that is joined, and the number of its first entity among those of all parts.
#[derive(Drop)]
pub struct JoinedSchema {
    pub name: Name,
    pub schema: Rc<Schema>,
    start: usize,
}

/// The schemas that are joined, and for each of their entities the number of an earlier one with which it is one, or
/// its own. So the first of those that are one has its own.
#[derive(Drop)]
pub struct Joined {
    schemas: Vec<JoinedSchema>,
    earlier: Vec<usize>,
}

impl Joined {
    /// The schemas of a colimit, with the entities made one that its pairs list.
    pub fn new(
        alloc: Global,
        env: &Environment,
        literal: &ColimitLit,
    ) -> Result<Joined, AllocError> {
        let mut joined = Joined {
            schemas: Vec::new(alloc),
            earlier: Vec::new(alloc),
        };
        for part in literal.parts.as_slice() {
            joined.add_part(env, &part.name)?;
        }
        joined.link_pairs(literal.pairs.as_slice());
        joined.shorten();
        Ok(joined)
    }

    fn add_part(&mut self, env: &Environment, name: &Name) -> Result<(), AllocError> {
        let schema = match env.find(name) {
            Some(Meaning::Schema(named)) => named.schema.clone()?,
            Some(Meaning::Colimit(named)) => named.schema.schema.clone()?,
            _ => return Ok(()),
        };
        let start = self.earlier.len();
        for _entity in schema.entities.as_slice() {
            let number = self.earlier.len();
            self.earlier.push(number)?;
        }
        let name = name.clone()?;
        self.schemas.push(JoinedSchema {
            name,
            schema,
            start,
        })?;
        Ok(())
    }

    fn link_pairs(&mut self, pairs: &[PairSyn]) {
        for pair in pairs {
            self.link_pair(pair);
        }
    }

    /// Makes the entities of a pair one.
    fn link_pair(&mut self, pair: &PairSyn) {
        let Some(left) = self.number_of(&pair.left) else {
            return;
        };
        let Some(right) = self.number_of(&pair.right) else {
            return;
        };
        let left_first = self.first_of(left);
        let right_first = self.first_of(right);
        let first = left_first.min(right_first);
        self.lead(left_first.max(right_first), first);
        self.lead(left, first);
        self.lead(right, first);
    }

    /// Notes that an entity is one with an earlier one.
    fn lead(&mut self, number: usize, earlier: usize) {
        if let Some(place) = self.earlier.get_mut(number) {
            *place = earlier;
        }
    }

    /// Lets each entity lead to the first that is one with it, so that this is found in one step.
    fn shorten(&mut self) {
        for number in 0..self.earlier.len() {
            let first = self.first_of(number);
            self.lead(number, first);
        }
    }

    /// The number of an entity of a part among those of all parts.
    fn number_of(&self, end: &(Name, Name)) -> Option<usize> {
        let part = self.find_schema(&end.0)?;
        let number = part.schema.find_entity(&end.1)?;
        Some(part.start.saturating_add(number as usize))
    }

    fn find_schema(&self, name: &Name) -> Option<&JoinedSchema> {
        self.schemas
            .as_slice()
            .iter()
            .find(|part| part.name == *name)
    }

    /// The first of the entities that are one with the one of a number.
    fn first_of(&self, number: usize) -> usize {
        let mut here = number;
        for _step in 0..self.earlier.len() {
            match self.earlier.as_slice().get(here) {
                Some(earlier) if *earlier < here => here = *earlier,
                _ => return here,
            }
        }
        here
    }

    /// The schema with a number, from 1.
    pub fn schema_numbered(&self, number: u32) -> Option<&JoinedSchema> {
        let place = number.checked_sub(1)?;
        self.schemas.as_slice().get(place as usize)
    }

    /// Adds the names of the joined schema, but for those of the typeside.
    pub fn add_names(&self, alloc: Global, made: &mut Signature) -> Result<(), AllocError> {
        for part in self.schemas.as_slice() {
            let entities = self.entity_names(alloc, part)?;
            made.add_sorts(Kind::Entity, entities.as_slice())?;
            self.add_edges(alloc, Kind::Key, part, made)?;
            self.add_edges(alloc, Kind::Attribute, part, made)?;
        }
        Ok(())
    }

    /// The names of joined entities that a schema gives. Those that are too long are left out.
    pub fn entity_names(
        &self,
        alloc: Global,
        part: &JoinedSchema,
    ) -> Result<Vec<Name>, AllocError> {
        let mut names = Vec::new(alloc);
        for (place, entity) in part.schema.entities.as_slice().iter().enumerate() {
            let number = part.start.saturating_add(place);
            if self.first_of(number) == number {
                push_joined(alloc, &part.name, entity, &mut names)?;
            }
        }
        Ok(names)
    }

    fn add_edges(
        &self,
        alloc: Global,
        kind: Kind,
        part: &JoinedSchema,
        made: &mut Signature,
    ) -> Result<(), AllocError> {
        for edge in part.edges(kind) {
            self.add_edge(alloc, kind, part, edge, made)?;
        }
        Ok(())
    }

    fn add_edge(
        &self,
        alloc: Global,
        kind: Kind,
        part: &JoinedSchema,
        edge: &Edge,
        made: &mut Signature,
    ) -> Result<(), AllocError> {
        let Some(name) = joined_name(alloc, &part.name, &edge.name)? else {
            return Ok(());
        };
        let Some(from) = self.entity_in(alloc, part, edge.from)? else {
            return Ok(());
        };
        let Some(to) = self.end_in(alloc, kind, part, edge.to)? else {
            return Ok(());
        };
        let arrow = Arrow::edge(alloc, kind, &name, from, to)?;
        made.add_arrow(arrow)
    }

    /// To what a foreign key or an attribute of a schema leads in the joined one.
    fn end_in(
        &self,
        alloc: Global,
        kind: Kind,
        part: &JoinedSchema,
        number: u32,
    ) -> Result<Option<NamedSort>, AllocError> {
        match kind {
            Kind::Key => self.entity_in(alloc, part, number),
            _ => numbered_sort(Kind::Type, part.schema.typeside.types.as_slice(), number),
        }
    }

    /// The joined entity of an entity of a schema.
    fn entity_in(
        &self,
        alloc: Global,
        part: &JoinedSchema,
        number: u32,
    ) -> Result<Option<NamedSort>, AllocError> {
        let first = self.first_of(part.start.saturating_add(number as usize));
        for giver in self.schemas.as_slice() {
            if let Some(entity) = giver.entity_at(first) {
                return named_entity(alloc, &giver.name, entity);
            }
        }
        Ok(None)
    }
}

impl JoinedSchema {
    /// The name of the entity with a number among those of all parts, if it is one of this schema.
    fn entity_at(&self, number: usize) -> Option<&Name> {
        let place = number.checked_sub(self.start)?;
        self.schema.entities.as_slice().get(place)
    }

    fn edges(&self, kind: Kind) -> &[Edge] {
        match kind {
            Kind::Key => self.schema.keys.as_slice(),
            _ => self.schema.attributes.as_slice(),
        }
    }

    /// The names of joined foreign keys and attributes that the schema gives. Those that are too long are left out.
    pub fn edge_names(&self, alloc: Global) -> Result<Vec<Name>, AllocError> {
        let mut names = Vec::new(alloc);
        self.push_edges(alloc, Kind::Key, &mut names)?;
        self.push_edges(alloc, Kind::Attribute, &mut names)?;
        Ok(names)
    }

    fn push_edges(
        &self,
        alloc: Global,
        kind: Kind,
        names: &mut Vec<Name>,
    ) -> Result<(), AllocError> {
        for edge in self.edges(kind) {
            push_joined(alloc, &self.name, &edge.name, names)?;
        }
        Ok(())
    }
}

fn push_joined(
    alloc: Global,
    part: &Name,
    name: &Name,
    names: &mut Vec<Name>,
) -> Result<(), AllocError> {
    if let Some(joined) = joined_name(alloc, part, name)? {
        names.push(joined)?;
    }
    Ok(())
}

fn named_entity(alloc: Global, part: &Name, name: &Name) -> Result<Option<NamedSort>, AllocError> {
    match joined_name(alloc, part, name)? {
        Some(joined) => Ok(Some(NamedSort::new(Kind::Entity, &joined)?)),
        None => Ok(None),
    }
}
