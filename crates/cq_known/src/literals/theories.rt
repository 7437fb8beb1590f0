//! Literals of typesides, schemas, colimits and instances.
use crate::role::{Kind, Role, Side};
use crate::scope::Look;
use crate::terms::has_spot;
use cq_base::{Name, NameRefusal, Place};
use cq_environment::{Environment, Meaning};
use cq_syntax::{ColimitLit, FunSyn, InstanceLit, PairSyn, SchemaLit, Spot, TypesideLit};
use cq_theory::{Edge, Schema};
use std::alloc::{AllocError, Global};

impl Look {
    /// The part of a typeside at a place.
    pub fn at_typeside(&mut self, literal: &TypesideLit, place: Place) -> Result<(), AllocError> {
        self.know_spots(Side::Terms, Kind::Type, &literal.types)?;
        if let Some(spot) = &literal.literals {
            if spot.place == place {
                self.uses(Side::Terms, Role::Type, &spot.name)?;
            }
        }
        self.uses_groups(Role::Type, literal.constants.as_slice(), place)?;
        self.uses_functions(literal.functions.as_slice(), place)
    }

    fn uses_functions(&mut self, groups: &[FunSyn], place: Place) -> Result<(), AllocError> {
        for group in groups {
            if has_spot(group.names.as_slice(), place) {
                self.uses_types(group.args.as_slice())?;
                self.uses(Side::Terms, Role::Type, &group.result)?;
            }
        }
        Ok(())
    }

    fn uses_types(&mut self, names: &[Name]) -> Result<(), AllocError> {
        for name in names {
            self.uses(Side::Terms, Role::Type, name)?;
        }
        Ok(())
    }

    /// The part of a schema at a place.
    pub fn at_schema(
        &mut self,
        env: &Environment,
        literal: &SchemaLit,
        place: Place,
    ) -> Result<(), AllocError> {
        if let Some(Meaning::Typeside(typeside)) = env.find(&literal.typeside.name) {
            self.know_typeside(Side::Terms, typeside)?;
        }
        self.know_spots(Side::Terms, Kind::Entity, &literal.entities)?;
        self.know_edge_groups(Side::Terms, Kind::Key, literal.keys.as_slice())?;
        self.know_edge_groups(Side::Terms, Kind::Attribute, literal.attributes.as_slice())?;
        self.uses_edges(Role::Entity, literal.keys.as_slice(), place)?;
        self.uses_path_equations(literal.path_eqs.as_slice(), place)?;
        self.uses_edges(Role::Type, literal.attributes.as_slice(), place)?;
        self.uses_observations(literal.obs_eqs.as_slice(), place)
    }

    /// The part of an instance at a place.
    pub fn at_instance(
        &mut self,
        env: &Environment,
        literal: &InstanceLit,
        place: Place,
    ) -> Result<(), AllocError> {
        self.know_used_schema(Side::Terms, env, &literal.schema)?;
        self.know_groups(Side::Terms, Kind::Generator, literal.generators.as_slice())?;
        self.uses_groups(Role::Sort, literal.generators.as_slice(), place)?;
        self.uses_equations(literal.equations.as_slice(), place)
    }

    /// The names of the schema for which a used name stands.
    pub fn know_used_schema(
        &mut self,
        side: Side,
        env: &Environment,
        used: &Spot,
    ) -> Result<(), AllocError> {
        match schema_of(env, &used.name) {
            Some(schema) => self.know_schema(side, schema),
            None => Ok(()),
        }
    }

    /// The part of a colimit at a place.
    pub fn at_colimit(
        &mut self,
        alloc: Global,
        env: &Environment,
        literal: &ColimitLit,
        place: Place,
    ) -> Result<(), AllocError> {
        if let Some(Meaning::Typeside(typeside)) = env.find(&literal.typeside.name) {
            self.know_typeside(Side::Terms, typeside)?;
        }
        for part in literal.parts.as_slice() {
            self.know_part(alloc, env, part)?;
        }
        self.uses_pairs(literal.pairs.as_slice(), place)?;
        self.uses_path_equations(literal.path_eqs.as_slice(), place)?;
        self.uses_observations(literal.obs_eqs.as_slice(), place)
    }

    /// The names of a part, and those that they have in the joined schema.
    fn know_part(
        &mut self,
        alloc: Global,
        env: &Environment,
        part: &Spot,
    ) -> Result<(), AllocError> {
        self.know(Side::Given, Kind::Part, &part.name)?;
        let Some(schema) = schema_of(env, &part.name) else {
            return Ok(());
        };
        self.know_names(Side::Given, Kind::Entity, schema.entities.as_slice())?;
        for entity in schema.entities.as_slice() {
            self.know_joined(alloc, Kind::Entity, &part.name, entity)?;
        }
        self.know_joined_edges(alloc, Kind::Key, &part.name, schema.keys.as_slice())?;
        self.know_joined_edges(
            alloc,
            Kind::Attribute,
            &part.name,
            schema.attributes.as_slice(),
        )
    }

    fn know_joined_edges(
        &mut self,
        alloc: Global,
        kind: Kind,
        part: &Name,
        edges: &[Edge],
    ) -> Result<(), AllocError> {
        for edge in edges {
            self.know_joined(alloc, kind, part, &edge.name)?;
        }
        Ok(())
    }

    /// A joined name. One that is too long is left out.
    fn know_joined(
        &mut self,
        alloc: Global,
        kind: Kind,
        part: &Name,
        name: &Name,
    ) -> Result<(), AllocError> {
        match joined_name(alloc, part, name)? {
            Some(joined) => self.know(Side::Terms, kind, &joined),
            None => Ok(()),
        }
    }

    fn uses_pairs(&mut self, pairs: &[PairSyn], place: Place) -> Result<(), AllocError> {
        for pair in pairs {
            if pair.place == place {
                self.uses(Side::Given, Role::Part, &pair.left.0)?;
                self.uses(Side::Given, Role::Entity, &pair.left.1)?;
                self.uses(Side::Given, Role::Part, &pair.right.0)?;
                self.uses(Side::Given, Role::Entity, &pair.right.1)?;
            }
        }
        Ok(())
    }
}

/// The joined name of an entity, a foreign key or an attribute of a part, unless it is too long.
pub fn joined_name(alloc: Global, part: &Name, name: &Name) -> Result<Option<Name>, AllocError> {
    let text = format!(in alloc; "{}_{}", part.as_str(), name.as_str())?;
    match Name::made_of(alloc, name, text.as_str()) {
        Ok(joined) => Ok(Some(joined)),
        Err(NameRefusal::Long) => Ok(None),
        Err(NameRefusal::Memory) => Err(AllocError),
    }
}

/// The schema for which a name stands, that of a colimit too.
pub fn schema_of<'a>(env: &'a Environment, name: &Name) -> Option<&'a Schema> {
    match env.find(name) {
        Some(Meaning::Schema(named)) => Some(&named.schema),
        Some(Meaning::Colimit(named)) => Some(&named.schema.schema),
        _ => None,
    }
}
