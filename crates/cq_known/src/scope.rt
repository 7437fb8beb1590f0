//! What a part names, and the names that may stand there.
use crate::role::{Kind, Known, Role, Side, Use};
use cq_base::{Name, Seq};
use cq_syntax::{EdgeSyn, FunSyn, GroupSyn, Spot};
use cq_theory::{Edge, Fun, Presentation, Schema, Typeside};
use std::alloc::{AllocError, Global};

/// The uses of a part, with the names that are known there.
#[derive(Drop)]
pub struct Look {
    pub known: Vec<Known>,
    pub uses: Vec<Use>,
}

impl Look {
    pub fn new(alloc: Global) -> Look {
        Look {
            known: Vec::new(alloc),
            uses: Vec::new(alloc),
        }
    }

    /// Adds a known name.
    pub fn know(&mut self, side: Side, kind: Kind, name: &Name) -> Result<(), AllocError> {
        let name = name.clone()?;
        self.known.push(Known { kind, side, name })?;
        Ok(())
    }

    /// Adds a use.
    pub fn uses(&mut self, side: Side, role: Role, name: &Name) -> Result<(), AllocError> {
        let name = name.clone()?;
        self.uses.push(Use { role, side, name })?;
        Ok(())
    }

    /// Adds names of a kind.
    pub fn know_names(&mut self, side: Side, kind: Kind, names: &[Name]) -> Result<(), AllocError> {
        for name in names {
            self.know(side, kind, name)?;
        }
        Ok(())
    }

    /// Adds the names of a typeside.
    pub fn know_typeside(&mut self, side: Side, typeside: &Typeside) -> Result<(), AllocError> {
        self.know_names(side, Kind::Type, typeside.types.as_slice())?;
        self.know_constants(side, typeside.constants.as_slice())?;
        self.know_functions(side, typeside.functions.as_slice())
    }

    fn know_constants(&mut self, side: Side, constants: &[(Name, u32)]) -> Result<(), AllocError> {
        for constant in constants {
            self.know(side, Kind::Constant, &constant.0)?;
        }
        Ok(())
    }

    fn know_functions(&mut self, side: Side, functions: &[Fun]) -> Result<(), AllocError> {
        for function in functions {
            self.know(side, Kind::Function, &function.name)?;
        }
        Ok(())
    }

    /// Adds the names of a schema and of its typeside.
    pub fn know_schema(&mut self, side: Side, schema: &Schema) -> Result<(), AllocError> {
        self.know_typeside(side, &schema.typeside)?;
        self.know_names(side, Kind::Entity, schema.entities.as_slice())?;
        self.know_edges(side, Kind::Key, schema.keys.as_slice())?;
        self.know_edges(side, Kind::Attribute, schema.attributes.as_slice())
    }

    fn know_edges(&mut self, side: Side, kind: Kind, edges: &[Edge]) -> Result<(), AllocError> {
        for edge in edges {
            self.know(side, kind, &edge.name)?;
        }
        Ok(())
    }

    /// Adds the generators of a presentation.
    pub fn know_generators(
        &mut self,
        side: Side,
        presentation: &Presentation,
    ) -> Result<(), AllocError> {
        for generator in presentation.generators.as_slice() {
            self.know(side, Kind::Generator, &generator.0)?;
        }
        Ok(())
    }

    /// Adds names where they are declared.
    pub fn know_spots(
        &mut self,
        side: Side,
        kind: Kind,
        spots: &Seq<Spot>,
    ) -> Result<(), AllocError> {
        for spot in spots.as_slice() {
            self.know(side, kind, &spot.name)?;
        }
        Ok(())
    }

    /// Adds the names of groups.
    pub fn know_groups(
        &mut self,
        side: Side,
        kind: Kind,
        groups: &[GroupSyn],
    ) -> Result<(), AllocError> {
        for group in groups {
            self.know_spots(side, kind, &group.names)?;
        }
        Ok(())
    }

    /// Adds the names of edges where they are declared.
    pub fn know_edge_groups(
        &mut self,
        side: Side,
        kind: Kind,
        groups: &[EdgeSyn],
    ) -> Result<(), AllocError> {
        for group in groups {
            self.know_spots(side, kind, &group.names)?;
        }
        Ok(())
    }

    /// Adds the names of functions where they are declared.
    pub fn know_function_groups(&mut self, groups: &[FunSyn]) -> Result<(), AllocError> {
        for group in groups {
            self.know_spots(Side::Terms, Kind::Function, &group.names)?;
        }
        Ok(())
    }
}
