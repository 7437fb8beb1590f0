//! Literals of queries.
use crate::role::{Kind, Role, Side};
use crate::scope::Look;
use cq_base::Place;
use cq_environment::Environment;
use cq_syntax::{Bind, QueryBlock, QueryKey, QueryLit};
use std::alloc::AllocError;

impl Look {
    /// The part of a query at a place: its target is what it is given for, and its terms are over its source.
    pub fn at_query(
        &mut self,
        env: &Environment,
        literal: &QueryLit,
        place: Place,
    ) -> Result<(), AllocError> {
        self.know_used_schema(Side::Terms, env, &literal.source)?;
        self.know_used_schema(Side::Given, env, &literal.target)?;
        for block in literal.blocks.as_slice() {
            self.know_variables(block, place)?;
            self.uses_query_block(block, place)?;
        }
        Ok(())
    }

    /// The variables of a block: for terms of the block itself, and to be given something by keys of any block.
    fn know_variables(&mut self, block: &QueryBlock, place: Place) -> Result<(), AllocError> {
        self.know_groups(Side::Given, Kind::Generator, block.vars.as_slice())?;
        if has_part(block, place) {
            self.know_groups(Side::Terms, Kind::Generator, block.vars.as_slice())?;
        }
        Ok(())
    }

    fn uses_query_block(&mut self, block: &QueryBlock, place: Place) -> Result<(), AllocError> {
        if block.place == place {
            self.uses(Side::Given, Role::Entity, &block.entity)?;
        }
        self.uses_groups(Role::Sort, block.vars.as_slice(), place)?;
        self.uses_equations(block.tests.as_slice(), place)?;
        self.uses_binds(Role::Attribute, block.attributes.as_slice(), place)?;
        self.uses_keys(block.keys.as_slice(), place)
    }

    fn uses_keys(&mut self, keys: &[QueryKey], place: Place) -> Result<(), AllocError> {
        for key in keys {
            if key.place == place {
                self.uses(Side::Given, Role::Key, &key.name)?;
            }
            self.uses_binds(Role::Generator, key.assigns.as_slice(), place)?;
        }
        Ok(())
    }

    fn uses_binds(&mut self, role: Role, binds: &[Bind], place: Place) -> Result<(), AllocError> {
        for bind in binds {
            if bind.place == place {
                self.uses(Side::Given, role, &bind.name)?;
                self.uses_term(&bind.term.raw)?;
            }
        }
        Ok(())
    }
}

/// Whether a clause of the block stands at the place.
fn has_part(block: &QueryBlock, place: Place) -> bool {
    block
        .tests
        .as_slice()
        .iter()
        .any(|test| test.left.place == place)
        || has_bind(block.attributes.as_slice(), place)
        || block
            .keys
            .as_slice()
            .iter()
            .any(|key| has_bind(key.assigns.as_slice(), place))
}

fn has_bind(binds: &[Bind], place: Place) -> bool {
    binds.iter().any(|bind| bind.place == place)
}
