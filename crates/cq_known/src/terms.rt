//! What terms, paths and groups name.
use crate::role::{Kind, Role, Side};
use crate::scope::Look;
use cq_base::{Name, Place, Raw};
use cq_syntax::{EdgeSyn, EqSyn, GroupSyn, ObsSyn, PathEqSyn, Spot};
use std::alloc::AllocError;

impl Look {
    /// Adds what a term names.
    pub fn uses_term(&mut self, term: &Raw) -> Result<(), AllocError> {
        match term {
            Raw::Word(name) => self.uses(Side::Terms, Role::Leaf, name),
            Raw::Text(name) => self.uses(Side::Terms, Role::Text, name),
            Raw::App(name, args) => {
                self.uses(Side::Terms, Role::Applied, name)?;
                for arg in args.as_slice() {
                    self.uses_term(arg)?;
                }
                Ok(())
            }
        }
    }

    /// Adds what a path names.
    pub fn uses_path(&mut self, side: Side, names: &[Name]) -> Result<(), AllocError> {
        for name in names {
            self.uses(side, Role::Step, name)?;
        }
        Ok(())
    }

    /// Adds the sort of the group that has a name at the place.
    pub fn uses_groups(
        &mut self,
        role: Role,
        groups: &[GroupSyn],
        place: Place,
    ) -> Result<(), AllocError> {
        for group in groups {
            if has_spot(group.names.as_slice(), place) {
                self.uses(Side::Terms, role, &group.sort)?;
            }
        }
        Ok(())
    }

    /// Adds the ends of the edges that have a name at the place.
    pub fn uses_edges(
        &mut self,
        end: Role,
        groups: &[EdgeSyn],
        place: Place,
    ) -> Result<(), AllocError> {
        for group in groups {
            if has_spot(group.names.as_slice(), place) {
                self.uses(Side::Terms, Role::Entity, &group.from)?;
                self.uses(Side::Terms, end, &group.to)?;
            }
        }
        Ok(())
    }

    /// Adds what the equation at the place names.
    pub fn uses_equations(&mut self, equations: &[EqSyn], place: Place) -> Result<(), AllocError> {
        for equation in equations {
            if equation.left.place == place {
                self.uses_term(&equation.left.raw)?;
                self.uses_term(&equation.right.raw)?;
            }
        }
        Ok(())
    }

    /// Adds what the equation of paths at the place names.
    pub fn uses_path_equations(
        &mut self,
        equations: &[PathEqSyn],
        place: Place,
    ) -> Result<(), AllocError> {
        for equation in equations {
            if equation.left.place == place {
                self.uses_path(Side::Terms, equation.left.names.as_slice())?;
                self.uses_path(Side::Terms, equation.right.names.as_slice())?;
            }
        }
        Ok(())
    }

    /// Adds what the observation equation at the place names, and its variable as a name that is known.
    pub fn uses_observations(
        &mut self,
        equations: &[ObsSyn],
        place: Place,
    ) -> Result<(), AllocError> {
        for equation in equations {
            if equation.place == place {
                self.uses_observation(equation)?;
            }
        }
        Ok(())
    }

    fn uses_observation(&mut self, equation: &ObsSyn) -> Result<(), AllocError> {
        self.know(Side::Terms, Kind::Generator, &equation.variable)?;
        self.uses_optional(&equation.entity)?;
        self.uses_term(&equation.left.raw)?;
        self.uses_term(&equation.right.raw)
    }

    /// Adds an entity, if one is named.
    pub fn uses_optional(&mut self, entity: &Option<Name>) -> Result<(), AllocError> {
        match entity {
            Some(name) => self.uses(Side::Terms, Role::Entity, name),
            None => Ok(()),
        }
    }
}

/// Whether one of the names stands at the place.
pub fn has_spot(spots: &[Spot], place: Place) -> bool {
    spots.iter().any(|spot| spot.place == place)
}
