//! Literals of mappings and transforms.
use crate::role::{Kind, Role, Side};
use crate::scope::Look;
use cq_base::Place;
use cq_environment::{Environment, Meaning};
use cq_syntax::{AttImage, AttSyn, KeyImage, MapBlock, MappingLit, Spot, TransformLit};
use std::alloc::AllocError;

impl Look {
    /// The part of a mapping at a place: its source is what it is given for, and its terms are over its target.
    pub fn at_mapping(
        &mut self,
        env: &Environment,
        literal: &MappingLit,
        place: Place,
    ) -> Result<(), AllocError> {
        self.know_used_schema(Side::Given, env, &literal.source)?;
        self.know_used_schema(Side::Terms, env, &literal.target)?;
        for block in literal.blocks.as_slice() {
            self.uses_block(block, place)?;
        }
        Ok(())
    }

    fn uses_block(&mut self, block: &MapBlock, place: Place) -> Result<(), AllocError> {
        if block.place == place {
            self.uses(Side::Given, Role::Entity, &block.entity)?;
            self.uses(Side::Terms, Role::Entity, &block.image)?;
        }
        self.uses_key_images(block.keys.as_slice(), place)?;
        self.uses_attribute_images(block.attributes.as_slice(), place)
    }

    fn uses_key_images(&mut self, images: &[KeyImage], place: Place) -> Result<(), AllocError> {
        for image in images {
            if image.place == place {
                self.uses(Side::Given, Role::Key, &image.name)?;
                self.uses_path(Side::Terms, image.image.names.as_slice())?;
            }
        }
        Ok(())
    }

    fn uses_attribute_images(
        &mut self,
        images: &[AttImage],
        place: Place,
    ) -> Result<(), AllocError> {
        for image in images {
            if image.place == place {
                self.uses(Side::Given, Role::Attribute, &image.name)?;
                self.uses_attribute_image(&image.image)?;
            }
        }
        Ok(())
    }

    fn uses_attribute_image(&mut self, image: &AttSyn) -> Result<(), AllocError> {
        match image {
            AttSyn::Path(path) => self.uses_path(Side::Terms, path.names.as_slice()),
            AttSyn::Lambda(variable, entity, term) => {
                self.know(Side::Terms, Kind::Generator, variable)?;
                self.uses_optional(entity)?;
                self.uses_term(&term.raw)
            }
        }
    }

    /// The image of a transform at a place: the instance where it starts is what it is given for, and its terms are
    /// over that where it ends.
    pub fn at_transform(
        &mut self,
        env: &Environment,
        literal: &TransformLit,
        place: Place,
    ) -> Result<(), AllocError> {
        self.know_instance(Side::Given, env, &literal.source)?;
        self.know_instance(Side::Terms, env, &literal.target)?;
        for image in literal.images.as_slice() {
            if image.place == place {
                self.uses(Side::Given, Role::Generator, &image.name)?;
                self.uses_term(&image.term.raw)?;
            }
        }
        Ok(())
    }

    fn know_instance(
        &mut self,
        side: Side,
        env: &Environment,
        used: &Spot,
    ) -> Result<(), AllocError> {
        if let Some(Meaning::Instance(_, instance)) = env.find(&used.name) {
            self.know_schema(side, instance.schema())?;
            self.know_generators(side, instance.presentation())?;
        }
        Ok(())
    }
}
