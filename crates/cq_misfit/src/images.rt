//! Whether what mappings, queries and transforms give is of the sorts of that for which it is given.
use crate::misfit::{Ends, Halt, Misfit};
use crate::signature::Signature;
use crate::sorted::{Arrow, NamedSort};
use cq_base::Name;
use cq_known::Kind;
use cq_syntax::{
    AttImage, AttSyn, Bind, EqSyn, KeyImage, MapBlock, MappingLit, QueryBlock, QueryKey, QueryLit,
};

impl Signature {
    /// Whether a path can be the image of a foreign key.
    pub fn check_key_image(
        &self,
        given: &Signature,
        literal: &MappingLit,
        block: &MapBlock,
        image: &KeyImage,
    ) -> Result<(), Halt> {
        let key = given.arrow_as(Kind::Key, &image.name)?;
        check_block(key, &block.entity)?;
        let from = self.image_of(literal, &block.entity)?;
        let to = self.image_of(literal, &key.gives.name)?;
        self.check_route(&image.name, Ends { from, to }, image.image.names.as_slice())
    }

    /// Whether a path or a term can be the image of an attribute.
    pub fn check_attribute_image(
        &mut self,
        given: &Signature,
        literal: &MappingLit,
        block: &MapBlock,
        image: &AttImage,
    ) -> Result<(), Halt> {
        let attribute = given.arrow_as(Kind::Attribute, &image.name)?;
        check_block(attribute, &block.entity)?;
        let from = self.image_of(literal, &block.entity)?;
        match &image.image {
            AttSyn::Path(path) => {
                let to = attribute.gives.copy()?;
                self.check_route(&image.name, Ends { from, to }, path.names.as_slice())
            }
            AttSyn::Lambda(variable, entity, term) => {
                self.check_said(variable, entity, &from)?;
                self.add_generator(variable, from)?;
                self.check_given(&image.name, &attribute.gives, &term.raw)
            }
        }
    }

    /// The entity to which a mapping sends an entity.
    fn image_of(&self, literal: &MappingLit, entity: &Name) -> Result<NamedSort, Halt> {
        let Some(block) = map_block(literal.blocks.as_slice(), entity) else {
            return Err(Halt::Lost);
        };
        let image = self.entity(&block.image)?;
        Ok(image.copy()?)
    }

    /// Whether a variable is of the entity that is said of it, if one is.
    fn check_said(
        &self,
        variable: &Name,
        entity: &Option<Name>,
        wanted: &NamedSort,
    ) -> Result<(), Halt> {
        let Some(name) = entity else {
            return Ok(());
        };
        let said = self.entity(name)?;
        if said.is_same(wanted) {
            return Ok(());
        }
        Err(Halt::Found(Misfit::Variable(variable.clone()?, wanted.copy()?, said.copy()?)))
    }

    /// Whether the sides of an equation of a block are of one sort.
    pub fn check_test(&mut self, block: &QueryBlock, equation: &EqSyn) -> Result<(), Halt> {
        self.add_groups(block.vars.as_slice())?;
        self.check_sides(&equation.left.raw, &equation.right.raw)
    }

    /// Whether a term can stand for an attribute in a block.
    pub fn check_attribute(
        &mut self,
        given: &Signature,
        block: &QueryBlock,
        bind: &Bind,
    ) -> Result<(), Halt> {
        let attribute = given.arrow_as(Kind::Attribute, &bind.name)?;
        check_block(attribute, &block.entity)?;
        self.add_groups(block.vars.as_slice())?;
        self.check_given(&bind.name, &attribute.gives, &bind.term.raw)
    }

    /// Whether a foreign key goes from the entity of a block.
    pub fn check_key(&self, block: &QueryBlock, key: &QueryKey) -> Result<(), Halt> {
        let arrow = self.arrow_as(Kind::Key, &key.name)?;
        check_block(arrow, &block.entity)
    }

    /// Whether a term can stand for a variable of the block to which a foreign key leads.
    pub fn check_assigned(
        &mut self,
        given: &Signature,
        literal: &QueryLit,
        block: &QueryBlock,
        key: &QueryKey,
        bind: &Bind,
    ) -> Result<(), Halt> {
        let arrow = given.arrow_as(Kind::Key, &key.name)?;
        check_block(arrow, &block.entity)?;
        let wanted = self.variable_in(literal, &arrow.gives.name, &bind.name)?;
        self.add_groups(block.vars.as_slice())?;
        self.check_given(&bind.name, &wanted, &bind.term.raw)
    }

    /// The entity of a variable in the block of an entity.
    fn variable_in(
        &self,
        literal: &QueryLit,
        entity: &Name,
        variable: &Name,
    ) -> Result<NamedSort, Halt> {
        let Some(block) = query_block(literal.blocks.as_slice(), entity) else {
            return Err(Halt::Lost);
        };
        let Some(sort) = sort_in_block(block, variable) else {
            return Err(Halt::Lost);
        };
        let found = self.entity(sort)?;
        Ok(found.copy()?)
    }

    /// Whether a term can be the image of a generator.
    pub fn check_image(&self, given: &Signature, bind: &Bind) -> Result<(), Halt> {
        match given.sort_of_generator(&bind.name) {
            Some(wanted) => self.check_given(&bind.name, wanted, &bind.term.raw),
            None => Err(Halt::Lost),
        }
    }
}

/// Whether a foreign key or an attribute goes from the entity of a block.
fn check_block(arrow: &Arrow, entity: &Name) -> Result<(), Halt> {
    let Some(from) = arrow.source() else {
        return Err(Halt::Lost);
    };
    if from.name == *entity {
        return Ok(());
    }
    Err(Halt::Found(Misfit::Block(arrow.name.clone()?, from.copy()?, entity.clone()?)))
}

fn map_block<'a>(blocks: &'a [MapBlock], entity: &Name) -> Option<&'a MapBlock> {
    blocks.iter().find(|block| block.entity == *entity)
}

fn query_block<'a>(blocks: &'a [QueryBlock], entity: &Name) -> Option<&'a QueryBlock> {
    blocks.iter().find(|block| block.entity == *entity)
}

/// The name of the sort of a variable.
fn sort_in_block<'a>(block: &'a QueryBlock, variable: &Name) -> Option<&'a Name> {
    for group in block.vars.as_slice() {
        if group
            .names
            .as_slice()
            .iter()
            .any(|spot| spot.name == *variable)
        {
            return Some(&group.sort);
        }
    }
    None
}
