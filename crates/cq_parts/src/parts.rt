//! The parts that literals give. A name in a group is a part of its own.
ghost use Rattle.std.specs.Prelude.{◌≡◌, IfOk};
ghost use Rattle.cq_parts.specs.Parts.{name_of, group_parts, function_parts, edge_parts, path_eq_part};
ghost use Rattle.cq_parts.specs.Parts.{observation_part, equation_part, attribute_image, key_part, attribute_part};
ghost use Rattle.cq_parts.specs.Parts.{arrow_parts, typeside_parts, schema_parts, instance_parts, mapping_parts};
ghost use Rattle.cq_parts.specs.Parts.{colimit_parts, transform_parts};

use crate::copied::{HasPart, HasParts, Holds, each_part, parts_of_all, parts_of_each, push_held};
use crate::raw::copy_raw;
use cq_base::{Name, Raw, Seq};
use cq_syntax::{
    AttImage, AttSyn, Bind, ColimitLit, EdgeSyn, EqSyn, FunSyn, GroupSyn, InstanceLit, KeyImage,
    MapBlock, MappingLit, ObsSyn, PairSyn, PathEqSyn, SchemaLit, Spot, TransformLit, TypesideLit,
};
use cq_theory::{
    ArrowImage, ArrowPart, ColimitParts, MappingParts, ObsPart, PresentationParts, SchemaParts,
    TypesideParts,
};
use std::alloc::{AllocError, Global};

/// The parts of a typeside.
#[tactic(auto, unfolding(crate::specs::Parts::typeside_parts))]
pub fn typeside_parts(alloc: Global, literal: &TypesideLit) -> Result<TypesideParts, AllocError>
    ensures { IfOk result (λ parts. parts ≡ typeside_parts literal.now) }
{
    let types = parts_of_each(alloc, literal.types.as_slice())?;
    let literals = name_in(&literal.literals)?;
    let constants = parts_of_all(alloc, literal.constants.as_slice())?;
    let functions = parts_of_all(alloc, literal.functions.as_slice())?;
    Ok(TypesideParts {
        types,
        literals,
        constants,
        functions,
    })
}

/// The parts of a schema.
#[tactic(auto, unfolding(crate::specs::Parts::schema_parts))]
pub fn schema_parts(alloc: Global, literal: &SchemaLit) -> Result<SchemaParts, AllocError>
    ensures { IfOk result (λ parts. parts ≡ schema_parts literal.now) }
{
    let entities = parts_of_each(alloc, literal.entities.as_slice())?;
    let keys = parts_of_all(alloc, literal.keys.as_slice())?;
    let path_eqs = parts_of_each(alloc, literal.path_eqs.as_slice())?;
    let attributes = parts_of_all(alloc, literal.attributes.as_slice())?;
    let obs_eqs = parts_of_each(alloc, literal.obs_eqs.as_slice())?;
    Ok(SchemaParts {
        entities,
        keys,
        path_eqs,
        attributes,
        obs_eqs,
    })
}

/// The parts of a presentation.
#[tactic(auto, unfolding(crate::specs::Parts::instance_parts))]
pub fn instance_parts(alloc: Global, literal: &InstanceLit) -> Result<PresentationParts, AllocError>
    ensures { IfOk result (λ parts. parts ≡ instance_parts literal.now) }
{
    let generators = parts_of_all(alloc, literal.generators.as_slice())?;
    let equations = parts_of_each(alloc, literal.equations.as_slice())?;
    Ok(PresentationParts {
        generators,
        equations,
    })
}

/// The parts of a mapping.
#[tactic(auto, unfolding(crate::specs::Parts::mapping_parts))]
pub fn mapping_parts(alloc: Global, literal: &MappingLit) -> Result<MappingParts, AllocError>
    ensures { IfOk result (λ parts. parts ≡ mapping_parts literal.now) }
{
    let entities = parts_of_each(alloc, literal.blocks.as_slice())?;
    let arrows = parts_of_all(alloc, literal.blocks.as_slice())?;
    Ok(MappingParts { entities, arrows })
}

/// The pairs of entities that are one in a colimit, and the added equations.
#[tactic(auto, unfolding(crate::specs::Parts::colimit_parts))]
pub fn colimit_parts(alloc: Global, literal: &ColimitLit) -> Result<ColimitParts, AllocError>
    ensures { IfOk result (λ parts. parts ≡ colimit_parts literal.now) }
{
    let pairs = parts_of_each(alloc, literal.pairs.as_slice())?;
    let path_eqs = parts_of_each(alloc, literal.path_eqs.as_slice())?;
    let obs_eqs = parts_of_each(alloc, literal.obs_eqs.as_slice())?;
    Ok(ColimitParts {
        pairs,
        path_eqs,
        obs_eqs,
    })
}

/// The image of each generator.
#[tactic(auto, unfolding(crate::specs::Parts::transform_parts))]
pub fn transform_parts(
    alloc: Global,
    literal: &TransformLit,
) -> Result<Vec<(Name, Raw)>, AllocError>
    ensures { IfOk result (λ parts. parts.items ≡ transform_parts literal.now) }
{
    each_part(alloc, literal.images.as_slice())
}

fn attribute_image(alloc: Global, image: &AttSyn) -> Result<ArrowImage, AllocError>
    ensures { IfOk result (λ sent. sent ≡ attribute_image image.now) }
{
    match image {
        AttSyn::Path(path) => Ok(ArrowImage::Path(copy_names(alloc, path.names.as_slice())?)),
        AttSyn::Lambda(variable, entity, term) => {
            let entity = copy_optional(entity)?;
            let raw = copy_raw(alloc, &term.raw)?;
            Ok(ArrowImage::Lambda(variable.clone()?, entity, raw))
        }
    }
}

fn copy_optional(name: &Option<Name>) -> Result<Option<Name>, AllocError>
    ensures { IfOk result (λ copy. copy ≡ name.now) }
{
    match name {
        Some(name) => Ok(Some(name.clone()?)),
        None => Ok(None),
    }
}

fn name_in(spot: &Option<Spot>) -> Result<Option<Name>, AllocError>
    ensures { IfOk result (λ name. name ≡ name_of spot.now) }
{
    match spot {
        Some(spot) => Ok(Some(spot.name.clone()?)),
        None => Ok(None),
    }
}

fn copy_names(alloc: Global, names: &[Name]) -> Result<Seq<Name>, AllocError>
    ensures { IfOk result (λ copies. copies ≡ names.now) }
{
    let mut copies = Vec::new(alloc);
    for name in names {
        copies.push(name.clone()?)?;
    }
    Ok(Seq::from_vec(copies))
}

impl HasPart for Spot {
    type Part = Name;

    ghost part_of = { λ spot. spot.name };

    fn part(&self, _alloc: Global) -> Result<Name, AllocError> {
        self.name.clone()
    }
}

impl HasPart for PairSyn {
    type Part = ((Name, Name), (Name, Name));

    ghost part_of = { λ p. (p.left, p.right) };

    fn part(&self, _alloc: Global) -> Result<Self::Part, AllocError> {
        let left = (self.left.0.clone()?, self.left.1.clone()?);
        let right = (self.right.0.clone()?, self.right.1.clone()?);
        Ok((left, right))
    }
}

impl HasPart for Bind {
    type Part = (Name, Raw);

    ghost part_of = { λ b. (b.name, b.term.raw) };

    fn part(&self, alloc: Global) -> Result<Self::Part, AllocError> {
        Ok((self.name.clone()?, copy_raw(alloc, &self.term.raw)?))
    }
}

impl HasPart for MapBlock {
    type Part = (Name, Name);

    ghost part_of = { λ b. (b.entity, b.image) };

    fn part(&self, _alloc: Global) -> Result<Self::Part, AllocError> {
        Ok((self.entity.clone()?, self.image.clone()?))
    }
}

impl HasPart for PathEqSyn {
    type Part = (Seq<Name>, Seq<Name>);

    ghost part_of = { path_eq_part };

    fn part(&self, alloc: Global) -> Result<Self::Part, AllocError> {
        let left = copy_names(alloc, self.left.names.as_slice())?;
        let right = copy_names(alloc, self.right.names.as_slice())?;
        Ok((left, right))
    }
}

impl HasPart for EqSyn {
    type Part = (Raw, Raw);

    ghost part_of = { equation_part };

    fn part(&self, alloc: Global) -> Result<Self::Part, AllocError> {
        let left = copy_raw(alloc, &self.left.raw)?;
        let right = copy_raw(alloc, &self.right.raw)?;
        Ok((left, right))
    }
}

impl HasPart for ObsSyn {
    type Part = ObsPart;

    ghost part_of = { observation_part };

    fn part(&self, alloc: Global) -> Result<ObsPart, AllocError> {
        Ok(ObsPart {
            variable: self.variable.clone()?,
            entity: copy_optional(&self.entity)?,
            left: copy_raw(alloc, &self.left.raw)?,
            right: copy_raw(alloc, &self.right.raw)?,
        })
    }
}

impl Holds<Spot> for GroupSyn {
    type Part = (Name, Name);

    ghost part_for = { λ g spot. (spot.name, g.sort) };

    fn held_part(&self, _alloc: Global, spot: &Spot) -> Result<Self::Part, AllocError> {
        Ok((spot.name.clone()?, self.sort.clone()?))
    }
}

impl HasParts for GroupSyn {
    type Part = (Name, Name);

    ghost parts_of = { group_parts };

    fn push_parts(&self, alloc: Global, parts: &mut Vec<Self::Part>) -> Result<(), AllocError> {
        push_held(alloc, parts, self, self.names.as_slice())
    }
}

impl Holds<Spot> for FunSyn {
    type Part = (Name, Seq<Name>, Name);

    ghost part_for = { λ f spot. (spot.name, f.args, f.result) };

    fn held_part(&self, alloc: Global, spot: &Spot) -> Result<Self::Part, AllocError> {
        let args = copy_names(alloc, self.args.as_slice())?;
        Ok((spot.name.clone()?, args, self.result.clone()?))
    }
}

impl HasParts for FunSyn {
    type Part = (Name, Seq<Name>, Name);

    ghost parts_of = { function_parts };

    fn push_parts(&self, alloc: Global, parts: &mut Vec<Self::Part>) -> Result<(), AllocError> {
        push_held(alloc, parts, self, self.names.as_slice())
    }
}

impl Holds<Spot> for EdgeSyn {
    type Part = (Name, Name, Name);

    ghost part_for = { λ e spot. (spot.name, e.from, e.to) };

    fn held_part(&self, _alloc: Global, spot: &Spot) -> Result<Self::Part, AllocError> {
        Ok((spot.name.clone()?, self.from.clone()?, self.to.clone()?))
    }
}

impl HasParts for EdgeSyn {
    type Part = (Name, Name, Name);

    ghost parts_of = { edge_parts };

    fn push_parts(&self, alloc: Global, parts: &mut Vec<Self::Part>) -> Result<(), AllocError> {
        push_held(alloc, parts, self, self.names.as_slice())
    }
}

impl Holds<KeyImage> for Name {
    type Part = ArrowPart;

    ghost part_for = { key_part };

    fn held_part(&self, alloc: Global, image: &KeyImage) -> Result<ArrowPart, AllocError> {
        let names = copy_names(alloc, image.image.names.as_slice())?;
        Ok(ArrowPart {
            block: self.clone()?,
            name: image.name.clone()?,
            image: ArrowImage::Key(names),
        })
    }
}

impl Holds<AttImage> for Name {
    type Part = ArrowPart;

    ghost part_for = { attribute_part };

    fn held_part(&self, alloc: Global, image: &AttImage) -> Result<ArrowPart, AllocError> {
        let block = self.clone()?;
        let name = image.name.clone()?;
        let image = attribute_image(alloc, &image.image)?;
        Ok(ArrowPart { block, name, image })
    }
}

impl HasParts for MapBlock {
    type Part = ArrowPart;

    ghost parts_of = { arrow_parts };

    fn push_parts(&self, alloc: Global, parts: &mut Vec<ArrowPart>) -> Result<(), AllocError> {
        push_held(alloc, parts, &self.entity, self.keys.as_slice())?;
        push_held(alloc, parts, &self.entity, self.attributes.as_slice())
    }
}
