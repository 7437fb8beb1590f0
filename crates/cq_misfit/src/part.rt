//! The part of a literal at a place.
use cq_base::Place;
use cq_known::{Kind, has_spot};
use cq_syntax::{
    AttImage, Bind, Body, ColimitLit, EdgeSyn, EqSyn, GroupSyn, InstanceExp, KeyImage, MapBlock,
    MappingExp, MappingLit, ObsSyn, PairSyn, PathEqSyn, QueryBlock, QueryExp, QueryKey, QueryLit,
    SchemaExp, SchemaLit, TransformExp,
};

/// A part in which the sorts may not fit, with what it stands in.
#[derive(Clone, Copy)]
pub enum Part<'a> {
    /// Foreign keys or attributes with their ends.
    Edges(Kind, &'a EdgeSyn),
    Paths(&'a PathEqSyn),
    Observation(&'a ObsSyn),
    Equation(&'a EqSyn),
    Pair(&'a PairSyn),
    /// The image of an entity, of a foreign key and of an attribute under a mapping.
    EntityImage(&'a MapBlock),
    KeyImage(&'a MappingLit, &'a MapBlock, &'a KeyImage),
    AttributeImage(&'a MappingLit, &'a MapBlock, &'a AttImage),
    /// The block of a query, its variables and its clauses.
    Block(&'a QueryBlock),
    Variables(&'a GroupSyn),
    Test(&'a QueryBlock, &'a EqSyn),
    Attribute(&'a QueryBlock, &'a Bind),
    Key(&'a QueryBlock, &'a QueryKey),
    Assigned(&'a QueryLit, &'a QueryBlock, &'a QueryKey, &'a Bind),
    /// The image of a generator.
    Image(&'a Bind),
}

/// The part of a literal at a place.
pub fn part_at(body: &Body, place: Place) -> Option<Part<'_>> {
    match body {
        Body::Schema(SchemaExp::Literal(literal)) => in_schema(literal, place),
        Body::Colimit(literal) => in_colimit(literal, place),
        Body::Mapping(MappingExp::Literal(literal)) => in_mapping(literal, place),
        Body::Query(QueryExp::Literal(literal)) => in_query(literal, place),
        Body::Instance(InstanceExp::Literal(literal)) => {
            match equation_at(literal.equations.as_slice(), place) {
                Some(equation) => Some(Part::Equation(equation)),
                None => None,
            }
        }
        Body::Transform(TransformExp::Literal(literal)) => {
            match bind_at(literal.images.as_slice(), place) {
                Some(image) => Some(Part::Image(image)),
                None => None,
            }
        }
        _ => None,
    }
}

fn in_schema(literal: &SchemaLit, place: Place) -> Option<Part<'_>> {
    if let Some(group) = edges_at(literal.keys.as_slice(), place) {
        return Some(Part::Edges(Kind::Key, group));
    }
    if let Some(group) = edges_at(literal.attributes.as_slice(), place) {
        return Some(Part::Edges(Kind::Attribute, group));
    }
    in_equations(
        literal.path_eqs.as_slice(),
        literal.obs_eqs.as_slice(),
        place,
    )
}

fn in_colimit(literal: &ColimitLit, place: Place) -> Option<Part<'_>> {
    if let Some(pair) = pair_at(literal.pairs.as_slice(), place) {
        return Some(Part::Pair(pair));
    }
    in_equations(
        literal.path_eqs.as_slice(),
        literal.obs_eqs.as_slice(),
        place,
    )
}

fn in_equations<'a>(
    paths: &'a [PathEqSyn],
    observations: &'a [ObsSyn],
    place: Place,
) -> Option<Part<'a>> {
    if let Some(equation) = paths.iter().find(|equation| equation.left.place == place) {
        return Some(Part::Paths(equation));
    }
    match observations.iter().find(|equation| equation.place == place) {
        Some(equation) => Some(Part::Observation(equation)),
        None => None,
    }
}

fn in_mapping(literal: &MappingLit, place: Place) -> Option<Part<'_>> {
    for block in literal.blocks.as_slice() {
        if let Some(part) = in_map_block(literal, block, place) {
            return Some(part);
        }
    }
    None
}

fn in_map_block<'a>(
    literal: &'a MappingLit,
    block: &'a MapBlock,
    place: Place,
) -> Option<Part<'a>> {
    if block.place == place {
        return Some(Part::EntityImage(block));
    }
    if let Some(image) = key_image_at(block.keys.as_slice(), place) {
        return Some(Part::KeyImage(literal, block, image));
    }
    match attribute_image_at(block.attributes.as_slice(), place) {
        Some(image) => Some(Part::AttributeImage(literal, block, image)),
        None => None,
    }
}

fn in_query(literal: &QueryLit, place: Place) -> Option<Part<'_>> {
    for block in literal.blocks.as_slice() {
        if let Some(part) = in_query_block(literal, block, place) {
            return Some(part);
        }
    }
    None
}

fn in_query_block<'a>(
    literal: &'a QueryLit,
    block: &'a QueryBlock,
    place: Place,
) -> Option<Part<'a>> {
    if block.place == place {
        return Some(Part::Block(block));
    }
    if let Some(group) = group_at(block.vars.as_slice(), place) {
        return Some(Part::Variables(group));
    }
    if let Some(test) = equation_at(block.tests.as_slice(), place) {
        return Some(Part::Test(block, test));
    }
    if let Some(bind) = bind_at(block.attributes.as_slice(), place) {
        return Some(Part::Attribute(block, bind));
    }
    in_keys(literal, block, place)
}

fn in_keys<'a>(literal: &'a QueryLit, block: &'a QueryBlock, place: Place) -> Option<Part<'a>> {
    for key in block.keys.as_slice() {
        if key.place == place {
            return Some(Part::Key(block, key));
        }
        if let Some(bind) = bind_at(key.assigns.as_slice(), place) {
            return Some(Part::Assigned(literal, block, key, bind));
        }
    }
    None
}

fn edges_at(groups: &[EdgeSyn], place: Place) -> Option<&EdgeSyn> {
    groups
        .iter()
        .find(|group| has_spot(group.names.as_slice(), place))
}

fn group_at(groups: &[GroupSyn], place: Place) -> Option<&GroupSyn> {
    groups
        .iter()
        .find(|group| has_spot(group.names.as_slice(), place))
}

fn pair_at(pairs: &[PairSyn], place: Place) -> Option<&PairSyn> {
    pairs.iter().find(|pair| pair.place == place)
}

fn key_image_at(images: &[KeyImage], place: Place) -> Option<&KeyImage> {
    images.iter().find(|image| image.place == place)
}

fn attribute_image_at(images: &[AttImage], place: Place) -> Option<&AttImage> {
    images.iter().find(|image| image.place == place)
}

fn equation_at(equations: &[EqSyn], place: Place) -> Option<&EqSyn> {
    equations
        .iter()
        .find(|equation| equation.left.place == place)
}

fn bind_at(binds: &[Bind], place: Place) -> Option<&Bind> {
    binds.iter().find(|bind| bind.place == place)
}
