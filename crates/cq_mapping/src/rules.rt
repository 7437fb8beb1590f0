//! The rules for images of foreign keys and attributes.
ghost use Rattle.std.specs.Prelude.{◌≡◌, ◌&&◌, ◌∷◌, [], Some};
ghost use Rattle.cq_theory.specs.declared.presentation.Sort.TheVariants as declared_sort;
ghost use Rattle.cq_theory.specs.Resolve.{raw_sort, are_of_one_sort, same_sort as is_same_sort};
ghost use Rattle.cq_theory.specs.Resolve.{sort_named, entity_in};
ghost use Rattle.cq_theory.specs.Routes.{is_at as is_at_entity};
ghost use Rattle.cq_mapping.specs.MappingParts.{has_unknown_image as unknown_image};
ghost use Rattle.cq_mapping.specs.MappingParts.{has_wrong_count_image as wrong_count_image};
ghost use Rattle.cq_mapping.specs.MappingParts.{has_reserved_image as reserved_image};
ghost use Rattle.cq_mapping.specs.MappingParts.{is_too_large_image as too_large_image, are_ends as ends_are};
ghost use Rattle.cq_mapping.specs.MappingParts.{is_stated as stated_is, is_image_of_key as image_of_key};
ghost use Rattle.cq_mapping.specs.MappingParts.{is_image_of_attribute as image_of_attribute, is_right_key as right_key};
ghost use Rattle.cq_mapping.specs.MappingParts.{is_right_attribute as right_attribute, is_right as right_image};
ghost use Rattle.cq_mapping.specs.MappingParts.{arrow_fault_over as fault_over};

use cq_base::{Name, Names, Raw, number_at};
use cq_theory::lookup::{
    entity_of_sort, has_reserved, has_unknown, has_unknown_name, has_wrong_count, is_too_large,
    is_unknown_entity, sort_of_raw,
};
use cq_theory::route::{is_long, path_ends};
use cq_theory::{ArrowImage, ArrowPart, Edge, Schema, Sort, Symbol, TermRefusal};

fn has_unknown_image(target: &Schema, variables: &Names, image: &ArrowImage) -> bool
    ensures { result ≡ unknown_image target.now variables.now image.now }
{
    match image {
        ArrowImage::Key(names) => has_unknown_name(
            target,
            target.attribute_names(),
            names.as_slice(),
        ),
        ArrowImage::Path(names) => has_unknown_name(
            target,
            target.attribute_names(),
            names.as_slice(),
        ),
        ArrowImage::Lambda(_, entity, raw) => {
            is_unknown_entity(target, entity) || has_unknown(target, variables, raw)
        }
    }
}

fn has_wrong_count_image(target: &Schema, image: &ArrowImage) -> bool
    ensures { result ≡ wrong_count_image target.now image.now }
{
    match image {
        ArrowImage::Key(_) => false,
        ArrowImage::Path(_) => false,
        ArrowImage::Lambda(_, _, raw) => has_wrong_count(target, raw),
    }
}

fn has_reserved_image(target: &Schema, image: &ArrowImage) -> bool
    ensures { result ≡ reserved_image target.now image.now }
{
    match image {
        ArrowImage::Key(_) => false,
        ArrowImage::Path(_) => false,
        ArrowImage::Lambda(_, _, raw) => has_reserved(target, raw),
    }
}

fn is_too_large_image(target: &Schema, image: &ArrowImage) -> bool
    ensures { result ≡ too_large_image target.now image.now }
{
    match image {
        ArrowImage::Key(names) => is_long(target, names.as_slice()),
        ArrowImage::Path(names) => is_long(target, names.as_slice()),
        ArrowImage::Lambda(_, _, raw) => is_too_large(raw),
    }
}

fn same_sort(left: Sort, right: Sort) -> bool
    ensures { result ≡ is_same_sort left right }
{
    match (left, right) {
        (Sort::Plain(left), Sort::Plain(right)) => left == right,
        (Sort::Entity(left), Sort::Entity(right)) => left == right,
        _ => false,
    }
}

fn are_ends(ends: Option<(u32, Sort)>, start: u32, end: Sort) -> bool
    ensures { result ≡ ends_are ends start end }
{
    match ends {
        Some(ends) => ends.0 == start && same_sort(ends.1, end),
        None => false,
    }
}

fn is_at(entity: u32, reached: Option<u32>) -> bool
    ensures { result ≡ is_at_entity entity reached }
{
    match reached {
        Some(reached) => reached == entity,
        None => false,
    }
}

fn is_sort(found: Option<Sort>, wanted: Sort) -> bool
    ensures { result ≡ are_of_one_sort found (Some wanted) }
{
    match found {
        Some(found) => same_sort(found, wanted),
        None => false,
    }
}

fn is_stated(target: &Schema, entity: &Option<Name>, start: u32) -> bool
    ensures { result ≡ stated_is target.now entity.now start }
{
    match entity {
        Some(name) => is_at(start, entity_of_sort(target.find_sort(name))),
        None => true,
    }
}

fn is_image_of_key(target: &Schema, image: &ArrowImage, start: u32, end: u32) -> bool
    ensures { result ≡ image_of_key target.now image.now start end }
{
    match image {
        ArrowImage::Key(names) => are_ends(
            path_ends(target, names.as_slice()),
            start,
            Sort::Entity(end),
        ),
        ArrowImage::Path(_) => false,
        ArrowImage::Lambda(_, _, _) => false,
    }
}

/// Whether a term over a variable of the entity has the type.
fn is_term_of(
    target: &Schema,
    variables: &Names,
    entity: &Option<Name>,
    raw: &Raw,
    start: u32,
    end: u32,
) -> bool
    ensures { result ≡ (stated_is target.now entity.now start
        && are_of_one_sort (raw_sort target.now variables.now (declared_sort.Entity start ∷ []) raw.now)
        (Some (declared_sort.Plain end))) }
{
    let sorts = [Sort::Entity(start)];
    is_stated(target, entity, start)
        && is_sort(
            sort_of_raw(target, variables, &sorts, raw),
            Sort::Plain(end),
        )
}

fn is_image_of_attribute(
    target: &Schema,
    variables: &Names,
    image: &ArrowImage,
    start: u32,
    end: u32,
) -> bool
    ensures { result ≡ image_of_attribute target.now variables.now image.now start end }
{
    match image {
        ArrowImage::Key(_) => false,
        ArrowImage::Path(names) => are_ends(
            path_ends(target, names.as_slice()),
            start,
            Sort::Plain(end),
        ),
        ArrowImage::Lambda(_, entity, raw) => {
            is_term_of(target, variables, entity, raw, start, end)
        }
    }
}

/// Whether the image can stand for the foreign key, which begins at the block's entity.
fn is_right_key(
    target: &Schema,
    entities: &[u32],
    edge: &Edge,
    block: Option<u32>,
    image: &ArrowImage,
) -> bool
    ensures { result ≡ right_key target.now entities.now (Some edge.now) block image.now }
{
    is_at(edge.from, block)
        && is_image_of_key(
            target,
            image,
            number_at(entities, edge.from as usize),
            number_at(entities, edge.to as usize),
        )
}

/// Whether the image can stand for the attribute, which begins at the block's entity.
fn is_right_attribute(
    target: &Schema,
    entities: &[u32],
    variables: &Names,
    edge: &Edge,
    block: Option<u32>,
    image: &ArrowImage,
) -> bool
    ensures { result ≡ right_attribute target.now entities.now variables.now (Some edge.now) block image.now }
{
    is_at(edge.from, block)
        && is_image_of_attribute(
            target,
            variables,
            image,
            number_at(entities, edge.from as usize),
            edge.to,
        )
}

/// Whether the part's image can stand for the symbol in the part's block.
fn is_right(
    source: &Schema,
    target: &Schema,
    entities: &[u32],
    variables: &Names,
    symbol: Option<Symbol>,
    part: &ArrowPart,
) -> bool
    ensures { result ≡ right_image source.now target.now entities.now variables.now symbol
        (entity_in (sort_named source.now part.now.block)) part.now.image }
{
    let block = entity_of_sort(source.find_sort(&part.block));
    let image = &part.image;
    match symbol {
        Some(Symbol::Key(key)) => match source.keys.as_slice().get(key as usize) {
            Some(edge) => is_right_key(target, entities, edge, block, image),
            None => false,
        },
        Some(Symbol::Attribute(attribute)) => {
            match source.attributes.as_slice().get(attribute as usize) {
                Some(edge) => is_right_attribute(target, entities, variables, edge, block, image),
                None => false,
            }
        }
        Some(Symbol::Function(_)) => false,
        None => false,
    }
}

/// The least rule that an image breaks, with these variables.
pub(crate) fn arrow_fault_over(
    source: &Schema,
    target: &Schema,
    entities: &[u32],
    variables: &Names,
    part: &ArrowPart,
) -> Option<TermRefusal>
    ensures { result ≡ fault_over source.now target.now entities.now variables.now part.now }
{
    let block = source.find_sort(&part.block);
    let symbol = source.find_symbol(&part.name);
    if block.is_none() || symbol.is_none() || has_unknown_image(target, variables, &part.image) {
        return Some(TermRefusal::Unknown);
    }
    if has_wrong_count_image(target, &part.image) {
        return Some(TermRefusal::WrongCount);
    }
    if !is_right(source, target, entities, variables, symbol, part) {
        return Some(TermRefusal::WrongSort);
    }
    if has_reserved_image(target, &part.image) {
        return Some(TermRefusal::Reserved);
    }
    if is_too_large_image(target, &part.image) {
        return Some(TermRefusal::TooLarge);
    }
    None
}
