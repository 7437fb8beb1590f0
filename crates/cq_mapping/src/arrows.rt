//! The images of foreign keys and attributes.
ghost use Rattle.std.specs.Prelude.{◌≡◌, ◌-◌, ◌+◌, ◌<◌, ◌^◌, ◌⊎◌, ◌++◌, ◌∷◌, [], IfOk, IfErr, Some, None, length, map};
ghost use Rattle.std.specs.Prelude.{option_map};
ghost use Rattle.cq_theory.specs.ArrowRefusals.{first_missing};
ghost use Rattle.cq_theory.specs.Resolve.{or_else, in_part};
ghost use Rattle.cq_theory.specs.Schema.{edge_names};
ghost use Rattle.cq_mapping.specs.MappingParts.{variables_of, arrow_fault as fault_of_arrow};
ghost use Rattle.cq_mapping.specs.MappingParts.{arrows_fault, given_arrows, path_term};
ghost use Rattle.cq_mapping.specs.MappingParts.{made_path as path_made, made_term as term_made, made_key};
ghost use Rattle.cq_mapping.specs.MappingParts.{made_attribute, arrows_and_rest_fault};

use crate::blocks::check_edges;
use crate::rules::arrow_fault_over;
use cq_base::{Name, Names, Seq, number_at};
use cq_theory::lookup::{build, declare, in_part_of, of_arrow, path_keys, table_of, type_term};
use cq_theory::route::path_attribute;
use cq_theory::{
    ArrowImage, ArrowPart, ArrowRefusal, Con, Edge, EntTerm, Path, Schema, Sort, TheoryRefusal,
    TypeTerm,
};
use std::alloc::{AllocError, Global};

/// The table of an image's variable.
fn variable_table(alloc: Global, image: &ArrowImage) -> Result<Names, TheoryRefusal>
    ensures ok { IfOk result (λ table. table ≡ variables_of image.now) }
    ensures memory { IfErr result (λ refusal. refusal ≡ TheoryRefusal.Memory) }
{
    match image {
        ArrowImage::Key(_) => Ok(Names::new(alloc)),
        ArrowImage::Path(_) => Ok(Names::new(alloc)),
        ArrowImage::Lambda(variable, _, _) => table_of(alloc, variable),
    }
}

/// Tests the rules of part `number` but that of names given twice.
fn check_arrow(
    alloc: Global,
    source: &Schema,
    target: &Schema,
    entities: &[u32],
    number: u32,
    part: &ArrowPart,
) -> Result<(), TheoryRefusal>
    ensures ok { IfOk result (λ _. fault_of_arrow source.now target.now entities.now part.now ≡ None) }
    ensures refused { IfErr result (λ refusal. (refusal ≡ TheoryRefusal.Memory)
        ⊎ (option_map (in_part number) (fault_of_arrow source.now target.now entities.now part.now) ≡ Some refusal)) }
{
    let variables = variable_table(alloc, &part.image)?;
    match arrow_fault_over(source, target, entities, &variables, part) {
        Some(rule) => Err(in_part_of(number, rule)),
        None => Ok(()),
    }
}

/// The table of the foreign keys and attributes that have an image by the parts, the first of which is part `first`.
fn add_arrows(
    alloc: Global,
    source: &Schema,
    target: &Schema,
    entities: &[u32],
    first: u32,
    parts: &[ArrowPart],
) -> Result<Names, TheoryRefusal>
    requires { first + length parts.now < 2 ^ 32 }
    ensures accepted { IfOk result (λ _. arrows_fault source.now target.now entities.now first parts.now ≡ None) }
    ensures made { IfOk result (λ table. table ≡ given_arrows parts.now) }
    ensures refused { IfErr result (λ refusal. (refusal ≡ TheoryRefusal.Memory)
        ⊎ (arrows_fault source.now target.now entities.now first parts.now ≡ Some refusal)) }
{
    let mut table = Names::new(alloc);
    let mut number = first;
    for part in parts {
        declare(&mut table, number, &part.name)?;
        check_arrow(alloc, source, target, entities, number, part)?;
        number += 1;
    }
    Ok(table)
}

/// The path of a foreign key's image.
fn make_path(alloc: Global, target: &Schema, image: &ArrowImage) -> Result<Vec<u32>, AllocError>
    ensures { IfOk result (λ path. path.items ≡ path_made target.now image.now) }
{
    match image {
        ArrowImage::Key(names) => {
            let keys = path_keys(alloc, target, names.as_slice())?;
            Ok(keys)
        }
        ArrowImage::Path(_) => Ok(Vec::new(alloc)),
        ArrowImage::Lambda(_, _, _) => Ok(Vec::new(alloc)),
    }
}

/// The path that stands for a foreign key, which is there where the parts break no rule.
fn make_key(
    alloc: Global,
    target: &Schema,
    given: &Names,
    parts: &[ArrowPart],
    edge: &Edge,
) -> Result<Vec<u32>, AllocError>
    ensures { IfOk result (λ path. path.items ≡ made_key target.now given.now parts.now edge.now) }
{
    let Some(place) = given.find(&edge.name) else {
        return Ok(Vec::new(alloc));
    };
    match parts.get(place as usize) {
        Some(part) => {
            let path = make_path(alloc, target, &part.image)?;
            Ok(path)
        }
        None => Ok(Vec::new(alloc)),
    }
}

fn build_keys(
    alloc: Global,
    source: &Schema,
    target: &Schema,
    given: &Names,
    parts: &[ArrowPart],
) -> Result<Vec<Seq<u32>>, AllocError>
    ensures { IfOk result (λ keys. keys.items ≡ map (made_key target.now given.now parts.now) source.now.keys) }
{
    let mut keys = Vec::new(alloc);
    for edge in source.keys.as_slice() {
        let path = make_key(alloc, target, given, parts, edge)?;
        keys.push(Seq::from_vec(path))?;
    }
    Ok(keys)
}

/// A path that ends in an attribute, as a term over one variable.
fn make_path_term(alloc: Global, target: &Schema, names: &[Name]) -> Result<TypeTerm, AllocError>
    ensures { IfOk result (λ made. made ≡ path_term target.now names.now) }
{
    let path = path_keys(alloc, target, names)?;
    let attribute = match path_attribute(target, names) {
        Some(attribute) => attribute,
        None => 0,
    };
    Ok(TypeTerm::Att(
        attribute,
        EntTerm {
            generator: 0,
            path: Path::from_vec(path)?,
        },
    ))
}

/// The term of an attribute's image, with these variables.
fn make_term_over(
    alloc: Global,
    target: &Schema,
    variables: &Names,
    start: u32,
    image: &ArrowImage,
) -> Result<TypeTerm, AllocError>
    ensures { IfOk result (λ made. made ≡ term_made target.now variables.now start image.now) }
{
    match image {
        ArrowImage::Key(_) => Ok(TypeTerm::Const(Con::Named(0))),
        ArrowImage::Path(names) => {
            let made = make_path_term(alloc, target, names.as_slice())?;
            Ok(made)
        }
        ArrowImage::Lambda(_, _, raw) => {
            let sorts = [Sort::Entity(start)];
            let made = build(alloc, target, variables, &sorts, raw)?;
            Ok(type_term(made))
        }
    }
}

fn make_term(
    alloc: Global,
    target: &Schema,
    start: u32,
    image: &ArrowImage,
) -> Result<TypeTerm, AllocError>
    ensures { IfOk result (λ made. made ≡ term_made target.now (variables_of image.now) start image.now) }
{
    match variable_table(alloc, image) {
        Ok(variables) => make_term_over(alloc, target, &variables, start, image),
        Err(_) => Err(AllocError),
    }
}

/// The term that stands for an attribute, which is there where the parts break no rule.
fn make_attribute(
    alloc: Global,
    target: &Schema,
    entities: &[u32],
    given: &Names,
    parts: &[ArrowPart],
    edge: &Edge,
) -> Result<TypeTerm, AllocError>
    ensures { IfOk result (λ made. made ≡ made_attribute target.now entities.now given.now parts.now edge.now) }
{
    let Some(place) = given.find(&edge.name) else {
        return Ok(TypeTerm::Const(Con::Named(0)));
    };
    match parts.get(place as usize) {
        Some(part) => {
            let made = make_term(
                alloc,
                target,
                number_at(entities, edge.from as usize),
                &part.image,
            )?;
            Ok(made)
        }
        None => Ok(TypeTerm::Const(Con::Named(0))),
    }
}

fn build_attributes(
    alloc: Global,
    source: &Schema,
    target: &Schema,
    entities: &[u32],
    given: &Names,
    parts: &[ArrowPart],
) -> Result<Vec<TypeTerm>, AllocError>
    ensures { IfOk result (λ attributes. attributes.items ≡ map
        (made_attribute target.now entities.now given.now parts.now) source.now.attributes) }
{
    let mut attributes = Vec::new(alloc);
    for edge in source.attributes.as_slice() {
        attributes.push(make_attribute(alloc, target, entities, given, parts, edge)?)?;
    }
    Ok(attributes)
}

/// The paths of the foreign keys and the terms of the attributes, by parts of which the first is part `first`.
pub(crate) fn make_arrows(
    alloc: Global,
    source: &Schema,
    target: &Schema,
    entities: &[u32],
    first: u32,
    parts: &[ArrowPart],
) -> Result<(Vec<Seq<u32>>, Vec<TypeTerm>), ArrowRefusal>
    requires { first + length parts.now < 2 ^ 32 }
    ensures accepted { IfOk result (λ _. arrows_and_rest_fault source.now target.now entities.now first
        parts.now ≡ None) }
    ensures made { IfOk result (λ made. (made.0.items ≡ map (made_key target.now (given_arrows parts.now) parts.now)
        source.now.keys) × (made.1.items ≡ map (made_attribute target.now entities.now (given_arrows parts.now)
        parts.now) source.now.attributes)) }
    ensures refused { IfErr result (λ refusal. (refusal ≡ ArrowRefusal.Memory)
        ⊎ (arrows_and_rest_fault source.now target.now entities.now first parts.now ≡ Some refusal)) }
{
    match add_arrows(alloc, source, target, entities, first, parts) {
        Ok(given) => finish_arrows(alloc, source, target, entities, &given, parts),
        Err(refusal) => Err(of_arrow(refusal)),
    }
}

fn finish_arrows(
    alloc: Global,
    source: &Schema,
    target: &Schema,
    entities: &[u32],
    given: &Names,
    parts: &[ArrowPart],
) -> Result<(Vec<Seq<u32>>, Vec<TypeTerm>), ArrowRefusal>
    ensures accepted { IfOk result (λ _. or_else (first_missing given.now (edge_names source.now.keys))
        (first_missing given.now (edge_names source.now.attributes)) ≡ None) }
    ensures made { IfOk result (λ made. (made.0.items ≡ map (made_key target.now given.now parts.now) source.now.keys)
        × (made.1.items ≡ map (made_attribute target.now entities.now given.now parts.now) source.now.attributes)) }
    ensures refused { IfErr result (λ refusal. (refusal ≡ ArrowRefusal.Memory)
        ⊎ (or_else (first_missing given.now (edge_names source.now.keys))
        (first_missing given.now (edge_names source.now.attributes)) ≡ Some refusal)) }
{
    check_edges(given, source.keys.as_slice())?;
    check_edges(given, source.attributes.as_slice())?;
    let made = build_arrows(alloc, source, target, entities, given, parts)?;
    Ok(made)
}

fn build_arrows(
    alloc: Global,
    source: &Schema,
    target: &Schema,
    entities: &[u32],
    given: &Names,
    parts: &[ArrowPart],
) -> Result<(Vec<Seq<u32>>, Vec<TypeTerm>), AllocError>
    ensures { IfOk result (λ made. (made.0.items ≡ map (made_key target.now given.now parts.now) source.now.keys)
        × (made.1.items ≡ map (made_attribute target.now entities.now given.now parts.now) source.now.attributes)) }
{
    let keys = build_keys(alloc, source, target, given, parts)?;
    let attributes = build_attributes(alloc, source, target, entities, given, parts)?;
    Ok((keys, attributes))
}
