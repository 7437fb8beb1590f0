//! The joined name that a colimit would have twice.
use crate::joined::{Joined, JoinedSchema};
use cq_base::{Hashing, Name};
use cq_environment::Environment;
use cq_syntax::Body;
use cq_theory::Typeside;
use indexmap::IndexSet;
use std::alloc::{AllocError, Global};

/// A joined name that two schemas give, or that one gives and its typeside has.
#[derive(Drop)]
pub struct DoubleName {
    pub name: Name,
    pub first: Name,
    pub second: Option<Name>,
}

/// The joined name that the schemas with these numbers, from 1, both give; where it is one schema, the name that the
/// typeside has. None: the body is no colimit, or the name is too long.
pub fn double_name(
    alloc: Global,
    env: &Environment,
    body: &Body,
    first: u32,
    second: u32,
) -> Result<Option<DoubleName>, AllocError> {
    let Body::Colimit(literal) = body else {
        return Ok(None);
    };
    let joined = Joined::new(alloc, env, literal)?;
    let Some(left) = joined.schema_numbered(first) else {
        return Ok(None);
    };
    let Some(right) = joined.schema_numbered(second) else {
        return Ok(None);
    };
    if first == second {
        beside_typeside(alloc, &joined, left)
    } else {
        of_both(alloc, &joined, left, right)
    }
}

/// The first name that both schemas give, among entities and then among foreign keys and attributes.
fn of_both(
    alloc: Global,
    joined: &Joined,
    left: &JoinedSchema,
    right: &JoinedSchema,
) -> Result<Option<DoubleName>, AllocError> {
    let entities = joined.entity_names(alloc, left)?;
    let others = joined.entity_names(alloc, right)?;
    if let Some(name) = common_name(alloc, entities.as_slice(), others.as_slice())? {
        return Ok(Some(by_both(name, left, right)?));
    }
    let edges = left.edge_names(alloc)?;
    let others = right.edge_names(alloc)?;
    match common_name(alloc, edges.as_slice(), others.as_slice())? {
        Some(name) => Ok(Some(by_both(name, left, right)?)),
        None => Ok(None),
    }
}

fn by_both(
    name: Name,
    left: &JoinedSchema,
    right: &JoinedSchema,
) -> Result<DoubleName, AllocError> {
    let first = left.name.clone()?;
    let second = Some(right.name.clone()?);
    Ok(DoubleName {
        name,
        first,
        second,
    })
}

/// The first of some names that stands among others.
fn common_name(alloc: Global, names: &[Name], others: &[Name]) -> Result<Option<Name>, AllocError> {
    let table = table_of_names(alloc, others)?;
    for name in names {
        if table.get_index_of(name).is_some() {
            return Ok(Some(name.clone()?));
        }
    }
    Ok(None)
}

fn table_of_names(alloc: Global, names: &[Name]) -> Result<IndexSet<Name, Hashing>, AllocError> {
    let hashing = match names.first() {
        Some(name) => name.hashing(),
        None => Hashing::new(),
    };
    let mut table = IndexSet::with_hasher(alloc, hashing);
    for name in names {
        let _is_new = table.insert(name.clone()?)?;
    }
    Ok(table)
}

/// The first name that the schema gives and its typeside has, as a type or as a function.
fn beside_typeside(
    alloc: Global,
    joined: &Joined,
    part: &JoinedSchema,
) -> Result<Option<DoubleName>, AllocError> {
    let typeside = &part.schema.typeside;
    let entities = joined.entity_names(alloc, part)?;
    let edges = part.edge_names(alloc)?;
    if let Some(name) = first_type(typeside, entities.as_slice()) {
        return Ok(Some(by_one(name, part)?));
    }
    match first_function(typeside, edges.as_slice()) {
        Some(name) => Ok(Some(by_one(name, part)?)),
        None => Ok(None),
    }
}

fn by_one(name: &Name, part: &JoinedSchema) -> Result<DoubleName, AllocError> {
    let name = name.clone()?;
    let first = part.name.clone()?;
    Ok(DoubleName {
        name,
        first,
        second: None,
    })
}

fn first_type<'a>(typeside: &Typeside, names: &'a [Name]) -> Option<&'a Name> {
    for name in names {
        if typeside.find_type(name).is_some() {
            return Some(name);
        }
    }
    None
}

fn first_function<'a>(typeside: &Typeside, names: &'a [Name]) -> Option<&'a Name> {
    for name in names {
        if typeside.find_function(name).is_some() {
            return Some(name);
        }
    }
    None
}
