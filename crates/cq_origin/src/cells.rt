//! The cells that equations of an import stand for.
ghost use Rattle.std.specs.Prelude.{List, ◌≡◌, ◌≤◌, IsSomeAnd, true, false, length};
ghost use Rattle.std.specs.Option.{option_copied};
ghost use Rattle.std.specs.List.Sorted.{IsPartitionedBy, IsPartitionPoint};
ghost use Rattle.cq_import.specs.Cells.{Sheet};
ghost use Rattle.cq_origin.specs.Cells.{PresentsCells, TellsCell, attribute_said, before_entity, is_before, key_said};
ghost use Rattle.cq_origin.specs.Cells.{path_said, place_from, said_of, term_said};

use cq_base::Name;
use cq_import::columns::Column;
use cq_theory::{Edge, EntTerm, Equation, Presentation, Schema, Sort, TypeTerm};

/// A cell of the file of an entity: the number of its record, from 1, and its column.
#[derive(Clone, Copy, Debug)]
pub struct CellPlace {
    pub entity: u32,
    pub record_number: u64,
    pub column: Column,
}

/// What the left side of an equation names: the generator of a record, the entity at which a column begins, and the
/// column.
#[derive(Clone, Copy, Debug)]
struct Said {
    generator: u32,
    entity: u32,
    column: Column,
}

/// Whether the sort is an entity before this one.
fn is_entity_before(sort: Sort, entity: u32) -> bool
    ensures { result ≡ before_entity entity sort }
{
    match sort {
        Sort::Plain(_) => false,
        Sort::Entity(number) => number < entity,
    }
}

/// How many generators stand before the first of an entity, where those of the entities stand in their order.
pub fn first_generator(generators: &[(Name, Sort)], entity: u32) -> usize
    ensures bound { result ≤ length generators.now }
    ensures point { IsPartitionedBy (is_before entity) generators.now
        → IsPartitionPoint (λ g. is_before entity g ≡ true) (λ g. is_before entity g ≡ false) generators.now result }
{
    generators.partition_point(|generator| is_entity_before(generator.1, entity))
}

/// What an attribute at a term names.
fn attribute_at(edge: Option<&Edge>, attribute: u32, term: &EntTerm) -> Option<Said>
    ensures { result ≡ attribute_said attribute term.now (option_copied edge.entry) }
{
    let edge = edge?;
    Some(Said {
        generator: term.generator,
        entity: edge.from,
        column: Column::Attribute(attribute, edge.to),
    })
}

/// What a foreign key at a generator names.
fn key_at(edge: Option<&Edge>, key: u32, generator: u32) -> Option<Said>
    ensures { result ≡ key_said key generator (option_copied edge.entry) }
{
    let edge = edge?;
    Some(Said {
        generator,
        entity: edge.from,
        column: Column::Key(key, edge.to),
    })
}

fn said_by_type_term(schema: &Schema, term: &TypeTerm) -> Option<Said>
    ensures { result ≡ term_said schema.now term.now }
{
    match term {
        TypeTerm::Att(attribute, at) => {
            let edge = schema.attributes.as_slice().get(*attribute as usize);
            attribute_at(edge, *attribute, at)
        }
        _ => None,
    }
}

fn said_by_entity_term(schema: &Schema, term: &EntTerm) -> Option<Said>
    ensures { result ≡ path_said schema.now term.now.generator term.now.path }
{
    match term.path.as_slice() {
        [key, ..] => {
            let edge = schema.keys.as_slice().get(*key as usize);
            key_at(edge, *key, term.generator)
        }
        [] => None,
    }
}

/// What the left side of an equation names.
fn said_by(schema: &Schema, equation: &Equation) -> Option<Said>
    ensures { result ≡ said_of schema.now equation.now }
{
    match equation {
        Equation::Ent(left, _) => said_by_entity_term(schema, left),
        Equation::Typ(left, _) => said_by_type_term(schema, left),
    }
}

/// The cell of what is named, where this generator is the first of its entity.
fn place_behind(said: Said, first: usize) -> Option<CellPlace>
    ensures { result ≡ place_from said first }
{
    let generator = said.generator as usize;
    if generator < first {
        return None;
    }
    Some(CellPlace {
        entity: said.entity,
        record_number: (generator - first) as u64 + 1,
        column: said.column,
    })
}

/// The cell that an equation of an import's presentation stands for. An equation of the file of entries has none, since
/// its left side is a function at its arguments.
pub fn cell_of(
    schema: &Schema,
    presentation: &Presentation,
    equation: &Equation,
) -> Option<CellPlace>
    ensures { (sheets : List Sheet) → PresentsCells schema.now sheets presentation.now equation.now
        → IsSomeAnd result (TellsCell schema.now sheets equation.now) }
{
    let said = said_by(schema, equation)?;
    let first = first_generator(presentation.generators.as_slice(), said.entity);
    place_behind(said, first)
}
