//! Instances that are pulled back along mappings.
ghost use Rattle.std.specs.Prelude.{ℕ, [], ◌∷◌, ◌++◌, ◌≡◌, ◌<◌, false, map, length, nat_lt, IfOk, IfErr, OnOk};
ghost use Rattle.std.specs.List.{enumerate_from, list_any};
ghost use Rattle.cq_theory.specs.Canonical.{below};
ghost use Rattle.cq_theory.specs.Tables.{Initial, AtRow, count_of, value_of};
ghost use Rattle.cq_theory.specs.Value.{symbols_of};
ghost use Rattle.cq_mapping.specs.Duties.{Preserves};
ghost use Rattle.cq_mapping.specs.Images.{entity_image, key_image, attribute_image};
ghost use Rattle.cq_mapping.specs.Moved.{key_column, cell_column, delta_tables};
ghost use Rattle.cq_instance.specs.Given.{HasLeastNames, given, has_long_cell, is_oversized, size_of};
ghost use Rattle.cq_instance.specs.Terms.{IsTypeTermOf};
ghost use Rattle.cq_move.specs.Pulling.{TellsSize};

use crate::columns::{row_column, value_column};
use cq_base::Seq;
use cq_mapping::Mapping;
use cq_model::Instance;
use cq_theory::{Sheet, SizeRefusal, TypeTerm, Value};
use std::alloc::{AllocError, Global};

/// The most rows and nulls of an instance.
const MOST_GENERATORS: u64 = cq_theory::MOST_GENERATORS as u64;

/// The instance of the tables that the mapping pulls back, with their canonical presentation. The rows of an entity
/// are those of its image, with their numbers; a foreign key leads where its path leads, and a cell has the value of
/// its attribute's term. Nulls and entries are those of `instance`. `TooLarge` is answered exactly where there are
/// over 16,000,000 rows and nulls together or a cell has over 1,024 symbols, and `Memory` for want of memory.
pub fn delta(alloc: Global, mapping: &Mapping, instance: &Instance) -> Result<Instance, SizeRefusal>
    requires preserves { Preserves mapping.now }
    requires over { instance.now.schema ≡ mapping.now.target }
    ensures instance { IfOk result (λ made. made ≡ given mapping.now.source
        (delta_tables mapping.now instance.now.tables)) }
    ensures initial { IfOk result (λ made. Initial made.schema made.presentation made.tables made.assignment) }
    ensures least { IfOk result (λ made. HasLeastNames made) }
    ensures fits { IfOk result (λ _. is_oversized (delta_tables mapping.now instance.now.tables) ≡ false) }
    ensures refused { IfErr result (TellsSize (is_oversized (delta_tables mapping.now instance.now.tables))) }
{
    mapping.is_well_sorted();
    instance.is_instance();
    if has_many_rows(mapping, instance) {
        return Err(SizeRefusal::TooLarge);
    }
    let sheet = pulled_sheet(alloc, mapping, instance)?;
    match pulled_instance(alloc, mapping, instance, sheet) {
        Ok(made) => Ok(made),
        Err(_) => Err(SizeRefusal::Memory),
    }
}

/// How many rows the image of an entity has.
fn count_at(mapping: &Mapping, instance: &Instance, entity: u32) -> u32
    requires over { instance.now.schema ≡ mapping.now.target }
    requires within { entity < length mapping.now.source.entities }
    ensures { result ≡ count_of instance.now.tables (entity_image mapping.now entity) }
{
    mapping.is_well_sorted();
    instance.count(mapping.entities.as_slice()[entity as usize])
}

/// Whether there are over 16,000,000 rows of images and nulls together.
fn has_many_rows(mapping: &Mapping, instance: &Instance) -> bool
    requires over { instance.now.schema ≡ mapping.now.target }
    ensures { result ≡ nat_lt 16000000 (size_of (delta_tables mapping.now instance.now.tables)) }
{
    mapping.is_well_sorted();
    let nulls = instance.algebra().nulls.len() as u64;
    if nulls > MOST_GENERATORS {
        return true;
    }
    let mut room = MOST_GENERATORS - nulls;
    for entity in mapping.entities.as_slice() {
        let count = instance.count(*entity) as u64;
        if count > room {
            return true;
        }
        room -= count;
    }
    false
}

/// How many rows each entity of the source has.
fn pulled_counts(
    alloc: Global,
    mapping: &Mapping,
    instance: &Instance,
) -> Result<Seq<u32>, AllocError>
    requires over { instance.now.schema ≡ mapping.now.target }
    ensures { IfOk result (λ counts. counts ≡ map (count_of instance.now.tables) mapping.now.entities) }
{
    mapping.is_well_sorted();
    let mut counts = Vec::with_capacity(alloc, mapping.entities.len())?;
    for entity in mapping.entities.as_slice() {
        counts.push(instance.count(*entity))?;
    }
    Ok(Seq::from_vec(counts))
}

/// The path of a foreign key.
fn path_of(mapping: &Mapping, key: u32) -> &[u32]
    requires { key < length mapping.now.keys }
    ensures { result.now ≡ key_image mapping.now key }
{
    mapping.keys.as_slice()[key as usize].as_slice()
}

/// The term of an attribute.
fn term_of(mapping: &Mapping, attribute: u32) -> &TypeTerm
    requires { attribute < length mapping.now.attributes }
    ensures { result.now ≡ attribute_image mapping.now attribute }
{
    &mapping.attributes.as_slice()[attribute as usize]
}

/// The column of each foreign key of the source.
fn pulled_keys(
    alloc: Global,
    mapping: &Mapping,
    instance: &Instance,
) -> Result<Seq<Seq<u32>>, AllocError>
    requires over { instance.now.schema ≡ mapping.now.target }
    ensures { IfOk result (λ columns. columns ≡ map (key_column mapping.now instance.now.tables)
        (enumerate_from 0 mapping.now.source.keys)) }
{
    mapping.is_well_sorted();
    let keys = mapping.source.keys.as_slice();
    let mut columns = Vec::with_capacity(alloc, keys.len())?;
    for (key, edge) in keys.iter().enumerate() {
        let count = count_at(mapping, instance, edge.from);
        columns.push(row_column(alloc, instance, path_of(mapping, key as u32), count)?)?;
    }
    Ok(Seq::from_vec(columns))
}

/// Puts the column of an attribute behind others. Its values have at most 1,024 symbols.
fn push_cells(
    alloc: Global,
    instance: &Instance,
    term: &TypeTerm,
    count: u32,
    columns: &mut Vec<Seq<Value>>,
) -> Result<(), SizeRefusal>
    requires { (type : ℕ) × ((row : ℕ) → row < count
        → IsTypeTermOf instance.now.schema instance.now.tables (AtRow row ∷ []) term.now type) }
    ensures column { OnOk result (columns.new.items ≡ columns.old.items
        ++ map (λ row. value_of instance.now.tables (AtRow row ∷ []) term.now) (below count) ∷ []) }
    ensures fits { OnOk result (list_any (λ v. nat_lt 1024 (symbols_of v))
        (map (λ row. value_of instance.now.tables (AtRow row ∷ []) term.now) (below count)) ≡ false) }
    ensures refused { IfErr result (TellsSize (list_any (λ v. nat_lt 1024 (symbols_of v))
        (map (λ row. value_of instance.now.tables (AtRow row ∷ []) term.now) (below count)))) }
{
    match value_column(alloc, instance, term, count) {
        Ok(column) => match columns.push(column) {
            Ok(()) => Ok(()),
            Err(_) => Err(SizeRefusal::Memory),
        },
        Err(refusal) => Err(refusal),
    }
}

/// The column of each attribute of the source.
fn pulled_cells(
    alloc: Global,
    mapping: &Mapping,
    instance: &Instance,
) -> Result<Seq<Seq<Value>>, SizeRefusal>
    requires over { instance.now.schema ≡ mapping.now.target }
    ensures columns { IfOk result (λ columns. columns ≡ map (cell_column mapping.now instance.now.tables)
        (enumerate_from 0 mapping.now.source.attributes)) }
    ensures fits { IfOk result (λ _. has_long_cell (delta_tables mapping.now instance.now.tables) ≡ false) }
    ensures refused { IfErr result (TellsSize (has_long_cell (delta_tables mapping.now instance.now.tables))) }
{
    mapping.is_well_sorted();
    let attributes = mapping.source.attributes.as_slice();
    let Ok(mut columns) = Vec::with_capacity(alloc, attributes.len()) else {
        return Err(SizeRefusal::Memory);
    };
    for (attribute, edge) in attributes.iter().enumerate() {
        let term = term_of(mapping, attribute as u32);
        let count = count_at(mapping, instance, edge.from);
        if let Err(refusal) = push_cells(alloc, instance, term, count, &mut columns) {
            return Err(refusal);
        }
    }
    Ok(Seq::from_vec(columns))
}

/// The sheet that the mapping pulls back.
fn pulled_sheet(alloc: Global, mapping: &Mapping, instance: &Instance) -> Result<Sheet, SizeRefusal>
    requires over { instance.now.schema ≡ mapping.now.target }
    ensures sheet { IfOk result (λ sheet. sheet ≡ (delta_tables mapping.now instance.now.tables).sheet) }
    ensures fits { IfOk result (λ _. has_long_cell (delta_tables mapping.now instance.now.tables) ≡ false) }
    ensures refused { IfErr result (TellsSize (has_long_cell (delta_tables mapping.now instance.now.tables))) }
{
    let Ok(counts) = pulled_counts(alloc, mapping, instance) else {
        return Err(SizeRefusal::Memory);
    };
    let Ok(keys) = pulled_keys(alloc, mapping, instance) else {
        return Err(SizeRefusal::Memory);
    };
    let cells = pulled_cells(alloc, mapping, instance)?;
    Ok(Sheet {
        counts,
        keys,
        cells,
    })
}

/// The instance of a sheet that the mapping pulls back, within the limits.
fn pulled_instance(
    alloc: Global,
    mapping: &Mapping,
    instance: &Instance,
    sheet: Sheet,
) -> Result<Instance, AllocError>
    requires preserves { Preserves mapping.now }
    requires over { instance.now.schema ≡ mapping.now.target }
    requires sheet { sheet ≡ (delta_tables mapping.now instance.now.tables).sheet }
    requires fits { is_oversized (delta_tables mapping.now instance.now.tables) ≡ false }
    ensures instance { IfOk result (λ made. made ≡ given mapping.now.source
        (delta_tables mapping.now instance.now.tables)) }
    ensures initial { IfOk result (λ made. Initial made.schema made.presentation made.tables made.assignment) }
    ensures least { IfOk result (λ made. HasLeastNames made) }
{
    mapping.is_well_sorted();
    instance.is_instance();
    let source = mapping.source.clone()?;
    instance.with_sheet(alloc, source, sheet)
}
