//! The records of the files of a folder that stand behind cited generators.
ghost use Rattle.std.specs.Prelude.{◌≡◌, ◌<◌, ◌^◌, IfOk, IfSome, length};

use crate::sources::Files;
use cq_base::Name;
use cq_import::{LONGEST_FILE, file_name};
use cq_io::Folder;
use cq_origin::{FoundRecord, find_records, first_generator};
use cq_theory::value_text::push_con;
use cq_theory::{Con, Schema, Typeside};
use cq_values::name_of;
use std::alloc::{AllocError, Global};

/// A generator that is told under another name than its own.
#[derive(Drop)]
pub struct Label {
    pub generator: u32,
    pub name: Name,
}

/// The line in which the record of a generator begins.
#[derive(Clone, Copy, Debug)]
pub struct Line {
    pub generator: u32,
    pub line: u32,
}

/// The names and the lines of records, by their generators, which rise.
#[derive(Drop)]
pub struct Rows {
    pub labels: Vec<Label>,
    pub lines: Vec<Line>,
}

impl Rows {
    pub fn new(alloc: Global) -> Rows {
        Rows {
            labels: Vec::new(alloc),
            lines: Vec::new(alloc),
        }
    }
}

/// The line of the record of a generator, where its file was read.
pub fn line_of(lines: &[Line], generator: u32) -> Option<u32> {
    match lines.binary_search_by(|line| line.generator.cmp(&generator)) {
        Ok(place) => lines.get(place).map(|line| line.line),
        Err(_) => None,
    }
}

/// The records behind these generators, which rise. Those of a file that isn't read are left out.
pub fn find_rows<F: Folder>(
    alloc: Global,
    files: Files,
    cited: &[u32],
    folder: &mut F,
) -> Result<Rows, AllocError>
    ensures files { (F.state folder.new).files ≡ (F.state folder.old).files }
{
    let schema: &Schema = files.schema;
    let mut rows = Rows::new(alloc);
    for entity in 0..schema.entities.len() as u32 {
        add_entity_rows(alloc, files, entity, cited, folder, &mut rows)?;
    }
    Ok(rows)
}

/// Adds the records of an entity's file.
fn add_entity_rows<F: Folder>(
    alloc: Global,
    files: Files,
    entity: u32,
    cited: &[u32],
    folder: &mut F,
    rows: &mut Rows,
) -> Result<(), AllocError>
    ensures files { (F.state folder.new).files ≡ (F.state folder.old).files }
{
    let schema: &Schema = files.schema;
    let first = first_generator(files.presentation.generators.as_slice(), entity);
    let behind = first_behind(files, entity);
    let numbers = numbers_between(alloc, cited, first, behind)?;
    if numbers.is_empty() {
        return Ok(());
    }
    let Some(name) = schema.entities.as_slice().get(entity as usize) else {
        return Ok(());
    };
    let Some(text) = read(alloc, files.dir, name, folder)? else {
        return Ok(());
    };
    let found = find_records(alloc, text.as_slice(), numbers.as_slice())?;
    add_found(alloc, schema, name, first, found.as_slice(), rows)
}

/// How many generators stand before those that are behind the generators of an entity.
fn first_behind(files: Files, entity: u32) -> usize {
    let generators = files.presentation.generators.as_slice();
    match entity.checked_add(1) {
        Some(next) => first_generator(generators, next),
        None => generators.len(),
    }
}

/// The numbers of the records, from 1, of those generators that stand from the first one on and before another.
fn numbers_between(
    alloc: Global,
    cited: &[u32],
    first: usize,
    behind: usize,
) -> Result<Vec<u32>, AllocError> {
    let mut numbers = Vec::new(alloc);
    let from = cited.partition_point(|generator| (*generator as usize) < first);
    for generator in &cited[from..] {
        let place = *generator as usize;
        if place >= behind {
            break;
        }
        numbers.push(record_number(place, first))?;
    }
    Ok(numbers)
}

/// The number of a record, from 1, by its place and that of the first of its file.
fn record_number(place: usize, first: usize) -> u32 {
    match u32::try_from(place.saturating_sub(first).saturating_add(1)) {
        Ok(number) => number,
        Err(_) => u32::MAX,
    }
}

/// The bytes of the file of an entity, if it can be read.
fn read<F: Folder>(
    alloc: Global,
    dir: &Name,
    entity: &Name,
    folder: &mut F,
) -> Result<Option<Vec<u8>>, AllocError>
    ensures files { (F.state folder.new).files ≡ (F.state folder.old).files }
    ensures short { IfOk result (λ found. IfSome found (λ text. length text.items < 2 ^ 31)) }
{
    let name = file_name(alloc, dir, entity.as_str())?;
    match folder.read(name.as_str(), LONGEST_FILE) {
        Ok(text) => Ok(Some(text)),
        Err(_) => Ok(None),
    }
}

/// Adds the lines of records, and the names by which they are told.
fn add_found(
    alloc: Global,
    schema: &Schema,
    entity: &Name,
    first: usize,
    found: &[FoundRecord],
    rows: &mut Rows,
) -> Result<(), AllocError> {
    let typeside: &Typeside = &schema.typeside;
    for record in found {
        let generator = generator_of(record.number, first);
        rows.lines.push(Line {
            generator,
            line: record.line,
        })?;
        if let Some(name) = label_of(alloc, typeside, entity, record.id.as_slice())? {
            rows.labels.push(Label { generator, name })?;
        }
    }
    Ok(())
}

/// The generator of a record, by that of the first of its file.
fn generator_of(number: u32, first: usize) -> u32 {
    match u32::try_from(first.saturating_add(number as usize).saturating_sub(1)) {
        Ok(generator) => generator,
        Err(_) => u32::MAX,
    }
}

/// The name of a record: its entity, and its id in brackets and quotes. A name that would be too long isn't made.
fn label_of(
    alloc: Global,
    typeside: &Typeside,
    entity: &Name,
    id: &[u8],
) -> Result<Option<Name>, AllocError> {
    let Some(id) = name_of(alloc, id)? else {
        return Ok(None);
    };
    let mut text = Vec::from_slice(alloc, entity.as_str().as_bytes())?;
    text.extend_from_slice(b"(")?;
    push_con(typeside, &Con::Open(id), &mut text)?;
    text.extend_from_slice(b")")?;
    name_of(alloc, text.as_slice())
}
