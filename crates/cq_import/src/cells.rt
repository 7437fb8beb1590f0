//! The cells of the files of entities.
ghost use Rattle.std.specs.Prelude.{ℕ, ◌≡◌, ◌+◌, ◌≤◌, ◌<◌, ◌∷◌, ◌++◌, [], Some, None, IfOk, OnOk, IfErr, length};
ghost use Rattle.std.specs.Prelude.{option_map};
ghost use Rattle.cq_theory.specs.declared.presentation.Equation.TheVariants as equation;
ghost use Rattle.cq_import.specs.declared.content.Content.TheVariants as content;
ghost use Rattle.cq_import.specs.Cells.{content_equations, content_of, row_with_id, start_of, trouble_fault};
ghost use Rattle.cq_import.specs.Context.{IsColumn, IsContext, ReadsCell, fault_in, sheets_in, shown_cell, typeside_in};
ghost use Rattle.cq_import.specs.Faults.{Tells, BadCell as BadCellFault, NoSuchId as NoSuchIdFault};
ghost use Rattle.cq_import.specs.Labels.{uses_in, uses_trouble, with_uses};

use crate::capacities::empty_equations;
use crate::columns::Column;
use crate::content::{Content, read_content};
use crate::entity_file::EntityFile;
use crate::ids::Id;
use crate::labels::{Labels, Trouble, note_labels, value_term};
use crate::refusal::CsvRefusal;
use crate::rows::bad_cell;
use cq_base::{Hashing, Source};
use cq_theory::{EntTerm, Equation, Path, Schema, TypeTerm, Typeside, Value};
use std::alloc::{AllocError, Global};

/// What cells are read over: the files of the entities with their columns and the generators of their first records,
/// the generator of the first label, and how many labels there may be; none are added where all labels are given.
#[derive(Clone, Copy)]
pub struct Context<'a> {
    pub alloc: Global,
    pub schema: &'a Schema,
    pub files: &'a [EntityFile],
    pub columns: &'a [Vec<Column>],
    pub starts: &'a [u32],
    pub first: u32,
    pub room: Option<u32>,
}

/// The labels and the equations that were read, and the file that is read, in whose memory texts of constants stand.
pub struct Made {
    pub labels: Labels,
    pub equations: Vec<Equation>,
    pub source: Source,
}

impl Drop for Made {
    fn drop(self) {
        let Self {
            labels: _,
            equations: _,
            source: _,
        } = self;
    }
}

impl Made {
    /// Nothing that was read, with room for the equations, and a table of labels that hashes by this key.
    pub fn new(context: &Context, hashing: Hashing) -> Result<Made, AllocError>
        ensures labels { IfOk result (λ made. made.labels ≡ []) }
        ensures equations { IfOk result (λ made. made.equations.items ≡ []) }
    {
        let source = Source::new(context.alloc, &[])?;
        Ok(Made {
            labels: Labels::new(context.alloc, hashing),
            equations: empty_equations(context),
            source,
        })
    }

    /// The labels and the equations.
    pub fn into_parts(self) -> (Labels, Vec<Equation>)
        ensures labels { result.0 ≡ self.labels }
        ensures equations { result.1.items ≡ self.equations.items }
    {
        let Self {
            labels,
            equations,
            source: _,
        } = self;
        (labels, equations)
    }
}

/// A field with its place and the generator of its record, and how many bytes the file has from its content on.
#[derive(Clone, Copy)]
pub struct Cell<'a> {
    pub file: &'a str,
    pub row_number: u32,
    pub column_number: u32,
    pub generator: u32,
    pub column: Column,
    pub field: &'a [u8],
    pub rest: usize,
}

fn wrong(context: &Context, cell: &Cell) -> CsvRefusal
    ensures { Tells result (Some (BadCellFault cell.now.file.now cell.now.row_number cell.now.column_number)) }
{
    bad_cell(
        context.alloc,
        cell.file,
        cell.row_number,
        cell.column_number,
    )
}

fn no_such_id(context: &Context, cell: &Cell) -> CsvRefusal
    ensures { Tells result (Some (NoSuchIdFault cell.now.file.now cell.now.row_number cell.now.column_number)) }
{
    match String::from_str(context.alloc, cell.file) {
        Ok(file) => CsvRefusal::NoSuchId(file, cell.row_number, cell.column_number),
        Err(_) => CsvRefusal::Memory,
    }
}

/// A generator as a term.
fn generator_term(generator: u32) -> EntTerm
    ensures { result ≡ record { generator = generator; path = [] } }
{
    EntTerm {
        generator,
        path: Path::empty(),
    }
}

fn key_term(alloc: Global, generator: u32, key: u32) -> Result<EntTerm, AllocError>
    ensures { IfOk result (λ term. term ≡ record { generator = generator; path = key ∷ [] }) }
{
    Ok(EntTerm {
        generator,
        path: Path::from_slice(alloc, &[key])?,
    })
}

/// The generator of the record of an entity with this id.
fn find_record(context: &Context, target: u32, id: &[u8]) -> Result<Option<u32>, AllocError>
    requires context { IsContext context.now }
    requires target { target < length context.now.schema.now.entities }
    ensures { IfOk result (λ found. found ≡ option_map (λ row. start_of (sheets_in context.now) target + row)
        (row_with_id (sheets_in context.now) target id.now)) }
{
    let id = Id::new(context.alloc, id)?;
    match context.files[target as usize].ids.find(&id) {
        Some(row) => Ok(Some(context.starts[target as usize] + row)),
        None => Ok(None),
    }
}

/// Appends the equation of a foreign key's value.
fn push_reference(
    alloc: Global,
    generator: u32,
    key: u32,
    value: u32,
    equations: &mut Vec<Equation>,
) -> Result<(), AllocError>
    ensures { OnOk result (equations.new.items ≡ equations.old.items
        ++ equation.Ent (record { generator = generator; path = key ∷ [] })
        (record { generator = value; path = [] }) ∷ []) }
{
    let left = key_term(alloc, generator, key)?;
    let right = generator_term(value);
    equations.push(Equation::Ent(left, right))?;
    Ok(())
}

/// Reads a cell of a foreign key.
fn read_key(
    context: &Context,
    cell: &Cell,
    key: u32,
    target: u32,
    made: &mut Made,
) -> Result<(), CsvRefusal>
    requires context { IsContext context.now }
    requires column { cell.now.column ≡ Column.Key key target }
    requires target { target < length context.now.schema.now.entities }
    requires room { context.now.first + length made.old.labels ≤ 16000000 }
    ensures passed { OnOk result (ReadsCell context.now made.old made.new (shown_cell cell.now)) }
    ensures room { OnOk result (context.now.first + length made.new.labels ≤ 16000000) }
    ensures refused { IfErr result (λ r. Tells r (fault_in context.now made.old (shown_cell cell.now))) }
{
    if cell.field.is_empty() {
        return Ok(());
    }
    let Some(generator) = find_record(context, target, cell.field)? else {
        return Err(no_such_id(context, cell));
    };
    push_reference(
        context.alloc,
        cell.generator,
        key,
        generator,
        &mut made.equations,
    )?;
    Ok(())
}

/// Appends the equation of an attribute's value.
fn push_value(
    context: &Context,
    cell: &Cell,
    attribute: u32,
    value: &Value,
    made: &mut Made,
) -> Result<(), AllocError>
    requires { context.now.first + length made.old.labels ≤ 16000000 }
    ensures labels { OnOk result (made.new.labels ≡ made.old.labels) }
    ensures equations { OnOk result (made.new.equations.items ≡ made.old.equations.items
        ++ content_equations (sheets_in context.now) context.now.first made.old.labels (shown_cell cell.now) attribute
        (content.Means value.now)) }
{
    let left = TypeTerm::Att(attribute, generator_term(cell.generator));
    let right = value_term(context.alloc, context.first, &made.labels, value)?;
    made.equations.push(Equation::Typ(left, right))?;
    Ok(())
}

/// Notes the labels in a value.
fn note_value(
    context: &Context,
    typeside: &Typeside,
    cell: &Cell,
    sort: u32,
    value: &Value,
    labels: &mut Labels,
) -> Result<(), CsvRefusal>
    ensures passed { OnOk result (uses_trouble context.now.room labels.old
        (uses_in typeside.now value.now sort) ≡ None) }
    ensures labels { OnOk result (labels.new ≡ with_uses labels.old (uses_in typeside.now value.now sort)) }
    ensures refused { IfErr result (λ r. Tells r (trouble_fault (shown_cell cell.now)
        (uses_trouble context.now.room labels.old (uses_in typeside.now value.now sort)))) }
{
    match note_labels(typeside, context.room, value, sort, labels)? {
        None => Ok(()),
        Some(Trouble::Wrong) => Err(wrong(context, cell)),
        Some(Trouble::Full) => Err(CsvRefusal::TooLarge),
    }
}

/// Reads a value in a cell of an attribute.
fn read_value(
    context: &Context,
    cell: &Cell,
    attribute: u32,
    sort: u32,
    value: &Value,
    made: &mut Made,
) -> Result<(), CsvRefusal>
    requires context { IsContext context.now }
    requires column { cell.now.column ≡ Column.Attribute attribute sort }
    requires content { content_of (typeside_in context.now) sort cell.now.field.now ≡ content.Means value.now }
    requires room { context.now.first + length made.old.labels ≤ 16000000 }
    ensures passed { OnOk result (ReadsCell context.now made.old made.new (shown_cell cell.now)) }
    ensures room { OnOk result (context.now.first + length made.new.labels ≤ 16000000) }
    ensures refused { IfErr result (λ r. Tells r (fault_in context.now made.old (shown_cell cell.now))) }
{
    let schema: &Schema = context.schema;
    let typeside: &Typeside = &schema.typeside;
    let noted = note_value(context, typeside, cell, sort, value, &mut made.labels);
    if let Err(refusal) = noted {
        return Err(refusal);
    }
    push_value(context, cell, attribute, value, made)?;
    Ok(())
}

/// Reads a cell of an attribute.
fn read_attribute(
    context: &Context,
    cell: &Cell,
    attribute: u32,
    sort: u32,
    made: &mut Made,
) -> Result<(), CsvRefusal>
    requires context { IsContext context.now }
    requires column { cell.now.column ≡ Column.Attribute attribute sort }
    requires room { context.now.first + length made.old.labels ≤ 16000000 }
    ensures passed { OnOk result (ReadsCell context.now made.old made.new (shown_cell cell.now)) }
    ensures room { OnOk result (context.now.first + length made.new.labels ≤ 16000000) }
    ensures refused { IfErr result (λ r. Tells r (fault_in context.now made.old (shown_cell cell.now))) }
{
    let schema: &Schema = context.schema;
    let typeside: &Typeside = &schema.typeside;
    let source = &mut made.source;
    match read_content(context.alloc, source, typeside, sort, cell.rest, cell.field)? {
        Content::Blank => Ok(()),
        Content::Wrong => Err(wrong(context, cell)),
        Content::Means(value) => read_value(context, cell, attribute, sort, &value, made),
    }
}

/// Reads a cell.
pub fn read_cell(context: &Context, cell: &Cell, made: &mut Made) -> Result<(), CsvRefusal>
    requires context { IsContext context.now }
    requires column { IsColumn context.now.schema.now cell.now.column }
    requires room { context.now.first + length made.old.labels ≤ 16000000 }
    ensures passed { OnOk result (ReadsCell context.now made.old made.new (shown_cell cell.now)) }
    ensures room { OnOk result (context.now.first + length made.new.labels ≤ 16000000) }
    ensures refused { IfErr result (λ r. Tells r (fault_in context.now made.old (shown_cell cell.now))) }
{
    match cell.column {
        Column::Attribute(attribute, sort) => read_attribute(context, cell, attribute, sort, made),
        Column::Key(key, target) => read_key(context, cell, key, target, made),
    }
}
