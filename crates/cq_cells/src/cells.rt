//! The cells of the files of entities.
ghost use Rattle.std.specs.Prelude.{ℕ, List, ◌≡◌, ◌<◌, ◌∷◌, [], None, Some, true, false, OnOk, IfOk, is_some, length};
ghost use Rattle.cq_import.specs.declared.columns.Column.TheVariants as Column;
ghost use Rattle.cq_import.specs.declared.content.Content.TheVariants as Content;
ghost use Rattle.cq_import.specs.Cells.{content_of, row_with_id, trouble_fault};
ghost use Rattle.cq_import.specs.Context.{IsColumn};
ghost use Rattle.cq_cells.specs.Found.{found_in};
ghost use Rattle.cq_cells.specs.Passes.{IsOver, Passes, TellsNoMore, cell_shown, sheets_over, typeside_over};
ghost use Rattle.cq_cells.specs.declared.cells.Over.{Over as AnyOver};
ghost use Rattle.cq_cells.specs.Shown.{Lists, told, trouble_kind};

use crate::faults::{Fault, Faults, Kind};
use crate::index::Indexed;
use crate::readings::Reading;
use cq_base::Source;
use cq_import::Id;
use cq_import::columns::Column;
use cq_import::content::{Content, read_content};
use cq_import::labels::{Labels, Trouble, note_labels};
use cq_theory::{Schema, Typeside, Value};
use std::alloc::{AllocError, Global};

/// What cells are tested over: what was read of the entities' files, their ids and their columns, and how many labels
/// there may be.
#[derive(Clone, Copy)]
pub struct Over<'a> {
    pub alloc: Global,
    pub schema: &'a Schema,
    pub readings: &'a [Reading],
    pub indexed: &'a [Indexed],
    pub columns: &'a [Vec<Column>],
    pub most: u32,
}

/// What has been found, the labels that have appeared, and whether none of them was wrong in its place.
#[derive(Drop)]
pub struct Pass {
    pub faults: Faults,
    pub labels: Labels,
    pub going: bool,
}

impl Pass {
    /// Whether nothing more is listed, whatever cells are read too.
    pub fn is_done(&self) -> bool
        ensures { (over : AnyOver) → result ≡ true → TellsNoMore over self.now }
    {
        if !self.going {
            return true;
        }
        self.faults.is_full()
    }
}

/// A field with its place.
#[derive(Clone, Copy)]
pub struct Cell<'a> {
    pub file: u32,
    pub number: u32,
    pub place: u32,
    pub column: Column,
    pub field: &'a [u8],
}

/// Adds the fault of a cell.
fn add_fault(cell: &Cell, kind: Kind, pass: &mut Pass) -> Result<(), AllocError>
    ensures listed { OnOk result (Lists pass.old.faults pass.new.faults
        (λ name. found_in (Some (told kind (name cell.now.file) cell.now.number cell.now.place)) None)) }
    ensures labels { pass.new.labels ≡ pass.old.labels }
    ensures going { pass.new.going ≡ pass.old.going }
{
    pass.faults.add(Some(Fault {
        kind,
        file: cell.file,
        number: cell.number,
        column: cell.place,
        before: None,
    }))
}

/// Whether a record of an entity has this id.
fn has_record(over: &Over, target: u32, id: &[u8]) -> Result<bool, AllocError>
    requires over { IsOver over.now }
    requires target { target < length over.now.schema.now.entities }
    ensures { IfOk result (λ found. (name : ℕ → List ℕ)
        → found ≡ is_some (row_with_id (sheets_over over.now name) target id.now)) }
{
    let id = Id::new(over.alloc, id)?;
    Ok(over.indexed[target as usize].places.find(&id).is_some())
}

/// Tests a cell of a foreign key.
fn read_key(over: &Over, cell: &Cell, target: u32, pass: &mut Pass) -> Result<(), AllocError>
    requires over { IsOver over.now }
    requires column { (key : ℕ) × (cell.now.column ≡ Column.Key key target) }
    requires target { target < length over.now.schema.now.entities }
    requires going { pass.old.going ≡ true }
    ensures { (generator : ℕ) → OnOk result (Passes over.now pass.old pass.new
        (λ name. cell_shown generator cell.now name ∷ [])) }
{
    if cell.field.is_empty() {
        return Ok(());
    }
    if has_record(over, target, cell.field)? {
        return Ok(());
    }
    add_fault(cell, Kind::NoSuchId, pass)
}

/// Notes the labels in the value of a cell.
fn read_value(
    over: &Over,
    cell: &Cell,
    sort: u32,
    value: &Value,
    pass: &mut Pass,
) -> Result<(), AllocError>
    requires going { pass.old.going ≡ true }
    requires column { (attribute : ℕ) × (cell.now.column ≡ Column.Attribute attribute sort) }
    requires content { content_of (typeside_over over.now) sort cell.now.field.now ≡ Content.Means value.now }
    ensures { (generator : ℕ) → OnOk result (Passes over.now pass.old pass.new
        (λ name. cell_shown generator cell.now name ∷ [])) }
{
    let schema: &Schema = over.schema;
    let typeside: &Typeside = &schema.typeside;
    match note_labels(typeside, Some(over.most), value, sort, &mut pass.labels)? {
        None => Ok(()),
        Some(trouble) => stop(cell, trouble, pass),
    }
}

fn kind_of(trouble: Trouble) -> Kind
    ensures { result ≡ trouble_kind trouble }
{
    match trouble {
        Trouble::Wrong => Kind::BadCell,
        Trouble::Full => Kind::TooLarge,
    }
}

/// Tells what is wrong with a label, and that nothing behind it is told.
fn stop(cell: &Cell, trouble: Trouble, pass: &mut Pass) -> Result<(), AllocError>
    ensures stops { OnOk result (pass.new.going ≡ false) }
    ensures listed { (generator : ℕ) → OnOk result (Lists pass.old.faults pass.new.faults
        (λ name. found_in (trouble_fault (cell_shown generator cell.now name) (Some trouble)) None)) }
{
    pass.going = false;
    add_fault(cell, kind_of(trouble), pass)
}

/// What a field means in the column of an attribute of this type. Its text stands in memory of its own.
fn content_in(
    alloc: Global,
    typeside: &Typeside,
    sort: u32,
    field: &[u8],
) -> Result<Content, AllocError>
    ensures { IfOk result (λ content. content ≡ content_of typeside.now sort field.now) }
{
    let mut source = Source::new(alloc, field)?;
    read_content(alloc, &mut source, typeside, sort, field.len(), field)
}

/// Tests a cell of an attribute.
fn read_attribute(over: &Over, cell: &Cell, sort: u32, pass: &mut Pass) -> Result<(), AllocError>
    requires going { pass.old.going ≡ true }
    requires column { (attribute : ℕ) × (cell.now.column ≡ Column.Attribute attribute sort) }
    ensures { (generator : ℕ) → OnOk result (Passes over.now pass.old pass.new
        (λ name. cell_shown generator cell.now name ∷ [])) }
{
    let schema: &Schema = over.schema;
    let typeside: &Typeside = &schema.typeside;
    match content_in(over.alloc, typeside, sort, cell.field)? {
        Content::Blank => Ok(()),
        Content::Wrong => add_fault(cell, Kind::BadCell, pass),
        Content::Means(value) => read_value(over, cell, sort, &value, pass),
    }
}

/// Tests a cell.
pub fn read_cell(over: &Over, cell: &Cell, pass: &mut Pass) -> Result<(), AllocError>
    requires over { IsOver over.now }
    requires column { IsColumn over.now.schema.now cell.now.column }
    ensures { (generator : ℕ) → OnOk result (Passes over.now pass.old pass.new
        (λ name. cell_shown generator cell.now name ∷ [])) }
{
    if !pass.going {
        return Ok(());
    }
    match cell.column {
        Column::Attribute(_, sort) => read_attribute(over, cell, sort, pass),
        Column::Key(_, target) => read_key(over, cell, target, pass),
    }
}
