//! The records of entries.
ghost use Rattle.std.specs.Prelude.{ℕ, List, ◌≡◌, ◌+◌, ◌≤◌, ◌<◌, ◌^◌, ◌++◌, ◌∷◌, [], None, Some, true, false, length};
ghost use Rattle.std.specs.Prelude.{IfOk, OnOk, IfErr};
ghost use Rattle.std.specs.List.{flat_map};
ghost use Rattle.csv.specs.Records.{fields_of};
ghost use Rattle.cq_theory.specs.declared.presentation.Equation.TheVariants as equation;
ghost use Rattle.cq_values.specs.Built.{built_in};
ghost use Rattle.cq_values.specs.Reading.{value_in};
ghost use Rattle.cq_import.specs.Entries.{entries_fault, entry_equations, entry_fault, right_fault, sides_equations};
ghost use Rattle.cq_import.specs.Entries.{sides_fault, trouble_in, uses_fault};
ghost use Rattle.cq_import.specs.Faults.{Fault, Tells, BadCell as BadCellFault};
ghost use Rattle.cq_import.specs.Labels.{uses_in, uses_trouble, value_term as term_of_value};
ghost use Rattle.cq_import.specs.Records.{Record, Remains, field_in};
ghost use Rattle.cq_import.specs.Rows.{rows_of};

use crate::cells::Made;
use crate::labels::{Labels, note_labels, value_term};
use crate::lines::{is_entry, open_behind};
use crate::records::{field, next};
use crate::refusal::CsvRefusal;
use crate::rows::bad_cell;
use cq_theory::{Equation, Typeside, Value};
use cq_values::{read_built, read_value};
use csv::{ByteRecord, Reader};
use std::alloc::{AllocError, Global};

/// What the records are read over: the name of their file, and the generator of the first label.
#[derive(Clone, Copy)]
pub struct Over<'a> {
    pub alloc: Global,
    pub typeside: &'a Typeside,
    pub file: &'a str,
    pub first: u32,
}

/// Whether each label in a value at a place of this type is given, with the type of its place.
fn are_given(
    typeside: &Typeside,
    value: &Value,
    sort: u32,
    labels: &mut Labels,
) -> Result<bool, AllocError>
    ensures told { IfOk result (λ given. given ≡ true
        → uses_trouble None labels.old (uses_in typeside.now value.now sort) ≡ None) }
    ensures wrong { IfOk result (λ given. given ≡ false → (fault : Fault)
        → trouble_in (uses_trouble None labels.old (uses_in typeside.now value.now sort)) fault ≡ Some fault) }
    ensures kept { IfOk result (λ given. given ≡ true → labels.new ≡ labels.old) }
{
    match note_labels(typeside, None, value, sort, labels)? {
        None => Ok(true),
        Some(_) => Ok(false),
    }
}

fn wrong(over: &Over, number: u32, column: u32) -> CsvRefusal
    ensures { Tells result (Some (BadCellFault over.now.file.now number column)) }
{
    bad_cell(over.alloc, over.file, number, column)
}

/// The left side of an entry, with its type.
fn read_left(
    over: &Over,
    number: u32,
    fields: &ByteRecord,
    labels: &mut Labels,
) -> Result<(u32, Value), CsvRefusal>
    ensures read { IfOk result (λ left. built_in over.now.typeside.now (field_in (fields_of fields.now) 1)
        ≡ Some left) }
    ensures passed { IfOk result (λ left. uses_fault over.now.typeside.now over.now.file.now labels.old number 2 left.1
        left.0 ≡ None) }
    ensures kept { OnOk result (labels.new ≡ labels.old) }
    ensures refused { (right : List ℕ) → IfErr result
        (λ r. Tells r (sides_fault over.now.typeside.now over.now.file.now labels.old number
        (built_in over.now.typeside.now (field_in (fields_of fields.now) 1)) right)) }
{
    let Some((sort, value)) = read_built(over.alloc, over.typeside, field(fields, 1))? else {
        return Err(wrong(over, number, 2));
    };
    if are_given(over.typeside, &value, sort, labels)? {
        Ok((sort, value))
    } else {
        Err(wrong(over, number, 2))
    }
}

/// The right side of an entry, a value of this type.
fn read_right(
    over: &Over,
    number: u32,
    sort: u32,
    fields: &ByteRecord,
    labels: &mut Labels,
) -> Result<Value, CsvRefusal>
    ensures read { IfOk result (λ right. value_in over.now.typeside.now sort (field_in (fields_of fields.now) 2)
        ≡ Some right) }
    ensures passed { OnOk result (right_fault over.now.typeside.now over.now.file.now labels.old number sort
        (value_in over.now.typeside.now sort (field_in (fields_of fields.now) 2)) ≡ None) }
    ensures kept { OnOk result (labels.new ≡ labels.old) }
    ensures refused { IfErr result (λ r. Tells r (right_fault over.now.typeside.now over.now.file.now labels.old
        number sort (value_in over.now.typeside.now sort (field_in (fields_of fields.now) 2)))) }
{
    let Some(value) = read_value(over.alloc, over.typeside, sort, field(fields, 2))? else {
        return Err(wrong(over, number, 3));
    };
    if are_given(over.typeside, &value, sort, labels)? {
        Ok(value)
    } else {
        Err(wrong(over, number, 3))
    }
}

/// The sides of an entry, of which the left one, of this type, was read.
fn with_right(
    over: &Over,
    number: u32,
    fields: &ByteRecord,
    sort: u32,
    left: Value,
    labels: &mut Labels,
) -> Result<(Value, Value), CsvRefusal>
    requires left { built_in over.now.typeside.now (field_in (fields_of fields.now) 1) ≡ Some (sort, left) }
    requires given { uses_fault over.now.typeside.now over.now.file.now labels.old number 2 left sort ≡ None }
    ensures passed { OnOk result (sides_fault over.now.typeside.now over.now.file.now labels.old number
        (built_in over.now.typeside.now (field_in (fields_of fields.now) 1))
        (field_in (fields_of fields.now) 2) ≡ None) }
    ensures equations { IfOk result (λ sides. (first : ℕ) (given : List (ℕ × ℕ))
        → sides_equations over.now.typeside.now first given
        (built_in over.now.typeside.now (field_in (fields_of fields.now) 1)) (field_in (fields_of fields.now) 2)
        ≡ equation.Typ (term_of_value first given sides.0) (term_of_value first given sides.1) ∷ []) }
    ensures kept { OnOk result (labels.new ≡ labels.old) }
    ensures refused { IfErr result (λ r. Tells r (sides_fault over.now.typeside.now over.now.file.now labels.old
        number (built_in over.now.typeside.now (field_in (fields_of fields.now) 1))
        (field_in (fields_of fields.now) 2))) }
{
    match read_right(over, number, sort, fields, labels) {
        Ok(right) => Ok((left, right)),
        Err(refusal) => Err(refusal),
    }
}

/// The sides of an entry.
fn read_sides(
    over: &Over,
    number: u32,
    fields: &ByteRecord,
    labels: &mut Labels,
) -> Result<(Value, Value), CsvRefusal>
    ensures passed { OnOk result (sides_fault over.now.typeside.now over.now.file.now labels.old number
        (built_in over.now.typeside.now (field_in (fields_of fields.now) 1))
        (field_in (fields_of fields.now) 2) ≡ None) }
    ensures equations { IfOk result (λ sides. (first : ℕ) (given : List (ℕ × ℕ))
        → sides_equations over.now.typeside.now first given
        (built_in over.now.typeside.now (field_in (fields_of fields.now) 1)) (field_in (fields_of fields.now) 2)
        ≡ equation.Typ (term_of_value first given sides.0) (term_of_value first given sides.1) ∷ []) }
    ensures kept { OnOk result (labels.new ≡ labels.old) }
    ensures refused { IfErr result (λ r. Tells r (sides_fault over.now.typeside.now over.now.file.now labels.old
        number (built_in over.now.typeside.now (field_in (fields_of fields.now) 1))
        (field_in (fields_of fields.now) 2))) }
{
    match read_left(over, number, fields, labels) {
        Ok((sort, left)) => with_right(over, number, fields, sort, left, labels),
        Err(refusal) => Err(refusal),
    }
}

/// Appends the equation of an entry.
fn push_entry(over: &Over, left: &Value, right: &Value, made: &mut Made) -> Result<(), AllocError>
    requires { over.now.first + length made.old.labels ≤ 16000000 }
    ensures labels { OnOk result (made.new.labels ≡ made.old.labels) }
    ensures equations { OnOk result (made.new.equations.items ≡ made.old.equations.items
        ++ equation.Typ (term_of_value over.now.first made.old.labels left.now)
        (term_of_value over.now.first made.old.labels right.now) ∷ []) }
{
    let left = value_term(over.alloc, over.first, &made.labels, left)?;
    let right = value_term(over.alloc, over.first, &made.labels, right)?;
    made.equations.push(Equation::Typ(left, right))?;
    Ok(())
}

/// Reads the record of an entry.
fn read_entry(
    over: &Over,
    number: u32,
    fields: &ByteRecord,
    made: &mut Made,
) -> Result<(), CsvRefusal>
    requires { over.now.first + length made.old.labels ≤ 16000000 }
    ensures passed { OnOk result (sides_fault over.now.typeside.now over.now.file.now made.old.labels number
        (built_in over.now.typeside.now (field_in (fields_of fields.now) 1))
        (field_in (fields_of fields.now) 2) ≡ None) }
    ensures labels { OnOk result (made.new.labels ≡ made.old.labels) }
    ensures equations { OnOk result (made.new.equations.items ≡ made.old.equations.items
        ++ sides_equations over.now.typeside.now over.now.first made.old.labels
        (built_in over.now.typeside.now (field_in (fields_of fields.now) 1)) (field_in (fields_of fields.now) 2)) }
    ensures refused { IfErr result (λ r. Tells r (sides_fault over.now.typeside.now over.now.file.now made.old.labels
        number (built_in over.now.typeside.now (field_in (fields_of fields.now) 1))
        (field_in (fields_of fields.now) 2))) }
{
    match read_sides(over, number, fields, &mut made.labels) {
        Ok((left, right)) => Ok(push_entry(over, &left, &right, made)?),
        Err(refusal) => Err(refusal),
    }
}

/// Reads a record, if it is that of an entry.
fn read_line(
    over: &Over,
    number: u32,
    fields: &ByteRecord,
    made: &mut Made,
) -> Result<(), CsvRefusal>
    requires { over.now.first + length made.old.labels ≤ 16000000 }
    ensures passed { OnOk result (entry_fault over.now.typeside.now over.now.file.now made.old.labels number
        (fields_of fields.now) ≡ None) }
    ensures labels { OnOk result (made.new.labels ≡ made.old.labels) }
    ensures equations { OnOk result (made.new.equations.items ≡ made.old.equations.items
        ++ entry_equations over.now.typeside.now over.now.first made.old.labels (fields_of fields.now)) }
    ensures refused { IfErr result (λ r. Tells r (entry_fault over.now.typeside.now over.now.file.now made.old.labels
        number (fields_of fields.now))) }
{
    if is_entry(fields) {
        read_entry(over, number, fields, made)
    } else {
        Ok(())
    }
}

/// Reads the records of entries among those that are left.
fn read_lines(
    over: &Over,
    reader: &mut Reader<&[u8]>,
    fields: &mut ByteRecord,
    made: &mut Made,
) -> Result<(), CsvRefusal>
    requires { over.now.first + length made.old.labels ≤ 16000000 }
    ensures passed { (lines : List Record) → Remains reader.old lines
        → OnOk result (entries_fault over.now.typeside.now over.now.file.now made.old.labels 1 lines ≡ None) }
    ensures labels { OnOk result (made.new.labels ≡ made.old.labels) }
    ensures equations { (lines : List Record) → Remains reader.old lines
        → OnOk result (made.new.equations.items ≡ made.old.equations.items
        ++ flat_map (entry_equations over.now.typeside.now over.now.first made.old.labels) lines) }
    ensures refused { (lines : List Record) → Remains reader.old lines
        → IfErr result (λ r. Tells r (entries_fault over.now.typeside.now over.now.file.now
        made.old.labels 1 lines)) }
{
    for number in 1..u32::MAX {
        if !next(reader, fields)? {
            return Ok(());
        }
        if let Err(refusal) = read_line(over, number, fields, made) {
            return Err(refusal);
        }
    }
    Err(CsvRefusal::Memory)
}

/// Reads the records of entries, whose labels are given, and appends their equations.
pub fn read_entries(over: &Over, text: &[u8], made: &mut Made) -> Result<(), CsvRefusal>
    requires { over.now.first + length made.old.labels ≤ 16000000 }
    ensures passed { OnOk result (entries_fault over.now.typeside.now over.now.file.now made.old.labels 1
        (rows_of text.now) ≡ None) }
    ensures labels { OnOk result (made.new.labels ≡ made.old.labels) }
    ensures equations { OnOk result (made.new.equations.items ≡ made.old.equations.items
        ++ flat_map (entry_equations over.now.typeside.now over.now.first made.old.labels) (rows_of text.now)) }
    ensures refused { IfErr result (λ r. Tells r (entries_fault over.now.typeside.now over.now.file.now
        made.old.labels 1 (rows_of text.now))) }
{
    let Some(mut opened) = open_behind(over.alloc, text)? else {
        return Ok(());
    };
    let mut fields = ByteRecord::new(over.alloc);
    match read_lines(over, &mut opened.reader, &mut fields, made) {
        Ok(()) => Ok(()),
        Err(refusal) => Err(refusal),
    }
}
