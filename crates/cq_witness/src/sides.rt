//! What the two sides of an equation lead to in an instance.
ghost use Rattle.std.specs.Prelude.{◌≡◌, ◌++◌, true, IfOk, MatchOption, OnOk};
ghost use Rattle.cq_explain.specs.Explanation.{ent_text};
ghost use Rattle.cq_theory.specs.Derivation.{left_of, right_of};
ghost use Rattle.cq_theory.specs.Sorts.{entity_of as entity_of_term, IsGround};
ghost use Rattle.cq_theory.specs.Tables.{value_of as value_meant};
ghost use Rattle.cq_theory.specs.ValueText.{is_named, value_text};
ghost use Rattle.cq_theory.specs.declared.term.Term.TheVariants.{Ent, Typ};
ghost use Rattle.cq_witness.specs.Sides.{names_text, row_name as name_of_row, two_values_text, TellsSides};

use crate::phrases::{Phrase, append_phrase};
use crate::terms::append_entity_term;
use cq_base::Name;
use cq_instance::Instance;
use cq_steps::side::Side;
use cq_steps::sorts::{entity_of, is_ground};
use cq_terms::is_same_value;
use cq_theory::value_text::push_value;
use cq_theory::{EntTerm, Equation, Schema, TypeTerm, Value};
use std::alloc::{AllocError, Global};

/// The entity of a term over the instance's presentation.
fn entity_in(instance: &Instance, term: &EntTerm) -> Option<u32>
    ensures { result ≡ entity_of_term instance.now.schema instance.now.presentation.generators term.now }
{
    let schema: &Schema = instance.schema();
    entity_of(schema, instance.presentation().generators.as_slice(), term)
}

/// The least name of the row to which a term leads. None exactly where it is no term over the instance's presentation.
fn row_name<'a>(instance: &'a Instance, term: &EntTerm) -> Option<&'a EntTerm>
    ensures { MatchOption result (IsGround instance.now.schema instance.now.presentation (Ent term.now) → ⊥)
        (λ name. IsGround instance.now.schema instance.now.presentation (Ent term.now)
        × (name.now ≡ name_of_row instance.now term.now)) }
{
    instance.is_instance();
    let Some(entity) = entity_in(instance, term) else {
        return None;
    };
    let row = instance.row_of(term);
    Some(instance.name_of(entity, row))
}

/// Appends the name of a row.
fn append_name(out: &mut Vec<u8>, instance: &Instance, name: &EntTerm) -> Result<(), AllocError>
    ensures { OnOk result (out.new.items ≡ out.old.items
        ++ ent_text instance.now.schema instance.now.presentation name.now) }
{
    let schema = instance.schema();
    let presentation = instance.presentation();
    append_entity_term(out, schema, presentation, name)?;
    Ok(())
}

/// Appends two rows by their names.
fn append_names(
    out: &mut Vec<u8>,
    instance: &Instance,
    first: &EntTerm,
    second: &EntTerm,
) -> Result<(), AllocError>
    ensures { OnOk result (out.new.items ≡ out.old.items ++ names_text instance.now first.now second.now) }
{
    append_phrase(out, Phrase::TwoRows)?;
    append_name(out, instance, first)?;
    append_phrase(out, Phrase::And)?;
    append_name(out, instance, second)?;
    append_phrase(out, Phrase::LineEnd)?;
    Ok(())
}

/// Appends the two rows to which two terms lead, where they are two.
fn append_rows(
    out: &mut Vec<u8>,
    instance: &Instance,
    left: &EntTerm,
    right: &EntTerm,
) -> Result<(), AllocError>
    ensures { OnOk result (TellsSides instance.now (Ent left.now) (Ent right.now) out.old.items out.new.items) }
{
    let Some(first) = row_name(instance, left) else {
        return Ok(());
    };
    let Some(second) = row_name(instance, right) else {
        return Ok(());
    };
    if instance.row_of(left) == instance.row_of(right) {
        return Ok(());
    }
    append_names(out, instance, first, second)?;
    Ok(())
}

/// The value of a term. None exactly where it is no term over the instance's presentation.
fn value_in(
    alloc: Global,
    instance: &Instance,
    term: &TypeTerm,
) -> Result<Option<Value>, AllocError>
    ensures { IfOk result (λ found. MatchOption found
        (IsGround instance.now.schema instance.now.presentation (Typ term.now) → ⊥)
        (λ value. IsGround instance.now.schema instance.now.presentation (Typ term.now)
        × (value ≡ value_meant instance.now.tables instance.now.assignment term.now))) }
{
    if !is_ground(instance.schema(), instance.presentation(), Side::Typ(term)) {
        return Ok(None);
    }
    let value = instance.value_of(alloc, term)?;
    Ok(Some(value))
}

/// Appends the text of a value.
fn append_value(out: &mut Vec<u8>, instance: &Instance, value: &Value) -> Result<(), AllocError>
    requires { is_named instance.now.schema.typeside value.now ≡ true }
    ensures { OnOk result (out.new.items ≡ out.old.items ++ value_text instance.now.schema.typeside value.now) }
{
    let schema = instance.schema();
    push_value(&schema.typeside, value, out)?;
    Ok(())
}

/// Appends two values.
fn append_texts(
    out: &mut Vec<u8>,
    instance: &Instance,
    first: &Value,
    second: &Value,
) -> Result<(), AllocError>
    requires first { is_named instance.now.schema.typeside first.now ≡ true }
    requires second { is_named instance.now.schema.typeside second.now ≡ true }
    ensures { OnOk result (out.new.items ≡ out.old.items
        ++ two_values_text instance.now first.now second.now) }
{
    append_phrase(out, Phrase::TwoValues)?;
    append_value(out, instance, first)?;
    append_phrase(out, Phrase::And)?;
    append_value(out, instance, second)?;
    append_phrase(out, Phrase::LineEnd)?;
    Ok(())
}

/// Appends the values of two terms, where they are two.
fn append_values(
    alloc: Global,
    out: &mut Vec<u8>,
    instance: &Instance,
    left: &TypeTerm,
    right: &TypeTerm,
) -> Result<(), AllocError>
    ensures { OnOk result (TellsSides instance.now (Typ left.now) (Typ right.now) out.old.items out.new.items) }
{
    instance.is_instance();
    let Some(first) = value_in(alloc, instance, left)? else {
        return Ok(());
    };
    let Some(second) = value_in(alloc, instance, right)? else {
        return Ok(());
    };
    if is_same_value(&first, &second) {
        return Ok(());
    }
    append_texts(out, instance, &first, &second)?;
    Ok(())
}

/// Appends the two rows, by their least names, or the two values to which the sides of an equation lead in an instance.
/// Nothing is appended where a side is no term over the instance's presentation, and where both lead to one.
pub fn append_sides(
    alloc: Global,
    out: &mut Vec<u8>,
    instance: &Instance,
    equation: &Equation,
) -> Result<(), AllocError>
    ensures { OnOk result (TellsSides instance.now (left_of equation.now) (right_of equation.now)
        out.old.items out.new.items) }
{
    match equation {
        Equation::Ent(left, right) => append_rows(out, instance, left, right),
        Equation::Typ(left, right) => append_values(alloc, out, instance, left, right),
    }
}
