//! Rows and values as images.
ghost use Rattle.std.specs.Prelude.{ℕ, ◌≡◌, ◌+◌, ◌<◌, ◌^◌, Some, IfOk, length, sum};
ghost use Rattle.cq_theory.specs.Canonical.{value_term as term_of_value};
ghost use Rattle.cq_theory.specs.Tables.{count_of, value_type};
ghost use Rattle.cq_instance.specs.Given.{given};
ghost use Rattle.cq_instance.specs.InstanceData.{name_at};
ghost use Rattle.cq_instance.specs.declared.transform.Image.TheVariants as image;

use cq_instance::{Image, Instance};
use cq_terms::copy_entity_term;
use cq_terms::values::value_term;
use cq_theory::Value;
use std::alloc::{AllocError, Global};

/// A row by its name.
pub(crate) fn name_row(
    alloc: Global,
    to: &Instance,
    entity: u32,
    row: u32,
) -> Result<Image, AllocError>
    requires { row < count_of to.now.tables entity }
    ensures { IfOk result (λ made. made ≡ image.Row (name_at to.now.names entity row)) }
{
    to.is_instance();
    let name = copy_entity_term(alloc, to.name_of(entity, row))?;
    Ok(Image::Row(name))
}

/// How many nulls there are in an instance of tables.
fn null_count(to: &Instance) -> u32
    requires { to.now ≡ given to.now.schema to.now.tables }
    ensures { result ≡ length to.now.tables.algebra.nulls }
{
    to.is_instance();
    to.algebra().nulls.len() as u32
}

/// The first generator of a null in an instance of tables.
fn first_null(to: &Instance) -> u32
    requires { to.now ≡ given to.now.schema to.now.tables }
    ensures first { result ≡ sum to.now.tables.sheet.counts }
    ensures room { result + length to.now.tables.algebra.nulls < 2 ^ 32 }
{
    to.is_instance();
    let generators = to.presentation().generators.len() as u32;
    generators - null_count(to)
}

/// A value as a term over the generators of nulls, in an instance of tables.
pub(crate) fn spell_value(alloc: Global, to: &Instance, value: &Value) -> Result<Image, AllocError>
    requires given { to.now ≡ given to.now.schema to.now.tables }
    requires typed { (type : ℕ) × (value_type to.now.schema to.now.tables.algebra.nulls value.now ≡ Some type) }
    ensures { IfOk result (λ made. made ≡ image.Value (term_of_value to.now.schema to.now.tables value.now)) }
{
    let first = first_null(to);
    let count = null_count(to);
    let term = value_term(alloc, first, count, value)?;
    Ok(Image::Value(term))
}
