//! Values as terms, in which nulls stand as generators.
ghost use Rattle.std.specs.Prelude.{◌≡◌, ◌+◌, ◌++◌, ◌<◌, ◌≤◌, ◌^◌, [], IfOk, OnOk, length, map, slice_index};
ghost use Rattle.std.specs.Prelude.{slice_index_or};
ghost use Rattle.std.specs.List.{range_with_len};
ghost use Rattle.cq_theory.specs.declared.constant.Con.TheVariants.{Named};
ghost use Rattle.cq_theory.specs.declared.value.Value.TheVariants as value_of;
ghost use Rattle.cq_terms.specs.ValueTerms.{value_term as term_of_value, entry_equation as equation_of_entry};

use cq_base::Seq;
use cq_theory::{Con, Entry, Equation, TypeTerm, Value};
use std::alloc::{AllocError, Global};

/// The generator of a null, of which there are `count`, from `first` on.
fn null_generator(first: u32, count: u32, label: u64) -> u32
    requires { first + count < 2 ^ 32 }
    ensures { result ≡ slice_index (range_with_len first count) label }
{
    if label < count as u64 {
        first + label as u32
    } else {
        0
    }
}

/// The value as a term.
pub fn value_term(
    alloc: Global,
    first: u32,
    count: u32,
    value: &Value,
) -> Result<TypeTerm, AllocError>
    requires { first + count < 2 ^ 32 }
    ensures { IfOk result (λ made. made ≡ term_of_value first count value.now) }
{
    match value {
        Value::Const(constant) => Ok(TypeTerm::Const(constant.clone()?)),
        Value::Null(label) => Ok(TypeTerm::Gen(null_generator(first, count, *label))),
        Value::Fun(function, args) => {
            let mut made = Vec::new(alloc);
            for arg in args.as_slice() {
                made.push(value_term(alloc, first, count, arg)?)?;
            }
            Ok(TypeTerm::Fun(*function, Seq::from_vec(made)))
        }
    }
}

fn value_terms(
    alloc: Global,
    first: u32,
    count: u32,
    values: &[Value],
) -> Result<Vec<TypeTerm>, AllocError>
    requires { first + count < 2 ^ 32 }
    ensures { IfOk result (λ made. made.items ≡ map (term_of_value first count) values.now) }
{
    let mut made = Vec::new(alloc);
    for value in values {
        made.push(value_term(alloc, first, count, value)?)?;
    }
    Ok(made)
}

/// The value in a column as a term.
pub fn cell_term(
    alloc: Global,
    first: u32,
    count: u32,
    column: &[Value],
    row: u32,
) -> Result<TypeTerm, AllocError>
    requires { first + count < 2 ^ 32 }
    ensures { IfOk result (λ made. made ≡ term_of_value first count
        (slice_index_or column.now row (value_of.Const (Named 0)))) }
{
    match column.get(row as usize) {
        Some(value) => value_term(alloc, first, count, value),
        None => value_term(alloc, first, count, &Value::Const(Con::Named(0))),
    }
}

fn entry_equation(
    alloc: Global,
    first: u32,
    count: u32,
    entry: &Entry,
) -> Result<Equation, AllocError>
    requires { first + count < 2 ^ 32 }
    ensures { IfOk result (λ made. made ≡ equation_of_entry first count entry.now) }
{
    let args = value_terms(alloc, first, count, entry.args.as_slice())?;
    let value = value_term(alloc, first, count, &entry.value)?;
    Ok(Equation::Typ(TypeTerm::Fun(entry.function, Seq::from_vec(args)), value))
}

/// Appends the equations of the entries.
pub fn push_entries(
    alloc: Global,
    first: u32,
    count: u32,
    entries: &[Entry],
    made: &mut Vec<Equation>,
) -> Result<(), AllocError>
    requires { first + count < 2 ^ 32 }
    ensures { OnOk result (made.new.items ≡ made.old.items ++ map (equation_of_entry first count) entries.now) }
{
    for entry in entries {
        made.push(entry_equation(alloc, first, count, entry)?)?;
    }
    Ok(())
}
