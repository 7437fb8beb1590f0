//! Copies of values, entries and algebras, and the test of values for equality.
ghost use Rattle.std.specs.Prelude.{◌≡◌, IfOk};
ghost use Rattle.cq_instance.specs.SameValue.{same_value};

use cq_base::Seq;
use cq_terms::is_same_value;
use cq_theory::{Algebra, Entry, Value};
use std::alloc::{AllocError, Global};

/// The same value.
pub fn copied(alloc: Global, value: &Value) -> Result<Value, AllocError>
    ensures { IfOk result (λ made. made ≡ value.now) }
{
    match value {
        Value::Const(constant) => Ok(Value::Const(constant.clone()?)),
        Value::Null(label) => Ok(Value::Null(*label)),
        Value::Fun(function, args) => {
            let mut made = Vec::new(alloc);
            for arg in args.as_slice() {
                made.push(copied(alloc, arg)?)?;
            }
            Ok(Value::Fun(*function, Seq::from_vec(made)))
        }
    }
}

/// The same values.
fn copied_values(alloc: Global, values: &[Value]) -> Result<Seq<Value>, AllocError>
    ensures { IfOk result (λ made. made ≡ values.now) }
{
    let mut made = Vec::new(alloc);
    for value in values {
        made.push(copied(alloc, value)?)?;
    }
    Ok(Seq::from_vec(made))
}

/// The same entry.
fn copied_entry(alloc: Global, entry: &Entry) -> Result<Entry, AllocError>
    ensures { IfOk result (λ made. made ≡ entry.now) }
{
    let args = copied_values(alloc, entry.args.as_slice())?;
    let value = copied(alloc, &entry.value)?;
    Ok(Entry {
        function: entry.function,
        args,
        value,
    })
}

/// The same entries.
pub fn copied_entries(alloc: Global, entries: &[Entry]) -> Result<Seq<Entry>, AllocError>
    ensures { IfOk result (λ made. made ≡ entries.now) }
{
    let mut made = Vec::new(alloc);
    for entry in entries {
        made.push(copied_entry(alloc, entry)?)?;
    }
    Ok(Seq::from_vec(made))
}

/// The same nulls and entries.
pub fn copied_algebra(alloc: Global, algebra: &Algebra) -> Result<Algebra, AllocError>
    ensures { IfOk result (λ made. made ≡ algebra.now) }
{
    let nulls = Vec::from_slice(alloc, algebra.nulls.as_slice())?;
    let entries = copied_entries(alloc, algebra.entries.as_slice())?;
    Ok(Algebra {
        nulls: Seq::from_vec(nulls),
        entries,
    })
}

/// Whether both are the same value, as a test that definitions cite.
pub(crate) fn equals(left: &Value, right: &Value) -> bool
    ensures { result ≡ same_value left.now right.now }
{
    is_same_value(left, right)
}
