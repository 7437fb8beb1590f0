//! The values of functions at values.
ghost use Rattle.std.specs.Prelude.{◌≡◌, IfOk, find};
ghost use Rattle.cq_theory.specs.Tables.{same_plain as alike, all_same_plain as all_alike, is_for as is_entry_for};
ghost use Rattle.cq_theory.specs.Tables.{entry_or_built};

use crate::values::copied;
use cq_base::Seq;
use cq_theory::{Entry, Value};
use std::alloc::{AllocError, Global};

/// Whether both are the same constant or the same null.
fn same_plain(left: &Value, right: &Value) -> bool
    ensures { result ≡ alike left.now right.now }
{
    match left {
        Value::Const(constant) => match right {
            Value::Const(other) => constant == other,
            Value::Null(_) => false,
            Value::Fun(_, _) => false,
        },
        Value::Null(label) => match right {
            Value::Const(_) => false,
            Value::Null(other) => *label == *other,
            Value::Fun(_, _) => false,
        },
        Value::Fun(_, _) => false,
    }
}

/// Whether two lists have the same constants and nulls, and nothing else.
fn all_same_plain(left: &[Value], right: &[Value]) -> bool
    ensures { result ≡ all_alike left.now right.now }
{
    if left.len() != right.len() {
        return false;
    }
    for (place, value) in left.iter().enumerate() {
        if !same_plain(value, &right[place]) {
            return false;
        }
    }
    true
}

/// Whether an entry is that of a function at these arguments.
pub(crate) fn is_for(function: u32, args: &[Value], entry: &Entry) -> bool
    ensures { result ≡ is_entry_for function args.now entry.now }
{
    entry.function == function && all_same_plain(args, entry.args.as_slice())
}

/// The value of a function at values: that of the first entry for it, or the value that is built where there is none.
pub fn applied(
    alloc: Global,
    entries: &[Entry],
    function: u32,
    args: Vec<Value>,
) -> Result<Value, AllocError>
    ensures { IfOk result (λ value. value ≡ entry_or_built (find (is_entry_for function args.items) entries.now)
        function args.items) }
{
    for entry in entries {
        if is_for(function, args.as_slice(), entry) {
            return copied(alloc, &entry.value);
        }
    }
    Ok(Value::Fun(function, Seq::from_vec(args)))
}
