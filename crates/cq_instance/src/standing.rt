//! What generators stand for.
ghost use Rattle.std.specs.Prelude.{◌≡◌, IfOk};
ghost use Rattle.cq_theory.specs.Tables.{row_in as row_meant, value_in as value_meant};
ghost use Rattle.cq_instance.specs.Standing.{meaning};

use crate::values::copied;
use cq_theory::{Con, Value};
use std::alloc::{AllocError, Global};

/// The row of its entity or the value for which a generator stands.
pub enum Standing {
    Row(u32),
    Value(Value),
}

impl Drop for Standing {
    fn drop(self) {
        match self {
            Self::Row(_) => (),
            Self::Value(_) => (),
        }
    }
}

/// The row for which a generator of an entity stands.
pub fn row_in(standing: &Standing) -> u32
    ensures { result ≡ row_meant (meaning standing.now) }
{
    match standing {
        Standing::Row(row) => *row,
        Standing::Value(_) => 0,
    }
}

/// The value for which a generator of a type stands.
pub fn value_in(alloc: Global, standing: &Standing) -> Result<Value, AllocError>
    ensures { IfOk result (λ value. value ≡ value_meant (meaning standing.now)) }
{
    match standing {
        Standing::Row(_) => Ok(Value::Const(Con::Named(0))),
        Standing::Value(value) => copied(alloc, value),
    }
}
