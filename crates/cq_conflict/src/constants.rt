//! Constants by their printed texts.
ghost use Rattle.std.specs.Prelude.{◌≡◌, Some, IfOk, IfSome};
ghost use Rattle.cq_theory.specs.Typeside.{constant_type};
ghost use Rattle.cq_theory.specs.ValueText.{con_text};

use cq_theory::{Con, Typeside, Value};
use cq_values::read_value;
use std::alloc::{AllocError, Global};

/// A constant with the number of its type.
#[derive(Drop)]
pub struct TypedConstant {
    pub constant: Con,
    pub sort: u32,
}

/// The constant of this type that is printed so.
fn constant_of_type(
    alloc: Global,
    typeside: &Typeside,
    sort: u32,
    text: &[u8],
) -> Result<Option<TypedConstant>, AllocError>
    ensures printed { IfOk result (λ found. IfSome found (λ c. con_text typeside.now c.constant ≡ text.now)) }
    ensures typed { IfOk result (λ found. IfSome found (λ c. constant_type typeside.now c.constant ≡ Some c.sort)) }
{
    let Some(value) = read_value(alloc, typeside, sort, text)? else {
        return Ok(None);
    };
    match value {
        Value::Const(constant) => Ok(Some(TypedConstant { constant, sort })),
        Value::Null(_) => Ok(None),
        Value::Fun(_, _) => Ok(None),
    }
}

/// The constant that is printed so, with its type. Of `None` nothing is claimed.
pub fn constant_of_text(
    alloc: Global,
    typeside: &Typeside,
    text: &[u8],
) -> Result<Option<TypedConstant>, AllocError>
    ensures printed { IfOk result (λ found. IfSome found (λ c. con_text typeside.now c.constant ≡ text.now)) }
    ensures typed { IfOk result (λ found. IfSome found (λ c. constant_type typeside.now c.constant ≡ Some c.sort)) }
{
    for (sort, _name) in typeside.types.as_slice().iter().enumerate() {
        if let Some(found) = constant_of_type(alloc, typeside, sort as u32, text)? {
            return Ok(Some(found));
        }
    }
    Ok(None)
}
