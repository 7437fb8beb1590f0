//! Copies of terms as they are written.
ghost use Rattle.std.specs.Prelude.{◌≡◌, IfOk};

use cq_base::{Raw, Seq};
use std::alloc::{AllocError, Global};

/// A copy of a term.
pub fn copy_raw(alloc: Global, raw: &Raw) -> Result<Raw, AllocError>
    ensures { IfOk result (λ copy. copy ≡ raw.now) }
{
    match raw {
        Raw::Word(name) => Ok(Raw::Word(name.clone()?)),
        Raw::Text(name) => Ok(Raw::Text(name.clone()?)),
        Raw::App(name, args) => {
            let mut copies = Vec::with_capacity(alloc, args.len())?;
            for arg in args.as_slice() {
                copies.push(copy_raw(alloc, arg)?)?;
            }
            Ok(Raw::App(name.clone()?, Seq::from_vec(copies)))
        }
    }
}
