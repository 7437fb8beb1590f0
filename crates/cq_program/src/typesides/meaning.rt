//! Typesides: what they stand for.
ghost use Rattle.std.specs.Prelude.{◌≡◌, IfOk};

use cq_theory::Typeside;
use std::alloc::{AllocError, Global};
use std::rc::Rc;

/// A typeside stands for itself.
pub fn share_typeside(alloc: Global, typeside: Typeside) -> Result<Rc<Typeside>, AllocError>
    ensures { IfOk result (λ shared. shared.value ≡ typeside) }
{
    let shared = Rc::new(alloc, typeside)?;
    Ok(shared)
}
