//! Lists that contracts see with the last item first.
ghost use Rattle.std.specs.Prelude.{◌≡◌, ◌∷◌, IfOk, reverse};
ghost use Rattle.cq_proof.specs.Drafts.{top as top_of, under as under_of};

use std::alloc::AllocError;

/// One more item.
pub(crate) fn put<T: Drop>(stack: &mut Vec<T>, item: T) -> Result<(), AllocError>
    ensures { IfOk result (λ _. reverse stack.new.items ≡ item ∷ reverse stack.old.items) }
{
    stack.push(item)?;
    Ok(())
}

/// The last item, which is taken off, or `otherwise` where there is none.
pub(crate) fn taken<T: Drop>(stack: &mut Vec<T>, otherwise: T) -> T
    ensures top { result ≡ top_of otherwise (reverse stack.old.items) }
    ensures under { reverse stack.new.items ≡ under_of (reverse stack.old.items) }
{
    match stack.pop() {
        Some(item) => item,
        None => otherwise,
    }
}
