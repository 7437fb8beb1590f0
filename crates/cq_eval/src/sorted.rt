//! Answers that are found in another order of the variables, put back and sorted.
ghost use Rattle.std.specs.Prelude.{◌≡◌, IfOk, IsPermutation, IsSorted, map};
ghost use Rattle.std.specs.Ordering.{nat_cmp};
ghost use Rattle.std.specs.Cmp.Lexicographic.{slice_cmp};
ghost use Rattle.cq_eval.specs.Order.{picked as picked_numbers};

use crate::order::picked;
use crate::rows::Rows;
use std::alloc::{AllocError, Global};

/// Each list with the numbers that stand at these places.
fn put_back(alloc: Global, places: &[u32], found: Vec<Rows>) -> Result<Vec<Rows>, AllocError>
    ensures { IfOk result (λ made. made.items ≡ map (picked_numbers places.now) found.items) }
{
    let mut made = Vec::with_capacity(alloc, found.len())?;
    for rows in found {
        made.push(Rows::from_vec(picked(alloc, places, rows.as_slice())?))?;
    }
    Ok(made)
}

/// The lists with the numbers that stand at these places, in lexicographic order.
pub(crate) fn sorted_back(
    alloc: Global,
    places: &[u32],
    found: Vec<Rows>,
) -> Result<Vec<Rows>, AllocError>
    ensures shuffled { IfOk result (λ made. IsPermutation (map (picked_numbers places.now) found.items) made.items) }
    ensures rises { IfOk result (λ made. IsSorted (slice_cmp nat_cmp) made.items) }
{
    let mut made = put_back(alloc, places, found)?;
    made.sort_unstable();
    Ok(made)
}
