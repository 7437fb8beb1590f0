//! The nearest of some names.
ghost use Rattle.std.specs.Prelude.{◌≡◌, ◌+◌, ◌≤◌, IfOk};
ghost use Rattle.cq_near.specs.Nearest.{IsAnswer, edits, most_edits};

use cq_base::Name;
use std::alloc::{AllocError, Global};
use strsim::osa_distance;

/// The number of the first of the names from which the least edits lead to this one, if these are few: at most one for
/// each three bytes of the name. An edit puts a character in, leaves one out, replaces one, or swaps two neighbours.
pub fn nearest(alloc: Global, name: &Name, names: &[Name]) -> Result<Option<usize>, AllocError>
    ensures { IfOk result (IsAnswer name.now names.now) }
{
    let mut found = None;
    let mut least = most_edits(name) + 1;
    for (number, other) in names.iter().enumerate() {
        let count = edits(alloc, name, other)?;
        if count < least {
            least = count;
            found = Some(number);
        }
    }
    Ok(found)
}

/// How many edits make one name of the other.
fn edits(alloc: Global, name: &Name, other: &Name) -> Result<usize, AllocError>
    ensures { IfOk result (λ count. count ≡ edits name.now other.now) }
{
    osa_distance(alloc, name.as_str(), other.as_str())
}

/// How many edits lead to a name that may have been meant.
fn most_edits(name: &Name) -> usize
    ensures value { result ≡ most_edits name.now }
    ensures small { result ≤ 85 }
{
    name.as_str().len() / 3
}
