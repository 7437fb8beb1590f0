//! Where equations grouped by when they are tested.
ghost use Rattle.std.specs.Prelude.{◌≡◌, ◌<◌, map, All, IfOk};
ghost use Rattle.cq_theory.specs.Canonical.{below};
ghost use Rattle.cq_theory.specs.Groups.{positions};

use cq_base::Seq;
use cq_theory::{empty_groups, sealed};
use std::alloc::{AllocError, Global};

/// For each number below `count` the places at which it stands in the list, in order.
pub(crate) fn grouped(
    alloc: Global,
    count: usize,
    members: &[usize],
) -> Result<Seq<Seq<usize>>, AllocError>
    requires within { All (λ member. member < count) members.now }
    ensures { IfOk result (λ groups. groups ≡ map (positions members.now) (below count)) }
{
    let mut groups = empty_groups(alloc, count)?;
    for (number, member) in members.iter().enumerate() {
        groups[*member].push(number)?;
    }
    sealed(alloc, groups)
}
