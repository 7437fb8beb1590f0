//! Numbers grouped by what they belong to.
ghost use Rattle.std.specs.Prelude.{◌≡◌, ◌<◌, ◌≤◌, ◌^◌, map, length, All, IfOk};
ghost use Rattle.cq_theory.specs.Canonical.{below};
ghost use Rattle.cq_theory.specs.Groups.{positions};

use cq_base::Seq;
use cq_theory::{empty_groups, sealed};
use std::alloc::{AllocError, Global};

/// For each number below `count` the places at which it stands in the list, in order.
pub fn grouped(alloc: Global, count: usize, members: &[u32]) -> Result<Seq<Seq<u32>>, AllocError>
    requires within { All (λ member. member < count) members.now }
    requires numbers { length members.now ≤ 2 ^ 32 }
    ensures { IfOk result (λ groups. groups ≡ map (positions members.now) (below count)) }
{
    let mut groups = empty_groups(alloc, count)?;
    for (number, member) in members.iter().enumerate() {
        groups[*member as usize].push(number as u32)?;
    }
    sealed(alloc, groups)
}
