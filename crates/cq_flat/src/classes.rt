//! Classes of nodes, which are joined.
ghost use Rattle.std.specs.Prelude.{◌≡◌, ◌≢◌, ◌<◌, ◌^◌, ℕ, length, map, IfOk, OnOk, slice_index};
ghost use Rattle.std.specs.List.{range_with_len};
ghost use Rattle.cq_flat.specs.Closing.{Stales};
ghost use Rattle.cq_flat.specs.Partition.{AreRings, joined};

use crate::lists::Lists;
use std::alloc::{AllocError, Global};

/// Each node in a class of its own, by its own number: the classes, and the node that follows each
/// in the ring of its class.
pub fn singletons(alloc: Global, count: usize) -> Result<(Vec<u32>, Vec<u32>), AllocError>
    requires { count < 2 ^ 32 }
    ensures classes { IfOk result (λ made. made.0.items ≡ range_with_len 0 count) }
    ensures rings { IfOk result (λ made. AreRings made.0.items made.1.items) }
{
    let mut classes = Vec::with_capacity(alloc, count)?;
    let mut following = Vec::with_capacity(alloc, count)?;
    for node in 0..count {
        classes.push(node as u32)?;
        following.push(node as u32)?;
    }
    Ok((classes, following))
}

/// Puts the nodes of a class into another, going once round their ring. What uses one of them
/// becomes stale.
pub fn relabel(
    classes: &mut Vec<u32>,
    stale: &mut Vec<u64>,
    following: &[u32],
    uses: &Lists,
    from: u32,
    to: u32,
) -> Result<(), AllocError>
    requires rings { AreRings classes.old.items following.now }
    requires from { from < length classes.old.items }
    requires root { slice_index classes.old.items from ≡ from }
    requires differ { from ≢ to }
    ensures classes { OnOk result (classes.new.items ≡ map (joined from to) classes.old.items) }
    ensures stale { OnOk result (Stales classes.old.items uses.now from stale.old.items stale.new.items) }
{
    let mut node = from;
    while classes[node as usize] == from {
        classes[node as usize] = to;
        stale.extend_from_slice(uses.get(u64::from(node)))?;
        node = following[node as usize];
    }
    Ok(())
}

/// Whether one ring is no longer than another. Both are gone round at once until one is at its end,
/// so it takes time in the members of the shorter.
pub fn is_shorter(following: &[u32], left: u32, right: u32) -> bool
    requires following { (x : ℕ) → x < length following.now → slice_index following.now x < length following.now }
    requires left { left < length following.now }
    requires right { right < length following.now }
{
    let mut first = left;
    let mut second = right;
    for _i in 0..following.len() {
        first = following[first as usize];
        if first == left {
            return true;
        }
        second = following[second as usize];
        if second == right {
            return false;
        }
    }
    true
}
