//! Copies of the parts of a literal: of each its part, or its parts.
ghost use Rattle.std.specs.Prelude.{◌≡◌, ◌++◌, List, IfOk, OnOk, map};
ghost use Rattle.std.specs.List.{flat_map};

use cq_base::Seq;
use std::alloc::{AllocError, Global};

/// What is one part.
pub trait HasPart {
    type Part: Drop;

    ghost part_of: { Self → Self.Part };

    /// A copy of it.
    fn part(&self, alloc: Global) -> Result<Self::Part, AllocError>
        ensures { IfOk result (λ part. part ≡ part_of self.now) };
}

/// What has parts of its own.
pub trait HasParts {
    type Part: Drop;

    ghost parts_of: { Self → List Self.Part };

    /// Appends copies of them.
    fn push_parts(&self, alloc: Global, parts: &mut Vec<Self::Part>) -> Result<(), AllocError>
        ensures { OnOk result (parts.new.items ≡ parts.old.items ++ parts_of self.now) };
}

/// What has a part for each of some things.
pub trait Holds<I> {
    type Part: Drop;

    ghost part_for: { Self → I → Self.Part };

    /// A copy of the part for this thing.
    fn held_part(&self, alloc: Global, item: &I) -> Result<Self::Part, AllocError>
        ensures { IfOk result (λ part. part ≡ part_for self.now item.now) };
}

/// The part of each.
pub fn each_part<P: HasPart>(alloc: Global, items: &[P]) -> Result<Vec<P::Part>, AllocError>
    ensures { IfOk result (λ parts. parts.items ≡ map P.part_of items.now) }
{
    let mut parts = Vec::new(alloc);
    for item in items {
        parts.push(item.part(alloc)?)?;
    }
    Ok(parts)
}

/// The part of each, as a list.
pub fn parts_of_each<P: HasPart>(alloc: Global, items: &[P]) -> Result<Seq<P::Part>, AllocError>
    ensures { IfOk result (λ parts. parts ≡ map P.part_of items.now) }
{
    Ok(Seq::from_vec(each_part(alloc, items)?))
}

/// The parts of all.
pub fn parts_of_all<G: HasParts>(alloc: Global, groups: &[G]) -> Result<Seq<G::Part>, AllocError>
    ensures { IfOk result (λ parts. parts ≡ flat_map G.parts_of groups.now) }
{
    let mut parts = Vec::new(alloc);
    for group in groups {
        group.push_parts(alloc, &mut parts)?;
    }
    Ok(Seq::from_vec(parts))
}

/// The part for each.
pub fn push_held<I, H: Holds<I>>(
    alloc: Global,
    parts: &mut Vec<H::Part>,
    holder: &H,
    items: &[I],
) -> Result<(), AllocError>
    ensures { OnOk result (parts.new.items ≡ parts.old.items ++ map (H.part_for holder.now) items.now) }
{
    for item in items {
        parts.push(holder.held_part(alloc, item)?)?;
    }
    Ok(())
}
