//! Numbers grouped by what they belong to.
ghost use Rattle.std.specs.Prelude.{◌≡◌, ◌<◌, [], map, length, All, IfOk, slice_get};
ghost use Rattle.cq_theory.specs.Canonical.{below};
ghost use Rattle.cq_theory.specs.Groups.{positions, places, AreGroups};

use cq_base::Seq;
use std::alloc::{AllocError, Global};

/// For each owner the places at which it stands in a list, and for each place of the list how often its owner stands
/// before it.
pub struct Groups {
    pub groups: Seq<Seq<u32>>,
    pub places: Seq<u32>,
}

impl Drop for Groups {
    fn drop(self) {
        let Self {
            groups: _,
            places: _,
        } = self;
    }
}

impl Groups {
    /// The groups of a list of owners, each of which is below `count`. A place has 32 bits, so a list of 2^32 owners,
    /// which has 16 GiB, is want of memory.
    pub fn new(alloc: Global, count: usize, owners: &[u32]) -> Result<Groups, AllocError>
        requires { All (λ owner. owner < count) owners.now }
        ensures { IfOk result (λ made. AreGroups owners.now count made) }
    {
        if owners.len() > u32::MAX as usize {
            return Err(AllocError);
        }
        let mut groups = empty_groups(alloc, count)?;
        let mut places = Vec::new(alloc);
        for (number, owner) in owners.iter().enumerate() {
            let group = &mut groups[*owner as usize];
            places.push(group.len() as u32)?;
            group.push(number as u32)?;
        }
        Ok(Groups {
            groups: sealed(alloc, groups)?,
            places: Seq::from_vec(places),
        })
    }

    /// The places at which an owner stands.
    pub fn of(&self, owner: u32) -> &[u32]
        requires { owner < length self.now.groups }
        ensures { slice_get self.now.groups owner ≡ Some result.now }
    {
        self.groups.as_slice()[owner as usize].as_slice()
    }
}

/// That many empty lists.
pub fn empty_groups<T: Drop>(alloc: Global, count: usize) -> Result<Vec<Vec<T>>, AllocError>
    ensures { IfOk result (λ groups. map (λ group. group.items) groups.items ≡ map (λ _. []) (below count)) }
{
    let mut groups = Vec::new(alloc);
    for _number in 0..count {
        groups.push(Vec::new(alloc))?;
    }
    Ok(groups)
}

/// The same list, without the room that a list has which may still grow.
fn exact<T: Drop>(group: Vec<T>) -> Seq<T>
    ensures { result ≡ group.items }
{
    let mut group = group;
    group.shrink_to_fit();
    Seq::from_vec(group)
}

/// The same lists, each as a list of its own that takes no more memory than it needs.
pub fn sealed<T: Drop>(alloc: Global, groups: Vec<Vec<T>>) -> Result<Seq<Seq<T>>, AllocError>
    ensures { IfOk result (λ lists. lists ≡ map (λ group. group.items) groups.items) }
{
    let lists: Vec<Seq<T>> = groups.into_iter().map(|group| exact(group)).collect(alloc)?;
    Ok(Seq::from_vec(lists))
}
