//! The closure of equations on nodes.
ghost use Rattle.std.specs.Prelude.{◌≡◌, ◌≢◌, ◌<◌, ◌^◌, ◌↔◌, ℕ, length, Contains, IfOk, OnOk, IsFalse, slice_index};
ghost use Rattle.cq_flat.specs.Nodes.{HasEarlierArguments, AreSides};
ghost use Rattle.cq_flat.specs.Closing.{AreExact, Skips};
ghost use Rattle.cq_flat.specs.Partition.{Has};

use crate::classes::{is_shorter, relabel, singletons};
use crate::entering::{enter, enter_all};
use crate::key::Table;
use crate::lists::Lists;
use crate::node::Node;
use crate::uses::{add_functions, uses_of};
use cq_base::Hashing;
use std::alloc::{AllocError, Global};
use std::mem;

/// The classes so far, the node that follows each in the ring of its class, the functions that have
/// a node as an argument, the nodes by their keys, the pairs of nodes that are still to be joined,
/// and the functions whose arguments were joined since they were looked up.
pub struct Closing {
    classes: Vec<u32>,
    following: Vec<u32>,
    uses: Lists,
    table: Table,
    pending: Vec<(u64, u64)>,
    stale: Vec<u64>,
}

impl Drop for Closing {
    fn drop(self) {
        let Self {
            classes: _,
            following: _,
            uses: _,
            table: _,
            pending: _,
            stale: _,
        } = self;
    }
}

impl Closing {
    ghost use Rattle.cq_flat.specs.Partition.{AreRings};
    ghost use Rattle.cq_flat.specs.State.{AnyNode, IsEarlyConstant, IsAlone, IsClosing, EntersOne, Merges, Refreshes};
    ghost use Rattle.std.specs.Prelude.{◌⊎◌, []};

    fn into_classes(self) -> Vec<u32>
        ensures { result.items ≡ self.classes.items }
    {
        let Self {
            classes,
            following: _,
            uses: _,
            table: _,
            pending: _,
            stale: _,
        } = self;
        classes
    }

    // All constants were looked up, and all functions are stale.
    fn start(
        alloc: Global,
        hashing: Hashing,
        nodes: &[Node],
        equations: Vec<(u64, u64)>,
    ) -> Result<Closing, AllocError>
        requires few { length nodes.now < 2 ^ 32 }
        requires arguments { HasEarlierArguments nodes.now }
        requires sides { AreSides nodes.now equations.items }
        ensures { IfOk result (λ closing. IsClosing nodes.now equations.items AnyNode closing) }
    {
        let mut closing = Closing::of_constants(alloc, hashing, nodes, equations)?;
        closing.uses = uses_of(alloc, nodes)?;
        add_functions(&mut closing.stale, nodes)?;
        Ok(closing)
    }

    // Looks up the constants. After each of them a pair is joined, so that hardly more pairs ever
    // wait than there are equations, however often constants are repeated. Functions are not yet
    // known: they are looked up once most classes are joined.
    fn of_constants(
        alloc: Global,
        hashing: Hashing,
        nodes: &[Node],
        equations: Vec<(u64, u64)>,
    ) -> Result<Closing, AllocError>
        requires few { length nodes.now < 2 ^ 32 }
        requires arguments { HasEarlierArguments nodes.now }
        requires sides { AreSides nodes.now equations.items }
        ensures { IfOk result (λ closing. IsClosing nodes.now equations.items
            (IsEarlyConstant nodes.now (length nodes.now)) closing) }
    {
        let mut closing = Closing::alone(alloc, hashing, nodes.len(), equations)?;
        for (node, content) in nodes.iter().enumerate() {
            if let Node::Const(_) = content {
                closing.enter_one(alloc, nodes, node as u64)?;
                if let Some((left, right)) = next(
                    closing.classes.as_slice(),
                    &mut closing.pending,
                ) {
                    closing.merge(left, right)?;
                }
            }
        }
        Ok(closing)
    }

    // Each of some nodes is alone in its class.
    fn alone(
        alloc: Global,
        hashing: Hashing,
        count: usize,
        equations: Vec<(u64, u64)>,
    ) -> Result<Closing, AllocError>
        requires { count < 2 ^ 32 }
        ensures { IfOk result (λ closing. IsAlone count equations.items closing) }
    {
        let (classes, following) = singletons(alloc, count)?;
        Ok(Closing {
            classes,
            following,
            uses: Lists::new(alloc),
            table: Table::new(alloc, hashing, count),
            pending: equations,
            stale: Vec::new(alloc),
        })
    }

    // Looks up a node.
    fn enter_one(&mut self, alloc: Global, nodes: &[Node], node: u64) -> Result<(), AllocError>
        requires few { length nodes.now < 2 ^ 32 }
        requires arguments { HasEarlierArguments nodes.now }
        requires count { length self.old.classes.items ≡ length nodes.now }
        requires node { node < length nodes.now }
        ensures { OnOk result (EntersOne nodes.now node self.old self.new) }
    {
        enter(
            alloc,
            nodes,
            self.classes.as_slice(),
            &mut self.table,
            &mut self.pending,
            node,
        )?;
        Ok(())
    }

    // Whether pairs are to be joined, or functions to be looked up.
    fn is_open(&self) -> bool
        ensures { IsFalse result ↔ ((self.now.pending.items ≡ []) × (self.now.stale.items ≡ [])) }
    {
        !(self.pending.is_empty() && self.stale.is_empty())
    }

    // Joins two classes: the one with fewer members to the other.
    fn merge(&mut self, left: u32, right: u32) -> Result<(), AllocError>
        requires rings { AreRings self.old.classes.items self.old.following.items }
        requires left { left < length self.old.classes.items }
        requires right { right < length self.old.classes.items }
        requires left_root { slice_index self.old.classes.items left ≡ left }
        requires right_root { slice_index self.old.classes.items right ≡ right }
        requires differ { left ≢ right }
        ensures { OnOk result (Merges self.old self.new left right ⊎ Merges self.old self.new right left) }
    {
        if is_shorter(self.following.as_slice(), left, right) {
            self.join(left, right)?;
        } else {
            self.join(right, left)?;
        }
        Ok(())
    }

    // Joins one class to another, in time in the members of the first. What uses one of them is to
    // be looked up anew.
    fn join(&mut self, from: u32, to: u32) -> Result<(), AllocError>
        requires rings { AreRings self.old.classes.items self.old.following.items }
        requires from { from < length self.old.classes.items }
        requires to { to < length self.old.classes.items }
        requires from_root { slice_index self.old.classes.items from ≡ from }
        requires to_root { slice_index self.old.classes.items to ≡ to }
        requires differ { from ≢ to }
        ensures { OnOk result (Merges self.old self.new from to) }
    {
        relabel(
            &mut self.classes,
            &mut self.stale,
            self.following.as_slice(),
            &self.uses,
            from,
            to,
        )?;
        self.following.swap(from as usize, to as usize);
        Ok(())
    }

    // Looks up anew the functions whose arguments were joined, each once, however many of them were.
    fn refresh(&mut self, alloc: Global, nodes: &[Node]) -> Result<(), AllocError>
        requires few { length nodes.now < 2 ^ 32 }
        requires arguments { HasEarlierArguments nodes.now }
        requires count { length self.old.classes.items ≡ length nodes.now }
        requires stale { (a : ℕ) → Has self.old.stale.items a → a < length nodes.now }
        ensures { OnOk result (Refreshes nodes.now self.old self.new) }
    {
        if self.stale.is_empty() {
            return Ok(());
        }
        let stale = distinct(mem::replace(&mut self.stale, Vec::new(alloc)));
        enter_all(
            alloc,
            nodes,
            self.classes.as_slice(),
            &mut self.table,
            &mut self.pending,
            stale.as_slice(),
        )?;
        Ok(())
    }
}

// The numbers, each once.
fn distinct(numbers: Vec<u64>) -> Vec<u64>
    ensures { (x : ℕ) → Has numbers.items x ↔ Has result.items x }
{
    let mut numbers = numbers;
    numbers.sort_unstable();
    numbers.dedup();
    numbers
}

/// The class of each node in the least congruence that contains the equations and makes equal
/// constants equal. All pairs that wait are joined before a function is looked up anew.
pub fn close_classes(
    alloc: Global,
    hashing: Hashing,
    nodes: &[Node],
    equations: Vec<(u64, u64)>,
) -> Result<Vec<u32>, AllocError>
    requires few { length nodes.now < 2 ^ 32 }
    requires arguments { HasEarlierArguments nodes.now }
    requires sides { AreSides nodes.now equations.items }
    ensures { IfOk result (λ classes. AreExact nodes.now equations.items classes.items) }
{
    let mut closing = Closing::start(alloc, hashing, nodes, equations)?;
    while closing.is_open() {
        match next(closing.classes.as_slice(), &mut closing.pending) {
            Some((left, right)) => closing.merge(left, right)?,
            None => closing.refresh(alloc, nodes)?,
        }
    }
    Ok(closing.into_classes())
}

// Takes out pairs up to the first one of two classes, and gives these.
fn next(classes: &[u32], pending: &mut Vec<(u64, u64)>) -> Option<(u32, u32)>
    requires { (a b : ℕ) → Contains pending.old.items (a, b) → (a < length classes.now) × (b < length classes.now) }
    ensures { Skips (slice_index classes.now) pending.old.items pending.new.items result }
{
    while let Some((a, b)) = pending.pop() {
        let left = class_of(classes, a);
        let right = class_of(classes, b);
        if left != right {
            return Some((left, right));
        }
    }
    None
}

fn class_of(classes: &[u32], node: u64) -> u32
    requires { node < length classes.now }
    ensures { result ≡ slice_index classes.now node }
{
    classes[node as usize]
}
