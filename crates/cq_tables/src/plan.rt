//! The keys of each entity, and the place of each key among them.
ghost use Rattle.std.specs.Prelude.{◌≡◌, ℕ, ◌<◌, ◌≤◌, ◌^◌, [], All, length, replicate, map, IfOk, IsSome};
ghost use Rattle.cq_tables.specs.Content.{step_of};
ghost use Rattle.cq_tables.specs.Places.{rank_of, width_of, keys_from};

use std::alloc::{AllocError, Global};
use std::marker::Model;

/// The keys, each with its number among the keys of its entity, and of each entity the keys that go from it.
pub struct Plan {
    keys: Vec<(u32, u32)>,
    slots: Vec<usize>,
    starting: Vec<Vec<u32>>,
}

impl Model for Plan {
    ghost use Rattle.cq_tables.specs.Shape.{Shape};

    ghost Value = { Shape };

    ghost use Rattle.cq_tables.specs.PlanView.{shape_of, IsPlanned};

    ghost view = { shape_of };

    ghost invariant = { IsPlanned };
}

impl Drop for Plan {
    fn drop(self) {
        let Self {
            keys: _,
            slots: _,
            starting: _,
        } = self;
    }
}

impl Plan {
    pub fn new(alloc: Global, entities: u32, keys: &[(u32, u32)]) -> Result<Plan, AllocError>
        requires few { length keys.now ≤ 2 ^ 32 }
        requires range { All (λ k. (k.0 < entities) × (k.1 < entities)) keys.now }
        ensures entities { IfOk result (λ plan. plan.entities ≡ entities) }
        ensures keys { IfOk result (λ plan. plan.keys ≡ keys.now) }
    {
        let mut starting = empty_lists(alloc, entities)?;
        let mut slots = Vec::with_capacity(alloc, keys.len())?;
        for (number, key) in keys.iter().enumerate() {
            let list = &mut starting[key.0 as usize];
            slots.push(list.len())?;
            list.push(number as u32)?;
        }
        let keys = Vec::from_slice(alloc, keys)?;
        Ok(Plan {
            keys,
            slots,
            starting,
        })
    }

    /// The number of a key among the keys of its entity.
    pub fn slot(&self, key: u32) -> usize
        requires { key < length self.now.keys }
        ensures { (e : ℕ) → IsSome (step_of self.now.keys e key) → result ≡ rank_of self.now.keys e key }
    {
        self.slots[key as usize]
    }

    /// How many keys an entity has.
    pub fn width(&self, entity: u32) -> usize
        requires { entity < self.now.entities }
        ensures { result ≡ width_of self.now.keys entity }
    {
        self.starting[entity as usize].len()
    }

    /// The numbers of the keys from an entity, in order.
    pub fn keys_from(&self, entity: u32) -> &[u32]
        requires { entity < self.now.entities }
        ensures { result.now ≡ keys_from self.now.keys entity }
    {
        self.starting[entity as usize].as_slice()
    }
}

// An empty list for each entity.
fn empty_lists(alloc: Global, entities: u32) -> Result<Vec<Vec<u32>>, AllocError>
    ensures { IfOk result (λ lists. map (λ list. list.items) lists.items ≡ replicate entities []) }
{
    let mut lists = Vec::new(alloc);
    for _entity in 0..entities {
        lists.push(Vec::new(alloc))?;
    }
    Ok(lists)
}
