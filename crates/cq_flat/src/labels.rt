//! The values of nodes, and the labels of nulls.
ghost use Rattle.std.specs.Prelude.{◌≡◌, ◌<◌, ◌≤◌, ◌^◌, ℕ, length, All, IfOk, OnOk, slice_index_or, ◌==◌};
ghost use Rattle.std.specs.Prelude.{if◌then◌else◌};
ghost use Rattle.cq_flat.specs.Constants.{constant_at, constants_at};
ghost use Rattle.cq_flat.specs.Labels.{AreApart, AreClassValues};
ghost use Rattle.cq_flat.specs.Places.{values_in, ArePlaced, IsNewValue};
ghost use Rattle.cq_flat.specs.Values.{AreLabels};

use crate::constants::constant_at;
use crate::node::Node;
use crate::values::NodeValues;
use cq_theory::Value;
use std::alloc::{AllocError, Global};

/// The values of the nodes of these classes, where the nodes of their least constants are these, and
/// the first node of each null. Labels are given in order of first appearance.
pub fn values_of(
    alloc: Global,
    nodes: &[Node],
    classes: &[u32],
    least: &[u32],
) -> Result<(NodeValues, Vec<u64>), AllocError>
    requires few { length classes.now < 2 ^ 32 }
    requires count { length least.now ≡ length classes.now }
    requires within { All (λ class. class < length classes.now) classes.now }
    requires apart { AreApart (constants_at nodes.now least.now) }
    ensures values { IfOk result (λ made. AreClassValues classes.now (constants_at nodes.now least.now)
        (values_in made.0)) }
    ensures placed { IfOk result (λ made. ArePlaced made.0) }
    ensures labels { IfOk result (λ made. AreLabels (values_in made.0) made.1.items) }
{
    let count = classes.len() as u32;
    let mut placed = Vec::with_capacity(alloc, classes.len())?;
    let mut nulls = Vec::new(alloc);
    let mut values = NodeValues::with_room(alloc, classes.len(), count_classes(classes))?;
    for (node, class) in classes.iter().enumerate() {
        let place = place_at(placed.as_slice(), count, *class);
        if place < count {
            values.places.push(place)?;
            continue;
        }
        let value = new_value(nodes, least[*class as usize], &mut nulls, node as u64)?;
        let place = values.different.len() as u32;
        write_place(&mut placed, count, *class, place)?;
        values.places.push(place)?;
        values.different.push(value)?;
    }
    Ok((values, nulls))
}

// How many nodes are the first ones of their classes, by whose numbers classes go.
fn count_classes(classes: &[u32]) -> usize
    ensures { result ≤ length classes.now }
{
    let mut count = 0;
    for (node, class) in classes.iter().enumerate() {
        if *class as usize == node {
            count += 1;
        }
    }
    count
}

// The value of a class, of whose constants the least one stands at this place, if it has any. Else
// this is the first node of a null.
fn new_value(
    nodes: &[Node],
    place: u32,
    nulls: &mut Vec<u64>,
    node: u64,
) -> Result<Value, AllocError>
    ensures { IfOk result (λ value.
        IsNewValue (constant_at nodes.now place) nulls.old.items nulls.new.items node value) }
{
    if let Some(constant) = constant_at(nodes, place) {
        return Ok(Value::Const(constant.clone()?));
    }
    let label = nulls.len() as u64;
    nulls.push(node)?;
    Ok(Value::Null(label))
}

// The place of the value of a class, or else the number of classes.
fn place_at(placed: &[u32], count: u32, class: u32) -> u32
    ensures { result ≡ slice_index_or placed.now class count }
{
    match placed.get(class as usize) {
        Some(place) => *place,
        None => count,
    }
}

// Writes the place of the value of a class. Memory that no place is written to is not touched.
fn write_place(placed: &mut Vec<u32>, count: u32, class: u32, place: u32) -> Result<(), AllocError>
    ensures { OnOk result ((k : ℕ) → slice_index_or placed.new.items k count
        ≡ (if k == class then place else slice_index_or placed.old.items k count)) }
{
    while placed.len() as u64 <= u64::from(class) {
        placed.push(count)?;
    }
    placed[class as usize] = place;
    Ok(())
}
