//! The slow closure: all pairs of nodes, as many times as there are nodes.

use crate::closures::{Plain, Told, number_of};
use cq_flat::Node;
use std::alloc::Global;
use std::process::Abort;

/// What a table of nodes tells by it.
pub(crate) fn slow(
    rt: &impl Abort,
    alloc: Global,
    nodes: &[Node],
    equations: &[(u64, u64)],
) -> Told {
    let classes = slow_classes(rt, alloc, nodes, equations);
    let (values, nulls) = slow_values(rt, alloc, nodes, classes.as_slice());
    let entries = slow_entries(rt, alloc, nodes, values.as_slice());
    let clash = slow_clash(nodes, classes.as_slice());
    Told {
        values,
        nulls,
        entries,
        clash,
    }
}

fn slow_classes(
    rt: &impl Abort,
    alloc: Global,
    nodes: &[Node],
    equations: &[(u64, u64)],
) -> Vec<u64> {
    let mut classes = Vec::new(alloc);
    for node in 0..nodes.len() {
        classes.push(node as u64).expect(rt, "memory");
    }
    for (left, right) in equations {
        unite(&mut classes, *left, *right);
    }
    for _pass in 0..nodes.len() {
        unite_alike(nodes, &mut classes);
    }
    classes
}

fn unite_alike(nodes: &[Node], classes: &mut Vec<u64>) {
    for (left, node) in nodes.iter().enumerate() {
        for (right, other) in nodes.iter().enumerate() {
            if are_alike(node, other, classes.as_slice()) {
                unite(classes, left as u64, right as u64);
            }
        }
    }
}

fn are_alike(node: &Node, other: &Node, classes: &[u64]) -> bool {
    match (node, other) {
        (Node::Const(constant), Node::Const(second)) => number_of(constant) == number_of(second),
        (Node::Fun(function, args), Node::Fun(second, others)) => {
            function == second && are_equal(args.as_slice(), others.as_slice(), classes)
        }
        _ => false,
    }
}

fn are_equal(args: &[u64], others: &[u64], classes: &[u64]) -> bool {
    let mut equal = args.len() == others.len();
    for (arg, other) in args.iter().zip(others) {
        if class_of(classes, *arg) != class_of(classes, *other) {
            equal = false;
        }
    }
    equal
}

fn class_of(classes: &[u64], node: u64) -> u64 {
    classes.get(node as usize).copied().unwrap_or(u64::MAX)
}

fn unite(classes: &mut Vec<u64>, left: u64, right: u64) {
    let from = class_of(classes.as_slice(), left);
    let to = class_of(classes.as_slice(), right);
    for class in classes.iter_mut() {
        if *class == from {
            *class = to;
        }
    }
}

fn slow_values(
    rt: &impl Abort,
    alloc: Global,
    nodes: &[Node],
    classes: &[u64],
) -> (Vec<Plain>, Vec<u64>) {
    let mut values = Vec::new(alloc);
    let mut nulls: Vec<u64> = Vec::new(alloc);
    for node in 0..nodes.len() as u64 {
        let class = class_of(classes, node);
        let Some(constant) = least_in(nodes, classes, class) else {
            let label = label_of(nulls.as_slice(), classes, class);
            if label == nulls.len() as u64 {
                nulls.push(node).expect(rt, "memory");
            }
            values.push(Plain::Null(label)).expect(rt, "memory");
            continue;
        };
        values.push(Plain::Const(constant)).expect(rt, "memory");
    }
    (values, nulls)
}

fn label_of(nulls: &[u64], classes: &[u64], class: u64) -> u64 {
    for (label, node) in nulls.iter().enumerate() {
        if class_of(classes, *node) == class {
            return label as u64;
        }
    }
    nulls.len() as u64
}

fn least_in(nodes: &[Node], classes: &[u64], class: u64) -> Option<u32> {
    let mut least: Option<u32> = None;
    for (node, content) in nodes.iter().enumerate() {
        if let Node::Const(constant) = content {
            if class_of(classes, node as u64) == class {
                let number = number_of(constant);
                least = Some(least.map_or(number, |other| other.min(number)));
            }
        }
    }
    least
}

fn slow_entries(
    rt: &impl Abort,
    alloc: Global,
    nodes: &[Node],
    values: &[Plain],
) -> Vec<(u32, Vec<Plain>, Plain)> {
    let mut entries: Vec<(u32, Vec<Plain>, Plain)> = Vec::new(alloc);
    for (node, content) in nodes.iter().enumerate() {
        if let Node::Fun(function, args) = content {
            let list = values_of(rt, alloc, args.as_slice(), values);
            if !is_listed(entries.as_slice(), *function, list.as_slice()) {
                let entry = (*function, list, value_of(values, node as u64));
                entries.push(entry).expect(rt, "memory");
            }
        }
    }
    entries
}

fn values_of(rt: &impl Abort, alloc: Global, args: &[u64], values: &[Plain]) -> Vec<Plain> {
    let mut list = Vec::new(alloc);
    for arg in args {
        list.push(value_of(values, *arg)).expect(rt, "memory");
    }
    list
}

fn is_listed(entries: &[(u32, Vec<Plain>, Plain)], function: u32, args: &[Plain]) -> bool {
    let mut listed = false;
    for entry in entries {
        if entry.0 == function && entry.1.as_slice() == args {
            listed = true;
        }
    }
    listed
}

fn value_of(values: &[Plain], node: u64) -> Plain {
    values.get(node as usize).copied().unwrap_or(Plain::Built)
}

fn slow_clash(nodes: &[Node], classes: &[u64]) -> Option<(u32, u32)> {
    let mut clash = None;
    for (left, node) in nodes.iter().enumerate() {
        for (right, other) in nodes.iter().enumerate() {
            if class_of(classes, left as u64) == class_of(classes, right as u64) {
                clash = lesser(clash, node, other);
            }
        }
    }
    clash
}

fn lesser(clash: Option<(u32, u32)>, node: &Node, other: &Node) -> Option<(u32, u32)> {
    if let (Node::Const(constant), Node::Const(second)) = (node, other) {
        let (constant, second) = (number_of(constant), number_of(second));
        let (first, next) = clash.unwrap_or((u32::MAX, u32::MAX));
        let is_less = constant < first || (constant == first && second < next);
        if constant < second && is_less {
            return Some((constant, second));
        }
    }
    clash
}
