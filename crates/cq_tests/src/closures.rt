//! Closures that are known, and closures compared with a slow one.
ghost use Rattle.std.specs.Prelude.{◌≡◌, ◌≤◌, ◌<◌, length};

use crate::slow::slow;
use cq_base::{Name, Seq};
use cq_flat::{Flat, Node};
use cq_theory::{Con, Value};
use std::alloc::Global;
use std::process::Abort;

#[derive(Clone, Copy, Debug, PartialEq, Eq)]
pub(crate) enum Plain {
    Const(u32),
    Null(u64),
    Built,
}

/// What a closure tells.
#[derive(Debug, PartialEq)]
pub(crate) struct Told {
    pub(crate) values: Vec<Plain>,
    pub(crate) nulls: Vec<u64>,
    pub(crate) entries: Vec<(u32, Vec<Plain>, Plain)>,
    pub(crate) clash: Option<(u32, u32)>,
}

impl Drop for Told {
    fn drop(self) {
        let Self {
            values: _,
            nulls: _,
            entries: _,
            clash: _,
        } = self;
    }
}

// Five constants in their order: two declared ones, and three texts.

fn constant(rt: &impl Abort, alloc: Global, number: u64) -> Con {
    match number {
        0 => Con::Named(0),
        1 => Con::Named(1),
        2 => text(rt, alloc, "Ann"),
        3 => text(rt, alloc, "Zed"),
        _ => text(rt, alloc, "Zeda"),
    }
}

fn text(rt: &impl Abort, alloc: Global, content: &str) -> Con {
    Con::Open(Name::new(alloc, content).expect(rt, "a name"))
}

pub(crate) fn number_of(constant: &Con) -> u32 {
    match constant {
        Con::Named(number) => *number,
        Con::Open(text) => number_of_text(text.as_str()),
    }
}

fn number_of_text(content: &str) -> u32 {
    if content == "Ann" {
        2
    } else if content == "Zed" {
        3
    } else {
        4
    }
}

fn numbers_of(clash: Option<(&Con, &Con)>) -> Option<(u32, u32)> {
    match clash {
        Some((least, greater)) => Some((number_of(least), number_of(greater))),
        None => None,
    }
}

fn plain_of(value: &Value) -> Plain {
    match value {
        Value::Const(constant) => Plain::Const(number_of(constant)),
        Value::Null(label) => Plain::Null(*label),
        Value::Fun(_, _) => Plain::Built,
    }
}

fn fun(rt: &impl Abort, alloc: Global, function: u32, args: &[u64]) -> Node {
    let args = args.to_vec(alloc).expect(rt, "memory");
    Node::Fun(function, Seq::from_vec(args))
}

// A node as a table has it.
#[derive(Clone, Copy)]
enum Given {
    Leaf,
    Const(u64),
    Fun(u32, &'static [u64]),
}

fn node_of(rt: &impl Abort, alloc: Global, given: &Given) -> Node {
    match given {
        Given::Leaf => Node::Leaf,
        Given::Const(number) => Node::Const(constant(rt, alloc, *number)),
        Given::Fun(function, args) => fun(rt, alloc, *function, args),
    }
}

fn nodes_of(rt: &impl Abort, alloc: Global, given: &[Given]) -> Vec<Node> {
    let mut nodes = Vec::new(alloc);
    for node in given {
        nodes.push(node_of(rt, alloc, node)).expect(rt, "memory");
    }
    nodes
}

fn closed_given(rt: &impl Abort, alloc: Global, given: &[Given], equations: &[(u64, u64)]) -> Told {
    let equations = equations.to_vec(alloc).expect(rt, "memory");
    closed(rt, alloc, nodes_of(rt, alloc, given), equations)
}

// Whether the entry gives this value to the function of this argument.
fn says(
    entry: Option<&(u32, Vec<Plain>, Plain)>,
    function: u32,
    argument: Plain,
    value: Plain,
) -> bool {
    match entry {
        Some((name, args, result)) => {
            *name == function && args.as_slice() == [argument].as_slice() && *result == value
        }
        None => false,
    }
}

fn closed(rt: &impl Abort, alloc: Global, nodes: Vec<Node>, equations: Vec<(u64, u64)>) -> Told {
    let count = nodes.len() as u64;
    let fits = Flat::can_close(nodes.as_slice(), equations.as_slice());
    assert!(rt; fits);
    let flat = Flat::close(alloc, nodes, equations).expect(rt, "memory");
    read(rt, alloc, &flat, count)
}

fn read(rt: &impl Abort, alloc: Global, flat: &Flat, count: u64) -> Told
    requires { count ≤ length flat.now.values }
{
    Told {
        values: plain_values(rt, alloc, flat, count),
        nulls: flat.nulls().to_vec(alloc).expect(rt, "memory"),
        entries: plain_entries(rt, alloc, flat),
        clash: numbers_of(flat.clash()),
    }
}

fn plain_values(rt: &impl Abort, alloc: Global, flat: &Flat, count: u64) -> Vec<Plain>
    requires { count ≤ length flat.now.values }
{
    let mut values = Vec::new(alloc);
    for node in 0..count {
        values.push(plain_of(flat.value(node))).expect(rt, "memory");
    }
    values
}

fn plain_entries(rt: &impl Abort, alloc: Global, flat: &Flat) -> Vec<(u32, Vec<Plain>, Plain)> {
    let mut entries = Vec::new(alloc);
    for entry in flat.entries() {
        let args = plain_list(rt, alloc, entry.args.as_slice());
        let plain = (entry.function, args, plain_of(&entry.value));
        entries.push(plain).expect(rt, "memory");
    }
    entries
}

fn plain_list(rt: &impl Abort, alloc: Global, values: &[Value]) -> Vec<Plain> {
    values
        .iter()
        .map(plain_of)
        .collect(alloc)
        .expect(rt, "memory")
}

// Small tables by a fixed rule.

fn next(state: &mut u64) -> u64 {
    *state = state
        .wrapping_mul(6364136223846793005)
        .wrapping_add(1442695040888963407);
    *state >> 33
}

fn node_from(rt: &impl Abort, alloc: Global, state: &mut u64, node: u64) -> Node {
    let kind = next(state) % 5;
    if kind == 0 || node == 0 {
        return Node::Leaf;
    }
    if kind == 1 {
        let number = next(state) % 5;
        return Node::Const(constant(rt, alloc, number));
    }
    let first = next(state) % node;
    let second = next(state) % node;
    if kind == 2 {
        return fun(rt, alloc, 1, &[first, second]);
    }
    fun(rt, alloc, 0, &[first])
}

fn nodes_from(rt: &impl Abort, alloc: Global, state: &mut u64, count: u64) -> Vec<Node> {
    let mut nodes = Vec::new(alloc);
    for node in 0..count {
        nodes
            .push(node_from(rt, alloc, state, node))
            .expect(rt, "memory");
    }
    nodes
}

fn equations_from(rt: &impl Abort, alloc: Global, state: &mut u64, count: u64) -> Vec<(u64, u64)>
    requires { 0 < count }
{
    let mut equations = Vec::new(alloc);
    for _equation in 0..next(state) % 5 {
        let left = next(state) % count;
        let right = next(state) % count;
        equations.push((left, right)).expect(rt, "memory");
    }
    equations
}

// Stops where the closure of a table is not the slow one.
fn try_table(rt: &impl Abort, alloc: Global, seed: u64) {
    let mut state = seed;
    let count = 3 + next(&mut state) % 10;
    let nodes = nodes_from(rt, alloc, &mut state, count);
    let equations = equations_from(rt, alloc, &mut state, count);
    let expected = slow(rt, alloc, nodes.as_slice(), equations.as_slice());
    let found = closed(rt, alloc, nodes, equations);
    assert_eq!(rt; found, expected, "at {seed}");
}

#[test]
fn agrees_with_all_pairs_of_small_tables(rt: HostRuntime) {
    for seed in 0..400u64 {
        try_table(&rt, rt.alloc(), seed);
    }
}

// h(Al) = Bob, h(x) = Carl and x = Al: Bob and Carl are equal.
static CARL_AND_BOB: [Given; 9] = [
    Given::Leaf,
    Given::Const(0),
    Given::Fun(0, &[1]),
    Given::Const(1),
    Given::Leaf,
    Given::Fun(0, &[4]),
    Given::Const(2),
    Given::Leaf,
    Given::Const(0),
];

#[test]
fn two_constants_clash(rt: HostRuntime) {
    let equations = [(0, 4), (0, 7), (2, 3), (5, 6), (7, 8)];
    let found = closed_given(&rt, rt.alloc(), &CARL_AND_BOB, &equations);
    assert_eq!(rt; found.clash, Some((1, 2)));
}

// "Zed" and "Ann", each twice, are made equal: the lesser text stands first, and one text has one class.
static TEXTS: [Given; 5] = [
    Given::Const(3),
    Given::Leaf,
    Given::Const(2),
    Given::Const(3),
    Given::Const(2),
];

#[test]
fn two_texts_clash_in_the_order_of_their_bytes(rt: HostRuntime) {
    let found = closed_given(&rt, rt.alloc(), &TEXTS, &[(0, 1), (1, 2)]);
    let ann = Plain::Const(2);
    assert!(rt;
        found.values.as_slice() == [ann, ann, ann, ann, ann].as_slice()
            && found.clash == Some((2, 3))
    );
}

// h(Al) = h(Bob): one null, and an entry for each of the two arguments.
static ALIKE: [Given; 4] = [
    Given::Const(0),
    Given::Fun(0, &[0]),
    Given::Const(1),
    Given::Fun(0, &[2]),
];

fn has_one_null(found: &Told) -> bool {
    let (al, bob, null) = (Plain::Const(0), Plain::Const(1), Plain::Null(0));
    found.values.as_slice() == [al, null, bob, null].as_slice()
        && found.nulls.as_slice() == [1].as_slice()
        && found.entries.len() == 2
        && says(found.entries.get(0), 0, al, null)
        && says(found.entries.get(1), 0, bob, null)
        && found.clash.is_none()
}

#[test]
fn a_null_is_the_value_of_two_functions(rt: HostRuntime) {
    let found = closed_given(&rt, rt.alloc(), &ALIKE, &[(1, 3)]);
    assert!(rt; has_one_null(&found), "{found:?}");
}

// u = succ(u): one null, which is the value of the function at itself.
static AT_ITSELF: [Given; 2] = [Given::Leaf, Given::Fun(2, &[0])];

fn is_at_itself(found: &Told) -> bool {
    let null = Plain::Null(0);
    found.values.as_slice() == [null, null].as_slice()
        && found.nulls.as_slice() == [0].as_slice()
        && found.entries.len() == 1
        && says(found.entries.get(0), 2, null, null)
        && found.clash.is_none()
}

#[test]
fn a_null_is_the_value_of_a_function_at_itself(rt: HostRuntime) {
    let found = closed_given(&rt, rt.alloc(), &AT_ITSELF, &[(0, 1)]);
    assert!(rt; is_at_itself(&found), "{found:?}");
}

/// A function at a node that stands behind it, and an equation with a node that isn't there.
#[test]
fn only_earlier_nodes_are_closed(rt: HostRuntime) {
    let alloc = rt.alloc();
    let at_itself = nodes_of(&rt, alloc, &[Given::Fun(0, &[0])]);
    let one_leaf = nodes_of(&rt, alloc, &[Given::Leaf]);
    assert!(rt;
        !Flat::can_close(at_itself.as_slice(), &[])
            && !Flat::can_close(one_leaf.as_slice(), &[(0, 1)])
            && Flat::can_close(one_leaf.as_slice(), &[(0, 0)])
    );
}
