//! The rows and the values that terms mean.
use crate::given::{Keys, ent_term, instance, one};
use cq_model::Instance;
use cq_steps::side::Side;
use cq_steps::sorts::is_ground;
use cq_terms::is_same_value;
use cq_theory::{Con, EntTerm, TypeTerm, Value};
use std::alloc::Global;
use std::process::Abort;

/// Two rows, a and a.k, of which only the second one's cell is known. The generator c is a, and m has no value.
static CONTENT: &str = "
    typeside T = literal { types s constants Al Bo : s functions h : s -> s }
    schema S = literal : T { entities E foreign_keys k : E -> E attributes x : E -> s }
    instance I = literal : S {
      generators a c : E m : s
      equations k(k(a)) = k(a) c = a x(k(a)) = Al h(Al) = Bo
    }";

/// What stands within a term of a type: a generator, a constant, or the attribute of a term.
#[derive(Clone, Copy)]
enum Within {
    Generator(u32),
    Constant(u32),
    Cell(Keys),
}

/// What a term means: nothing where it has no sort, else a constant or a null with the function around it so often.
#[derive(Clone, Copy)]
enum Meaning {
    Nothing,
    Constant(usize, u32),
    Null(usize, u64),
}

/// The row that a term means, where it has an entity.
fn row_of(instance: &Instance, term: &EntTerm) -> Option<u32> {
    if is_ground(instance.schema(), instance.presentation(), Side::Ent(term)) {
        Some(instance.row_of(term))
    } else {
        None
    }
}

/// The value that a term means, where it has a type.
fn value_of(rt: &impl Abort, alloc: Global, instance: &Instance, term: &TypeTerm) -> Option<Value> {
    if is_ground(instance.schema(), instance.presentation(), Side::Typ(term)) {
        Some(instance.value_of(alloc, term).expect(rt, "memory"))
    } else {
        None
    }
}

/// What stands within, with the function around it so often.
fn type_term(rt: &impl Abort, alloc: Global, times: usize, within: Within) -> TypeTerm {
    let mut term = match within {
        Within::Generator(number) => TypeTerm::Gen(number),
        Within::Constant(number) => TypeTerm::Const(Con::Named(number)),
        Within::Cell(keys) => TypeTerm::Att(0, ent_term(rt, alloc, keys)),
    };
    for _ in 0..times {
        term = TypeTerm::Fun(0, one(rt, alloc, term));
    }
    term
}

/// A value with the function around it so often.
fn applied(rt: &impl Abort, alloc: Global, times: usize, value: Value) -> Value {
    let mut made = value;
    for _ in 0..times {
        made = Value::Fun(0, one(rt, alloc, made));
    }
    made
}

/// The value that is meant, if any.
fn wanted(rt: &impl Abort, alloc: Global, meaning: Meaning) -> Option<Value> {
    match meaning {
        Meaning::Nothing => None,
        Meaning::Constant(times, number) => {
            Some(applied(rt, alloc, times, Value::Const(Con::Named(number))))
        }
        Meaning::Null(times, label) => Some(applied(rt, alloc, times, Value::Null(label))),
    }
}

fn are_same(found: &Option<Value>, wanted: &Option<Value>) -> bool {
    match (found, wanted) {
        (Some(found), Some(wanted)) => is_same_value(found, wanted),
        (None, None) => true,
        _ => false,
    }
}

/// Names of rows, a generator that is another one's row, terms over the foreign key, and terms without an entity: of
/// a generator of a type, of a foreign key that isn't there, and of a generator that isn't there.
static ROWS: [(Keys, Option<u32>); 8] = [
    ((0, &[]), Some(0)),
    ((0, &[0]), Some(1)),
    ((1, &[]), Some(0)),
    ((0, &[0, 0]), Some(1)),
    ((1, &[0]), Some(1)),
    ((2, &[]), None),
    ((0, &[1]), None),
    ((3, &[]), None),
];

fn is_row(
    rt: &impl Abort,
    alloc: Global,
    instance: &Instance,
    keys: Keys,
    row: Option<u32>,
) -> bool {
    let term = ent_term(rt, alloc, keys);
    row_of(instance, &term) == row
}

/// Stops at the first term with another row.
fn try_rows(rt: &impl Abort, alloc: Global, instance: &Instance) {
    for (place, (keys, row)) in ROWS.iter().enumerate() {
        assert!(rt; is_row(rt, alloc, instance, *keys, *row), "{place}");
    }
}

#[test]
fn rows_of_terms(rt: HostRuntime) {
    let alloc = rt.alloc();
    let instance = instance(&rt, alloc, CONTENT);
    try_rows(&rt, alloc, &instance);
}

/// Constants, nulls, and functions with and without an entry; and terms without a type, of a generator of an entity
/// and of a generator that isn't there.
static VALUES: [(usize, Within, Meaning); 10] = [
    (0, Within::Constant(0), Meaning::Constant(0, 0)),
    (0, Within::Cell((0, &[0])), Meaning::Constant(0, 0)),
    (0, Within::Cell((1, &[])), Meaning::Null(0, 0)),
    (0, Within::Generator(2), Meaning::Null(0, 1)),
    (1, Within::Constant(0), Meaning::Constant(0, 1)),
    (1, Within::Cell((0, &[0])), Meaning::Constant(0, 1)),
    (2, Within::Cell((0, &[0])), Meaning::Constant(1, 1)),
    (1, Within::Generator(2), Meaning::Null(1, 1)),
    (0, Within::Generator(0), Meaning::Nothing),
    (1, Within::Generator(3), Meaning::Nothing),
];

fn is_meant(
    rt: &impl Abort,
    alloc: Global,
    instance: &Instance,
    case: (usize, Within, Meaning),
) -> bool {
    let (times, within, meaning) = case;
    let term = type_term(rt, alloc, times, within);
    let found = value_of(rt, alloc, instance, &term);
    are_same(&found, &wanted(rt, alloc, meaning))
}

/// Stops at the first term with another value.
fn try_values(rt: &impl Abort, alloc: Global, instance: &Instance) {
    for (place, case) in VALUES.iter().enumerate() {
        assert!(rt; is_meant(rt, alloc, instance, *case), "{place}");
    }
}

#[test]
fn values_of_terms(rt: HostRuntime) {
    let alloc = rt.alloc();
    let instance = instance(&rt, alloc, CONTENT);
    try_values(&rt, alloc, &instance);
}
