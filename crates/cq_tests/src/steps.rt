//! Lists of steps over a schema of employees and departments.
use crate::given::{Keys, ent_term, given_in, one};
use cq_base::Seq;
use cq_steps::{Rule, Step, check_steps};
use cq_theory::{Equation, TypeTerm};
use std::alloc::Global;
use std::process::Abort;

/// A department's secretary works in it, and its size is the successor of its size. The employee c is the secretary of
/// the departments m and d.
static DEPARTMENTS: &str = "
    typeside T = literal { types n functions succ : n -> n }
    schema S = literal : T {
      entities Emp Dep
      foreign_keys worksIn : Emp -> Dep secretary : Dep -> Emp
      path_equations secretary.worksIn = Dep
      attributes size : Dep -> n
      observation_equations forall d. size(d) = succ(size(d))
    }
    instance I = literal : S {
      generators c : Emp m d : Dep
      equations secretary(m) = c secretary(d) = c
    }";

/// A type term: so many functions, around the attribute of an entity term.
type Height = (usize, Keys);

/// A rule, the steps from which it takes its premises, and the equation.
type Entry = (Named, &'static [u64], Sides);

/// The two sides of an equation.
#[derive(Clone, Copy)]
enum Sides {
    Ent(Keys, Keys),
    Typ(Height, Height),
}

/// A rule with its number, and with the term that is put in the place of a variable.
#[derive(Clone, Copy)]
enum Named {
    Reflexivity,
    Symmetry,
    Transitivity,
    Key(u32),
    Attribute,
    Function,
    Given(u64),
    Path(Keys),
    Obs(Keys),
}

fn type_term(rt: &impl Abort, alloc: Global, (height, keys): Height) -> TypeTerm {
    let mut made = TypeTerm::Att(0, ent_term(rt, alloc, keys));
    for _ in 0..height {
        made = TypeTerm::Fun(0, one(rt, alloc, made));
    }
    made
}

fn equation(rt: &impl Abort, alloc: Global, sides: Sides) -> Equation {
    match sides {
        Sides::Ent(left, right) => {
            Equation::Ent(ent_term(rt, alloc, left), ent_term(rt, alloc, right))
        }
        Sides::Typ(left, right) => {
            Equation::Typ(type_term(rt, alloc, left), type_term(rt, alloc, right))
        }
    }
}

fn rule(rt: &impl Abort, alloc: Global, named: Named) -> Rule {
    match named {
        Named::Reflexivity => Rule::Reflexivity,
        Named::Symmetry => Rule::Symmetry,
        Named::Transitivity => Rule::Transitivity,
        Named::Key(key) => Rule::Key(key),
        Named::Attribute => Rule::Attribute(0),
        Named::Function => Rule::Function(0),
        Named::Given(number) => Rule::Given(number),
        Named::Path(at) => Rule::Path(0, ent_term(rt, alloc, at)),
        Named::Obs(at) => Rule::Obs(0, ent_term(rt, alloc, at)),
    }
}

fn step(rt: &impl Abort, alloc: Global, (named, from, sides): Entry) -> Step {
    let from = Vec::from_slice(alloc, from).expect(rt, "memory");
    Step {
        rule: rule(rt, alloc, named),
        from: Seq::from_vec(from),
        equation: equation(rt, alloc, sides),
    }
}

fn push_steps(rt: &impl Abort, alloc: Global, entries: &[Entry], steps: &mut Vec<Step>) {
    for entry in entries {
        steps.push(step(rt, alloc, *entry)).expect(rt, "memory");
    }
}

fn steps(rt: &impl Abort, alloc: Global, earlier: &[Entry], last: &[Entry]) -> Vec<Step> {
    let mut steps = Vec::new(alloc);
    push_steps(rt, alloc, earlier, &mut steps);
    push_steps(rt, alloc, last, &mut steps);
    steps
}

fn is_right_over(rt: &impl Abort, alloc: Global, steps: &[Step]) -> bool {
    let given = given_in(rt, alloc, DEPARTMENTS);
    check_steps(alloc, &given.schema, &given.presentation, steps).expect(rt, "memory")
}

/// Whether these entries are a right list.
fn is_right(rt: &impl Abort, alloc: Global, earlier: &[Entry], last: &[Entry]) -> bool {
    let steps = steps(rt, alloc, earlier, last);
    is_right_over(rt, alloc, steps.as_slice())
}

/// Stops at the first of these entries that is told wrongly behind the earlier ones.
fn try_last(rt: &impl Abort, alloc: Global, earlier: &[Entry], cases: &[(Entry, bool)]) {
    for (place, (last, right)) in cases.iter().enumerate() {
        assert_eq!(rt; is_right(rt, alloc, earlier, &[*last]), *right, "{place}");
    }
}

const C: Keys = (0, &[]);

const M: Keys = (1, &[]);

const D: Keys = (2, &[]);

const M_SECRETARY: Keys = (1, &[1]);

const D_SECRETARY: Keys = (2, &[1]);

const M_AGAIN: Keys = (1, &[1, 0]);

const D_AGAIN: Keys = (2, &[1, 0]);

/// Why m is d, but for the last step.
const ONE_DEPARTMENT: &[Entry] = &[
    (Named::Given(0), &[], Sides::Ent(M_SECRETARY, C)),
    (Named::Given(1), &[], Sides::Ent(D_SECRETARY, C)),
    (Named::Symmetry, &[1], Sides::Ent(C, D_SECRETARY)),
    (
        Named::Transitivity,
        &[0, 2],
        Sides::Ent(M_SECRETARY, D_SECRETARY),
    ),
    (Named::Key(0), &[3], Sides::Ent(M_AGAIN, D_AGAIN)),
    (Named::Path(M), &[], Sides::Ent(M_AGAIN, M)),
    (Named::Symmetry, &[5], Sides::Ent(M, M_AGAIN)),
    (Named::Transitivity, &[6, 4], Sides::Ent(M, D_AGAIN)),
    (Named::Path(D), &[], Sides::Ent(D_AGAIN, D)),
];

/// What may stand behind these, and whether the whole list is then right.
const LAST_STEPS: &[(Entry, bool)] = &[
    ((Named::Transitivity, &[7, 8], Sides::Ent(M, D)), true),
    ((Named::Transitivity, &[7, 7], Sides::Ent(M, D)), false),
    ((Named::Transitivity, &[7, 9], Sides::Ent(M, D)), false),
    ((Named::Transitivity, &[7], Sides::Ent(M, D)), false),
    (
        (Named::Reflexivity, &[], Sides::Ent(M_AGAIN, M_AGAIN)),
        true,
    ),
    (
        (Named::Reflexivity, &[], Sides::Ent((1, &[0]), (1, &[0]))),
        false,
    ),
    ((Named::Key(1), &[3], Sides::Ent(M_AGAIN, D_AGAIN)), false),
    ((Named::Path(C), &[], Sides::Ent((0, &[1, 0]), C)), false),
    ((Named::Given(2), &[], Sides::Ent(M_SECRETARY, C)), false),
    (
        (Named::Attribute, &[7], Sides::Typ((0, M), (0, D_AGAIN))),
        true,
    ),
    (
        (
            Named::Attribute,
            &[3],
            Sides::Typ((0, M_SECRETARY), (0, D_SECRETARY)),
        ),
        false,
    ),
    (
        (
            Named::Obs(D_AGAIN),
            &[],
            Sides::Typ((0, D_AGAIN), (1, D_AGAIN)),
        ),
        true,
    ),
    (
        (Named::Obs(D_AGAIN), &[], Sides::Typ((0, D_AGAIN), (1, D))),
        false,
    ),
    ((Named::Obs(D), &[8], Sides::Typ((0, D), (1, D))), false),
];

#[test]
fn last_steps(rt: HostRuntime) {
    try_last(&rt, rt.alloc(), ONE_DEPARTMENT, LAST_STEPS);
}

/// A department's size is its successor.
const SIZE: &[Entry] = &[(Named::Obs(M), &[], Sides::Typ((0, M), (1, M)))];

/// What may stand behind this, and whether both are then a right list.
const SUCCESSORS: &[(Entry, bool)] = &[
    ((Named::Function, &[0], Sides::Typ((1, M), (2, M))), true),
    ((Named::Function, &[0], Sides::Typ((2, M), (1, M))), false),
    (
        (Named::Function, &[0, 0], Sides::Typ((1, M), (2, M))),
        false,
    ),
];

#[test]
fn functions(rt: HostRuntime) {
    try_last(&rt, rt.alloc(), SIZE, SUCCESSORS);
}

#[test]
fn no_steps(rt: HostRuntime) {
    assert!(rt; !is_right(&rt, rt.alloc(), &[], &[]));
}
