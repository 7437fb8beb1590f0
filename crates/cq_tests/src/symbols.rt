//! Terms and paths whose names are looked up in a schema.
use crate::given::{Keys, given_in, one};
use cq_base::{Name, Names, Raw};
use cq_theory::{
    Con, EntTerm, Route, Schema, Sort, Term, TermRefusal, TypeTerm, depth, resolve, resolve_path,
};
use std::alloc::Global;
use std::process::Abort;

/// Employees and departments. The generator c is an employee, and d a department.
const CONTENT: &str = "
    typeside T = literal { types n constants zero : n functions succ : n -> n }
    schema S = literal : T {
      entities Emp Dep
      foreign_keys worksIn : Emp -> Dep secretary : Dep -> Emp
      attributes size : Dep -> n
    }
    instance I = literal : S { generators c : Emp d : Dep }";

/// The sorts of the generators.
static SORTS: [Sort; 2] = [Sort::Entity(0), Sort::Entity(1)];

/// A word, and what is applied to it, from within.
type Written = (&'static str, &'static [&'static str]);

/// What a written term is: foreign keys that are followed from a generator, an attribute of them, a constant, or none.
#[derive(Clone, Copy)]
enum Found {
    Keys(Keys),
    Cell(u32, Keys),
    Constant(u32),
    Nothing(TermRefusal),
}

fn name(rt: &impl Abort, alloc: Global, text: &str) -> Name {
    Name::new(alloc, text).expect(rt, "a name")
}

fn written(rt: &impl Abort, alloc: Global, (word, applied): Written) -> Raw {
    let mut term = Raw::Word(name(rt, alloc, word));
    for symbol in applied {
        term = Raw::App(name(rt, alloc, symbol), one(rt, alloc, term));
    }
    term
}

/// The names of the generators.
fn generators(rt: &impl Abort, alloc: Global) -> Names {
    let mut names = Names::new(alloc);
    for text in ["c", "d"] {
        assert!(rt; names.len() < 2);
        names.add(name(rt, alloc, text)).expect(rt, "memory");
    }
    names
}

/// Whether a term has this generator and these foreign keys, and as many as its depth is.
fn is_term(term: &EntTerm, (generator, path): Keys) -> bool {
    if term.path.len() > 9 {
        return false;
    }
    term.generator == generator
        && term.path.as_slice() == path
        && depth(term) as usize == path.len()
}

fn is_found(term: &Result<Term, TermRefusal>, wanted: Found) -> bool {
    match (term, wanted) {
        (Ok(Term::Ent(term)), Found::Keys(keys)) => is_term(term, keys),
        (Ok(Term::Typ(term)), wanted) => is_value(term, wanted),
        (Err(refusal), Found::Nothing(wanted)) => *refusal == wanted,
        _ => false,
    }
}

fn is_value(term: &TypeTerm, wanted: Found) -> bool {
    match (term, wanted) {
        (TypeTerm::Att(attribute, term), Found::Cell(number, keys)) => {
            *attribute == number && is_term(term, keys)
        }
        (TypeTerm::Const(Con::Named(number)), Found::Constant(wanted)) => *number == wanted,
        _ => false,
    }
}

/// Generators and foreign keys that are followed from them; an attribute; a constant; a word and a symbol that aren't
/// declared; and a foreign key, and an attribute, of what has another entity.
static TERMS: [(Written, Found); 9] = [
    (("c", &[]), Found::Keys((0, &[]))),
    (("c", &["worksIn"]), Found::Keys((0, &[0]))),
    (("d", &["secretary", "worksIn"]), Found::Keys((1, &[1, 0]))),
    (("c", &["worksIn", "size"]), Found::Cell(0, (0, &[0]))),
    (("zero", &[]), Found::Constant(0)),
    (("e", &[]), Found::Nothing(TermRefusal::Unknown)),
    (("c", &["boss"]), Found::Nothing(TermRefusal::Unknown)),
    (
        ("c", &["secretary"]),
        Found::Nothing(TermRefusal::WrongSort),
    ),
    (("c", &["size"]), Found::Nothing(TermRefusal::WrongSort)),
];

fn is_looked_up(
    rt: &impl Abort,
    alloc: Global,
    schema: &Schema,
    term: Written,
    wanted: Found,
) -> bool {
    let names = generators(rt, alloc);
    let raw = written(rt, alloc, term);
    is_found(&resolve(alloc, schema, &names, &SORTS, &raw), wanted)
}

/// Stops at the first term that is looked up wrongly.
fn try_terms(rt: &impl Abort, alloc: Global, schema: &Schema) {
    for (place, (term, wanted)) in TERMS.iter().enumerate() {
        assert!(rt; is_looked_up(rt, alloc, schema, *term, *wanted), "{place}");
    }
}

#[test]
fn terms_are_looked_up(rt: HostRuntime) {
    let alloc = rt.alloc();
    let given = given_in(&rt, alloc, CONTENT);
    try_terms(&rt, alloc, &given.schema);
}

/// The entity where a path begins, its foreign keys, its attribute, and where it ends; or why it is none.
#[derive(Clone, Copy)]
enum Way {
    Leads(u32, &'static [u32], Option<u32>, Sort),
    Fails(TermRefusal),
}

/// Foreign keys, with and without the names of entities between them; an attribute, and an entity, alone; an entity
/// that isn't where the path has come, an attribute before the end, and a name that isn't declared.
static PATHS: [(&[&str], Way); 7] = [
    (
        &["worksIn", "secretary"],
        Way::Leads(0, &[0, 1], None, Sort::Entity(0)),
    ),
    (
        &["Emp", "worksIn", "Dep", "size"],
        Way::Leads(0, &[0], Some(0), Sort::Plain(0)),
    ),
    (&["size"], Way::Leads(1, &[], Some(0), Sort::Plain(0))),
    (&["Emp"], Way::Leads(0, &[], None, Sort::Entity(0))),
    (&["worksIn", "Emp"], Way::Fails(TermRefusal::WrongSort)),
    (&["size", "worksIn"], Way::Fails(TermRefusal::WrongSort)),
    (&["worksIn", "boss"], Way::Fails(TermRefusal::Unknown)),
];

fn is_way(found: &Result<Route, TermRefusal>, wanted: Way) -> bool {
    match (found, wanted) {
        (Ok(route), Way::Leads(start, keys, attribute, end)) => {
            route.start == start
                && route.keys.as_slice() == keys
                && route.attribute == attribute
                && route.end == end
        }
        (Err(refusal), Way::Fails(wanted)) => *refusal == wanted,
        _ => false,
    }
}

fn is_path(rt: &impl Abort, alloc: Global, schema: &Schema, texts: &[&str], wanted: Way) -> bool {
    let mut names = Vec::new(alloc);
    for text in texts {
        names.push(name(rt, alloc, text)).expect(rt, "memory");
    }
    is_way(&resolve_path(alloc, schema, names.as_slice()), wanted)
}

/// Stops at the first path that is looked up wrongly.
fn try_paths(rt: &impl Abort, alloc: Global, schema: &Schema) {
    for (place, (texts, wanted)) in PATHS.iter().enumerate() {
        assert!(rt; is_path(rt, alloc, schema, texts, *wanted), "{place}");
    }
}

#[test]
fn paths_are_looked_up(rt: HostRuntime) {
    let alloc = rt.alloc();
    let given = given_in(&rt, alloc, CONTENT);
    try_paths(&rt, alloc, &given.schema);
}
