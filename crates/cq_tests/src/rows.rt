//! How many rows saturation gives for known presentations.
ghost use Rattle.std.specs.Prelude.{◌≤◌};
ghost use Rattle.cq_theory.specs.Presentation.{IsPresentation};

use crate::given::{Given, given_in};
use cq_rows::{Partial, RowsRefusal, saturate};
use cq_tables::Tables;
use std::alloc::{AllocError, Global};
use std::process::Abort;

/// How many rows there are, or why there are none.
#[derive(Clone, Copy, Debug, PartialEq, Eq)]
enum Outcome {
    Closed(u64),
    Open(u64),
    TooManyRows,
    NoMemory,
}

/// Two departments with one secretary, who works in each.
const ONE_SECRETARY: &str = "
    typeside T = literal { }
    schema S = literal : T {
      entities Emp Dep
      foreign_keys worksIn : Emp -> Dep secretary : Dep -> Emp
      path_equations Dep.secretary.worksIn = Dep
    }
    instance I = literal : S {
      generators e : Emp m d : Dep
      equations secretary(m) = e secretary(d) = e
    }";

/// One generator of an entity without foreign keys.
const NO_KEY: &str = "
    typeside T = literal { }
    schema S = literal : T { entities E }
    instance I = literal : S { generators x : E }";

/// No generator of an entity with one foreign key.
const NO_GENERATOR: &str = "
    typeside T = literal { }
    schema S = literal : T { entities E foreign_keys k : E -> E }
    instance I = literal : S { }";

/// One generator of an entity with one foreign key.
const ONE_KEY: &str = "
    typeside T = literal { }
    schema S = literal : T { entities E foreign_keys k : E -> E }
    instance I = literal : S { generators x : E }";

const IDEMPOTENT: &str = "
    typeside T = literal { }
    schema S = literal : T { entities E foreign_keys k : E -> E path_equations E.k.k = E.k }
    instance I = literal : S { generators x : E }";

const FIVE_CYCLE: &str = "
    typeside T = literal { }
    schema S = literal : T { entities E foreign_keys k : E -> E path_equations E.k.k.k.k.k = E }
    instance I = literal : S { generators x : E }";

const THREE_KEYS: &str = "
    typeside T = literal { }
    schema S = literal : T { entities E foreign_keys k l m : E -> E }
    instance I = literal : S { generators x : E }";

/// A text, the depth, and the outcome. Of three keys stage 10 has 88,573 rows, and stage 11 would have 265,720.
static KNOWN: [(&str, u32, Outcome); 10] = [
    (ONE_SECRETARY, 16, Outcome::Closed(2)),
    (ONE_KEY, 16, Outcome::Open(17)),
    (IDEMPOTENT, 16, Outcome::Closed(2)),
    (NO_KEY, 0, Outcome::Closed(1)),
    (ONE_KEY, 0, Outcome::Open(1)),
    (NO_GENERATOR, 0, Outcome::Closed(0)),
    (FIVE_CYCLE, 4, Outcome::Open(5)),
    (FIVE_CYCLE, 5, Outcome::Closed(5)),
    (THREE_KEYS, 10, Outcome::Open(88_573)),
    (THREE_KEYS, 11, Outcome::TooManyRows),
];

fn count_live(tables: &Tables) -> u64 {
    let mut count: u64 = 0;
    for row in 0..tables.made() {
        if tables.live(row) {
            count = count.saturating_add(1);
        }
    }
    count
}

fn outcome_of(partial: &Partial) -> Outcome {
    let rows = count_live(&partial.tables);
    if partial.closed {
        Outcome::Closed(rows)
    } else {
        Outcome::Open(rows)
    }
}

fn saturated(alloc: Global, given: &Given, depth: u32) -> Outcome
    requires presentation { IsPresentation given.now.schema.value given.now.presentation }
{
    match saturate(alloc, &given.schema, &given.presentation, depth.min(64)) {
        Ok(partial) => outcome_of(&partial),
        Err(RowsRefusal::TooManyRows) => Outcome::TooManyRows,
        Err(RowsRefusal::Memory) => Outcome::NoMemory,
    }
}

fn outcome_at(rt: &impl Abort, alloc: Global, text: &str, depth: u32) -> Outcome {
    let given = given_in(rt, alloc, text);
    saturated(alloc, &given, depth)
}

#[test]
fn known_presentations(rt: HostRuntime) {
    for (place, (text, depth, wanted)) in KNOWN.iter().enumerate() {
        assert_eq!(rt;
            outcome_at(&rt, rt.alloc(), text, *depth),
            *wanted,
            "{place}"
        );
    }
}

/// A schema with one foreign key, as far as its path equations; what stands behind them; and numbered generators.
fn numbered(alloc: Global, path_equations: &str, size: u32) -> Result<String, AllocError> {
    let mut text = String::new(alloc);
    write!(
        text,
        "typeside T = literal {{ }} schema S = literal : T {{ entities E foreign_keys k : E -> E {path_equations} }} \
         instance I = literal : S {{ generators"
    )?;
    for number in 0..size {
        write!(text, " x{number}")?;
    }
    text.push_str(" : E equations")?;
    Ok(text)
}

/// All generators have one image.
fn alike(alloc: Global, size: u32) -> Result<String, AllocError> {
    let mut text = numbered(alloc, "path_equations E.k.k = E.k", size)?;
    for number in 1..size {
        write!(text, " k(x{}) = k(x{number})", number - 1)?;
    }
    text.push_str(" }")?;
    Ok(text)
}

/// Equations each of which joins two rows only once the one behind it did.
fn opposite(alloc: Global, size: u32) -> Result<String, AllocError> {
    let mut text = numbered(alloc, "", size)?;
    write!(text, " k(x{}) = x0", size.saturating_sub(1))?;
    for number in 2..size {
        let place = size - number;
        write!(text, " k(k(x{})) = x{}", place - 1, place.saturating_add(1))?;
    }
    text.push_str(" k(x0) = x1 }")?;
    Ok(text)
}

#[test]
fn many_generators_have_one_image(rt: HostRuntime) {
    let text = alike(rt.alloc(), 199_999).expect(&rt, "memory");
    let found = outcome_at(&rt, rt.alloc(), text.as_str(), 16);
    assert_eq!(rt; found, Outcome::Closed(200_000));
}

#[test]
fn equations_wait_for_later_ones(rt: HostRuntime) {
    let text = opposite(rt.alloc(), 100_000).expect(&rt, "memory");
    let found = outcome_at(&rt, rt.alloc(), text.as_str(), 16);
    assert_eq!(rt; found, Outcome::Closed(100_000));
}
