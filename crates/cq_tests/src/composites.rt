//! Transforms that go one after the other.
use crate::given::{Keys, ent_term, instance, one};
use cq_base::Seq;
use cq_model::{Image, Instance, Transform};
use cq_theory::Value;
use cq_transform::compose;
use std::alloc::Global;
use std::process::Abort;

/// Two rows, from each of which the foreign key leads to itself.
static TWO: &str = "
    typeside T = literal { types s }
    schema S = literal : T { entities E foreign_keys k : E -> E attributes x : E -> s }
    instance I = literal : S { generators a b : E equations k(a) = a k(b) = b }";

/// Three such rows.
static THREE: &str = "
    typeside T = literal { types s }
    schema S = literal : T { entities E foreign_keys k : E -> E attributes x : E -> s }
    instance I = literal : S { generators p q r : E equations k(p) = p k(q) = q k(r) = r }";

/// The images of generators, and where rows and nulls go.
struct Way {
    images: &'static [Keys],
    rows: &'static [u32],
    nulls: &'static [u64],
}

/// From two rows to three: a to q, by its foreign key, and b to r.
static UP: Way = Way {
    images: &[(1, &[0]), (2, &[])],
    rows: &[1, 2],
    nulls: &[1, 2],
};

/// From three rows to two: p and r to a, and q to b.
static DOWN: Way = Way {
    images: &[(0, &[]), (1, &[]), (0, &[])],
    rows: &[0, 1, 0],
    nulls: &[0, 1, 0],
};

/// First up, and then down.
static UP_AND_DOWN: Way = Way {
    images: &[(1, &[0]), (0, &[])],
    rows: &[1, 0],
    nulls: &[1, 0],
};

/// First down, and then up.
static DOWN_AND_UP: Way = Way {
    images: &[(1, &[0]), (2, &[]), (1, &[0])],
    rows: &[1, 2, 1],
    nulls: &[1, 2, 1],
};

fn images(rt: &impl Abort, alloc: Global, listed: &[Keys]) -> Seq<Image> {
    let mut images = Vec::new(alloc);
    for keys in listed {
        images
            .push(Image::Row(ent_term(rt, alloc, *keys)))
            .expect(rt, "memory");
    }
    Seq::from_vec(images)
}

fn nulls(rt: &impl Abort, alloc: Global, labels: &[u64]) -> Seq<Value> {
    let mut nulls = Vec::new(alloc);
    for label in labels {
        nulls.push(Value::Null(*label)).expect(rt, "memory");
    }
    Seq::from_vec(nulls)
}

fn rows(rt: &impl Abort, alloc: Global, rows: &[u32]) -> Seq<u32> {
    Seq::from_vec(Vec::from_slice(alloc, rows).expect(rt, "memory"))
}

fn transform(rt: &impl Abort, alloc: Global, way: &Way) -> Transform {
    Transform {
        images: images(rt, alloc, way.images),
        rows: one(rt, alloc, rows(rt, alloc, way.rows)),
        nulls: nulls(rt, alloc, way.nulls),
    }
}

fn is_image(image: &Image, (generator, path): Keys) -> bool {
    match image {
        Image::Row(term) => term.generator == generator && term.path.as_slice() == path,
        Image::Value(_) => false,
    }
}

fn are_images(images: &[Image], wanted: &[Keys]) -> bool {
    if images.len() != wanted.len() {
        return false;
    }
    for (place, image) in images.iter().enumerate() {
        if !is_image(image, wanted[place]) {
            return false;
        }
    }
    true
}

fn are_rows(rows: &[Seq<u32>], wanted: &[u32]) -> bool {
    match rows {
        [rows] => rows.as_slice() == wanted,
        _ => false,
    }
}

fn is_null(value: &Value, wanted: u64) -> bool {
    match value {
        Value::Null(label) => *label == wanted,
        _ => false,
    }
}

fn are_nulls(values: &[Value], wanted: &[u64]) -> bool {
    if values.len() != wanted.len() {
        return false;
    }
    for (place, value) in values.iter().enumerate() {
        if !is_null(value, wanted[place]) {
            return false;
        }
    }
    true
}

fn goes(made: &Transform, way: &Way) -> bool {
    are_images(made.images.as_slice(), way.images)
        && are_rows(made.rows.as_slice(), way.rows)
        && are_nulls(made.nulls.as_slice(), way.nulls)
}

/// Two transforms, the instance in which the first one ends, and the one to which the second one goes from there.
#[derive(Drop)]
struct Stages {
    first: Transform,
    second: Transform,
    middle: Instance,
    last: Instance,
}

/// Two ways, and the ends of both.
type Course = ((&'static Way, &'static Way), (&'static str, &'static str));

fn stages_of(rt: &impl Abort, alloc: Global, course: Course) -> Stages {
    let (ways, ends) = course;
    Stages {
        first: transform(rt, alloc, ways.0),
        second: transform(rt, alloc, ways.1),
        middle: instance(rt, alloc, ends.0),
        last: instance(rt, alloc, ends.1),
    }
}

fn composite(rt: &impl Abort, alloc: Global, stages: &Stages) -> Transform {
    compose(
        alloc,
        &stages.first,
        &stages.second,
        &stages.middle,
        &stages.last,
    )
    .expect(rt, "memory")
}

/// Whether the one transform after the other goes this way.
fn composite_goes(rt: &impl Abort, alloc: Global, stages: &Stages, whole: &Way) -> bool {
    let made = composite(rt, alloc, stages);
    goes(&made, whole)
}

/// Whether the one way after the other is this way.
fn is_whole(rt: &impl Abort, alloc: Global, course: Course, whole: &Way) -> bool {
    let stages = stages_of(rt, alloc, course);
    composite_goes(rt, alloc, &stages, whole)
}

#[test]
fn up_and_down(rt: HostRuntime) {
    let course = ((&UP, &DOWN), (THREE, TWO));
    assert!(rt; is_whole(&rt, rt.alloc(), course, &UP_AND_DOWN));
}

#[test]
fn down_and_up(rt: HostRuntime) {
    let course = ((&DOWN, &UP), (TWO, THREE));
    assert!(rt; is_whole(&rt, rt.alloc(), course, &DOWN_AND_UP));
}
