//! The names that a declaration uses: of theories, instances, and what goes between them.
use crate::unknown::near_among;
use cq_base::{Name, Place, Seq};
use cq_environment::{Environment, Meaning};
use cq_syntax::{Body, InstanceExp, MappingExp, MoveForm, QueryExp, SchemaExp, Spot, TransformExp};
use std::alloc::{AllocError, Global};

/// What a used name has to stand for.
#[derive(Clone, Copy, Debug, PartialEq, Eq)]
pub enum Wanted {
    Typeside,
    Schema,
    Colimit,
    Mapping,
    Query,
    Instance,
    Transform,
}

impl Wanted {
    /// The kind in words, with its article.
    pub fn words(self) -> &'static str {
        match self {
            Wanted::Typeside => "a typeside",
            Wanted::Schema => "a schema",
            Wanted::Colimit => "a schema colimit",
            Wanted::Mapping => "a mapping",
            Wanted::Query => "a query",
            Wanted::Instance => "an instance",
            Wanted::Transform => "a transform",
        }
    }

    /// Whether a name of a kind may stand here. The name of a colimit stands for its schema too.
    fn takes(self, kind: Wanted) -> bool {
        self == kind || (self == Wanted::Schema && kind == Wanted::Colimit)
    }
}

/// What a declared name stands for.
pub fn kind_of(meaning: &Meaning) -> Wanted {
    match meaning {
        Meaning::Typeside(_) => Wanted::Typeside,
        Meaning::Schema(_) => Wanted::Schema,
        Meaning::Colimit(_) => Wanted::Colimit,
        Meaning::Mapping(_, _, _) => Wanted::Mapping,
        Meaning::Query(_, _, _) => Wanted::Query,
        Meaning::Instance(_, _) => Wanted::Instance,
        Meaning::Transform(_) => Wanted::Transform,
    }
}

/// The used name at a place, and what it has to stand for.
pub fn wanted_at(body: &Body, place: Place) -> Option<(&Name, Wanted)> {
    match body {
        Body::Typeside(_) => None,
        Body::Schema(expression) => in_schema(expression, place),
        Body::Colimit(literal) => among(&literal.parts, Wanted::Schema, place).or(at(
            &literal.typeside,
            Wanted::Typeside,
            place,
        )),
        Body::Mapping(expression) => in_mapping(expression, place),
        Body::Query(expression) => in_query(expression, place),
        Body::Instance(expression) => in_instance(expression, place),
        Body::Transform(expression) => in_transform(expression, place),
    }
}

fn at(spot: &Spot, wanted: Wanted, place: Place) -> Option<(&Name, Wanted)> {
    if spot.place == place {
        Some((&spot.name, wanted))
    } else {
        None
    }
}

fn both<'a>(
    first: &'a Spot,
    first_wanted: Wanted,
    second: &'a Spot,
    second_wanted: Wanted,
    place: Place,
) -> Option<(&'a Name, Wanted)> {
    at(first, first_wanted, place).or(at(second, second_wanted, place))
}

fn among(spots: &Seq<Spot>, wanted: Wanted, place: Place) -> Option<(&Name, Wanted)> {
    for spot in spots.as_slice() {
        if spot.place == place {
            return Some((&spot.name, wanted));
        }
    }
    None
}

fn in_schema(expression: &SchemaExp, place: Place) -> Option<(&Name, Wanted)> {
    match expression {
        SchemaExp::Literal(literal) => at(&literal.typeside, Wanted::Typeside, place),
        SchemaExp::GetSchema(colimit) => at(colimit, Wanted::Colimit, place),
    }
}

fn in_mapping(expression: &MappingExp, place: Place) -> Option<(&Name, Wanted)> {
    match expression {
        MappingExp::Literal(literal) => both(
            &literal.source,
            Wanted::Schema,
            &literal.target,
            Wanted::Schema,
            place,
        ),
        MappingExp::Identity(schema) => at(schema, Wanted::Schema, place),
        MappingExp::GetMapping(colimit, part) => {
            both(colimit, Wanted::Colimit, part, Wanted::Schema, place)
        }
    }
}

fn in_query(expression: &QueryExp, place: Place) -> Option<(&Name, Wanted)> {
    match expression {
        QueryExp::Literal(literal) => both(
            &literal.source,
            Wanted::Schema,
            &literal.target,
            Wanted::Schema,
            place,
        ),
        QueryExp::Compose(first, second) => {
            both(first, Wanted::Query, second, Wanted::Query, place)
        }
        QueryExp::OfMapping(mapping) => at(mapping, Wanted::Mapping, place),
    }
}

fn in_instance(expression: &InstanceExp, place: Place) -> Option<(&Name, Wanted)> {
    match expression {
        InstanceExp::Literal(literal) => at(&literal.schema, Wanted::Schema, place),
        InstanceExp::Delta(along, moved) | InstanceExp::Sigma(along, moved) => {
            both(along, Wanted::Mapping, moved, Wanted::Instance, place)
        }
        InstanceExp::Eval(along, moved) | InstanceExp::Coeval(along, moved) => {
            both(along, Wanted::Query, moved, Wanted::Instance, place)
        }
        InstanceExp::Coproduct(parts, schema) => {
            among(parts, Wanted::Instance, place).or(at(schema, Wanted::Schema, place))
        }
        InstanceExp::Pushout(left, right) => {
            both(left, Wanted::Transform, right, Wanted::Transform, place)
        }
        InstanceExp::ImportCsv(_, schema, _) | InstanceExp::ImportCsv2(_, schema, _) => {
            at(schema, Wanted::Schema, place)
        }
    }
}

fn in_transform(expression: &TransformExp, place: Place) -> Option<(&Name, Wanted)> {
    match expression {
        TransformExp::Literal(literal) => both(
            &literal.source,
            Wanted::Instance,
            &literal.target,
            Wanted::Instance,
            place,
        ),
        TransformExp::Identity(instance) => at(instance, Wanted::Instance, place),
        TransformExp::Move(form, along, moved, start, finish) => {
            both(along, along_of(*form), moved, moved_of(*form), place).or(both(
                start,
                Wanted::Instance,
                finish,
                Wanted::Instance,
                place,
            ))
        }
    }
}

/// Along what a form moves.
fn along_of(form: MoveForm) -> Wanted {
    match form {
        MoveForm::Sigma | MoveForm::Delta | MoveForm::Unit | MoveForm::Counit => Wanted::Mapping,
        MoveForm::Eval | MoveForm::Coeval | MoveForm::UnitQuery | MoveForm::CounitQuery => {
            Wanted::Query
        }
    }
}

/// What a form moves.
fn moved_of(form: MoveForm) -> Wanted {
    match form {
        MoveForm::Sigma | MoveForm::Delta | MoveForm::Eval | MoveForm::Coeval => Wanted::Transform,
        MoveForm::Unit | MoveForm::Counit | MoveForm::UnitQuery | MoveForm::CounitQuery => {
            Wanted::Instance
        }
    }
}

/// What a name stands for among the declared ones.
pub fn known_as(env: &Environment, name: &Name) -> Option<Wanted> {
    match env.find(name) {
        Some(meaning) => Some(kind_of(meaning)),
        None => None,
    }
}

/// The nearest of the declared names that may stand where this one is used.
pub fn near_used(
    alloc: Global,
    env: &Environment,
    name: &Name,
    wanted: Wanted,
) -> Result<Option<Name>, AllocError> {
    let mut names = Vec::new(alloc);
    for (declared, bound) in env.names.iter() {
        if wanted.takes(kind_of(&bound.meaning)) {
            names.push(declared.clone()?)?;
        }
    }
    near_among(alloc, name, names.as_slice())
}
