//! Declarations and programs.
use crate::literal::{
    ColimitLit, InstanceLit, MappingLit, QueryLit, SchemaLit, TransformLit, TypesideLit,
};
use crate::part::{Opt, Spot};
use cq_base::{Name, Place, Seq};

/// What stands behind the `=` of a schema.
#[derive(Drop)]
pub enum SchemaExp {
    Literal(SchemaLit),
    GetSchema(Spot),
}

/// What stands behind the `=` of a mapping.
#[derive(Drop)]
pub enum MappingExp {
    Literal(MappingLit),
    Identity(Spot),
    GetMapping(Spot, Spot),
}

/// What stands behind the `=` of a query.
#[derive(Drop)]
pub enum QueryExp {
    Literal(QueryLit),
    Compose(Spot, Spot),
    OfMapping(Spot),
}

/// What stands behind the `=` of an instance.
#[derive(Drop)]
pub enum InstanceExp {
    Literal(InstanceLit),
    Delta(Spot, Spot),
    Sigma(Spot, Spot),
    Eval(Spot, Spot),
    Coeval(Spot, Spot),
    Coproduct(Seq<Spot>, Spot),
    Pushout(Spot, Spot),
    ImportCsv(Name, Spot, Seq<Opt>),
    ImportCsv2(Name, Spot, Seq<Opt>),
}

/// By which operation a transform is moved, or of which two operations it is the unit or the counit: `Unit` and
/// `Counit` of sigma and delta, `UnitQuery` and `CounitQuery` of coeval and eval.
#[derive(Clone, Copy)]
pub enum MoveForm {
    Sigma,
    Delta,
    Eval,
    Coeval,
    Unit,
    Counit,
    UnitQuery,
    CounitQuery,
}

/// What stands behind the `=` of a transform. A move has the name of a mapping or a query, that of the transform or the
/// instance that is moved, and those of the two instances between which it goes.
#[derive(Drop)]
pub enum TransformExp {
    Literal(TransformLit),
    Identity(Spot),
    Move(MoveForm, Spot, Spot, Spot, Spot),
}

/// What a declaration declares.
#[derive(Drop)]
pub enum Body {
    Typeside(TypesideLit),
    Schema(SchemaExp),
    Colimit(ColimitLit),
    Mapping(MappingExp),
    Query(QueryExp),
    Instance(InstanceExp),
    Transform(TransformExp),
}

/// A declaration, with the place of its first word and that of its name.
#[derive(Drop)]
pub struct Decl {
    pub place: Place,
    pub name: Name,
    pub name_place: Place,
    pub body: Body,
}

/// The options and the declarations of a file.
#[derive(Drop)]
pub struct Program {
    pub options: Seq<Opt>,
    pub decls: Seq<Decl>,
}
