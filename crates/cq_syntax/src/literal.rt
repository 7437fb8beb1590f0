//! Literals: declarations that are written out.
use crate::part::{
    Bind, EdgeSyn, EqSyn, FunSyn, GroupSyn, ObsSyn, Opt, PairSyn, PathEqSyn, PathSyn, Spot, TermSyn,
};
use cq_base::{Name, Place, Seq};

/// A typeside: types, the open type if there is one, constants and functions. Of the open type every
/// text is a constant.
#[derive(Drop)]
pub struct TypesideLit {
    pub types: Seq<Spot>,
    pub literals: Option<Spot>,
    pub constants: Seq<GroupSyn>,
    pub functions: Seq<FunSyn>,
    pub options: Seq<Opt>,
}

/// A schema over a typeside.
#[derive(Drop)]
pub struct SchemaLit {
    pub typeside: Spot,
    pub entities: Seq<Spot>,
    pub keys: Seq<EdgeSyn>,
    pub path_eqs: Seq<PathEqSyn>,
    pub attributes: Seq<EdgeSyn>,
    pub obs_eqs: Seq<ObsSyn>,
    pub options: Seq<Opt>,
}

/// A colimit of schemas, which are its parts.
#[derive(Drop)]
pub struct ColimitLit {
    pub parts: Seq<Spot>,
    pub typeside: Spot,
    pub pairs: Seq<PairSyn>,
    pub path_eqs: Seq<PathEqSyn>,
    pub obs_eqs: Seq<ObsSyn>,
    pub options: Seq<Opt>,
}

/// The path to which a mapping sends a foreign key.
#[derive(Drop)]
pub struct KeyImage {
    pub place: Place,
    pub name: Name,
    pub image: PathSyn,
}

/// To what a mapping sends an attribute: a path, or a term in a variable of an entity, which may be
/// left to be found.
#[derive(Drop)]
pub enum AttSyn {
    Path(PathSyn),
    Lambda(Name, Option<Name>, TermSyn),
}

/// An attribute and to what a mapping sends it.
#[derive(Drop)]
pub struct AttImage {
    pub place: Place,
    pub name: Name,
    pub image: AttSyn,
}

/// To what a mapping sends an entity, its foreign keys and its attributes.
#[derive(Drop)]
pub struct MapBlock {
    pub place: Place,
    pub entity: Name,
    pub image: Name,
    pub keys: Seq<KeyImage>,
    pub attributes: Seq<AttImage>,
}

/// A mapping from a schema to a schema.
#[derive(Drop)]
pub struct MappingLit {
    pub source: Spot,
    pub target: Spot,
    pub blocks: Seq<MapBlock>,
    pub options: Seq<Opt>,
}

/// A foreign key of a query's target, and the terms for the variables of the block where it ends.
#[derive(Drop)]
pub struct QueryKey {
    pub place: Place,
    pub name: Name,
    pub assigns: Seq<Bind>,
}

/// What a query gives for an entity of its target.
#[derive(Drop)]
pub struct QueryBlock {
    pub place: Place,
    pub entity: Name,
    pub vars: Seq<GroupSyn>,
    pub tests: Seq<EqSyn>,
    pub attributes: Seq<Bind>,
    pub keys: Seq<QueryKey>,
}

/// A query from a schema to a schema.
#[derive(Drop)]
pub struct QueryLit {
    pub source: Spot,
    pub target: Spot,
    pub blocks: Seq<QueryBlock>,
    pub options: Seq<Opt>,
}

/// An instance by generators and equations.
#[derive(Drop)]
pub struct InstanceLit {
    pub schema: Spot,
    pub generators: Seq<GroupSyn>,
    pub equations: Seq<EqSyn>,
    pub options: Seq<Opt>,
}

/// A transform from an instance to an instance.
#[derive(Drop)]
pub struct TransformLit {
    pub source: Spot,
    pub target: Spot,
    pub images: Seq<Bind>,
    pub options: Seq<Opt>,
}
