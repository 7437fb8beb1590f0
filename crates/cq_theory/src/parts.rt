//! Parts: what the constructors of typesides, schemas, presentations, mappings and colimits take, with names that are
//! not yet looked up. The parts of a call are numbered list after list, from 0.
use cq_base::{Name, Raw, Seq};

/// The parts of a typeside: types, the name of the open type where there is one, constants with their types, and
/// functions with the types of their arguments and result.
#[derive(Drop)]
pub struct TypesideParts {
    pub types: Seq<Name>,
    pub literals: Option<Name>,
    pub constants: Seq<(Name, Name)>,
    pub functions: Seq<(Name, Seq<Name>, Name)>,
}

/// The parts of a schema. A foreign key or an attribute has its name, the entity from which it goes, and where it
/// leads.
#[derive(Drop)]
pub struct SchemaParts {
    pub entities: Seq<Name>,
    pub keys: Seq<(Name, Name, Name)>,
    pub path_eqs: Seq<(Seq<Name>, Seq<Name>)>,
    pub attributes: Seq<(Name, Name, Name)>,
    pub obs_eqs: Seq<ObsPart>,
}

/// An equation of two terms over a variable, whose entity may be left out.
#[derive(Drop)]
pub struct ObsPart {
    pub variable: Name,
    pub entity: Option<Name>,
    pub left: Raw,
    pub right: Raw,
}

/// The parts of a presentation: generators with their sorts, and equations.
#[derive(Drop)]
pub struct PresentationParts {
    pub generators: Seq<(Name, Name)>,
    pub equations: Seq<(Raw, Raw)>,
}

/// The parts of a mapping: the image of each entity, and then the images of foreign keys and attributes in the order
/// of the text.
#[derive(Drop)]
pub struct MappingParts {
    pub entities: Seq<(Name, Name)>,
    pub arrows: Seq<ArrowPart>,
}

/// The image of a foreign key or an attribute, given in the block of an entity.
#[derive(Drop)]
pub struct ArrowPart {
    pub block: Name,
    pub name: Name,
    pub image: ArrowImage,
}

/// The path to which a foreign key goes, or the path or the term to which an attribute goes. A term is over a
/// variable, whose entity may be left out.
#[derive(Drop)]
pub enum ArrowImage {
    Key(Seq<Name>),
    Path(Seq<Name>),
    Lambda(Name, Option<Name>, Raw),
}

/// What a colimit takes besides its schemas: pairs of entities that are one, each entity with the name of its schema
/// and its own name, and the added equations. The named schemas are parts before these.
#[derive(Drop)]
pub struct ColimitParts {
    pub pairs: Seq<((Name, Name), (Name, Name))>,
    pub path_eqs: Seq<(Seq<Name>, Seq<Name>)>,
    pub obs_eqs: Seq<ObsPart>,
}
