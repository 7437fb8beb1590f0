//! The parts of declarations, as they are written.
use cq_base::{Name, Place, Raw, Seq};

/// A name or a text where it stands.
#[derive(Drop)]
pub struct Spot {
    pub place: Place,
    pub name: Name,
}

/// `NAME = VALUE` among options.
#[derive(Drop)]
pub struct Opt {
    pub name: Spot,
    pub value: Spot,
}

/// A term, with the place of its first token.
#[derive(Drop)]
pub struct TermSyn {
    pub place: Place,
    pub raw: Raw,
}

/// Names with dots between them, with the place of the first.
#[derive(Drop)]
pub struct PathSyn {
    pub place: Place,
    pub names: Seq<Name>,
}

/// Names of one sort, as in `a b : E`.
#[derive(Drop)]
pub struct GroupSyn {
    pub names: Seq<Spot>,
    pub sort: Name,
}

/// Foreign keys or attributes from one sort to another, as in `f g : E -> F`.
#[derive(Drop)]
pub struct EdgeSyn {
    pub names: Seq<Spot>,
    pub from: Name,
    pub to: Name,
}

/// Functions of some types, as in `plus : n, n -> n`.
#[derive(Drop)]
pub struct FunSyn {
    pub names: Seq<Spot>,
    pub args: Seq<Name>,
    pub result: Name,
}

/// An equation of terms.
#[derive(Drop)]
pub struct EqSyn {
    pub left: TermSyn,
    pub right: TermSyn,
}

/// An equation of paths.
#[derive(Drop)]
pub struct PathEqSyn {
    pub left: PathSyn,
    pub right: PathSyn,
}

/// An equation for each member of an entity, as in `forall e : E . f(e) = g(e)`, with the place of
/// its first word. The entity may be left to be found.
#[derive(Drop)]
pub struct ObsSyn {
    pub place: Place,
    pub variable: Name,
    pub entity: Option<Name>,
    pub left: TermSyn,
    pub right: TermSyn,
}

/// Two entities of parts of a colimit that become one, as in `S.E = T.F`.
#[derive(Drop)]
pub struct PairSyn {
    pub place: Place,
    pub left: (Name, Name),
    pub right: (Name, Name),
}

/// A name and the term that is given for it, as in `x -> f(y)`.
#[derive(Drop)]
pub struct Bind {
    pub place: Place,
    pub name: Name,
    pub term: TermSyn,
}
