//! One step of a derivation.
use cq_base::Seq;
use cq_theory::{EntTerm, Equation};

/// A rule of derivation, with the number of the foreign key, attribute, function or equation that it uses, and for an
/// equation of the schema the term that is put in its variable's place.
#[derive(Drop)]
pub enum Rule {
    Reflexivity,
    Symmetry,
    Transitivity,
    Key(u32),
    Attribute(u32),
    Function(u32),
    Given(u64),
    Path(u32, EntTerm),
    Obs(u32, EntTerm),
}

/// An equation, with the rule by which it follows, and the numbers of the earlier steps, from 0, whose equations are
/// the rule's premises in their order.
#[derive(Drop)]
pub struct Step {
    pub rule: Rule,
    pub from: Seq<u64>,
    pub equation: Equation,
}
