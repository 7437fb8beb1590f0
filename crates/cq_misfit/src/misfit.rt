//! What doesn't fit together in a part.
use crate::sorted::NamedSort;
use cq_base::Name;
use cq_known::Kind;
use std::alloc::AllocError;

/// The entity where a path begins, and the sort where it ends.
#[derive(Drop)]
pub struct Ends {
    pub from: NamedSort,
    pub to: NamedSort,
}

impl Ends {
    pub fn are_same(&self, other: &Ends) -> bool {
        self.from.is_same(&other.from) && self.to.is_same(&other.to)
    }
}

/// What doesn't fit together in a part. What is wanted stands before what is found, and the left side before the right.
#[derive(Drop)]
pub enum Misfit {
    /// The sides of an equation are of two sorts.
    Sides(NamedSort, NamedSort),
    /// The sides of an equation for each member of an entity are of an entity.
    Members(NamedSort),
    /// The sides of an equation of paths begin or end apart.
    Paths(Ends, Ends),
    /// A symbol is applied to something of another sort than it takes. Where it takes several arguments, this is the
    /// number of the argument, from 1.
    Argument(Name, Option<u64>, NamedSort, NamedSort),
    /// What is given for a name is of another sort.
    Given(Name, NamedSort, NamedSort),
    /// A path that is given for a name begins or ends elsewhere.
    Route(Name, Ends, Ends),
    /// A variable is said to be of another entity.
    Variable(Name, NamedSort, NamedSort),
    /// Nothing that goes from an entity is applied to a variable, whose entity isn't said.
    Loose(Name),
    /// A name of a path goes from an entity, and the path has come to another one.
    Step(Name, NamedSort, NamedSort),
    /// A foreign key or an attribute goes from an entity, and stands in the block of another one.
    Block(Name, NamedSort, Name),
    /// A name stands for something of the first kind, and something of the second is wanted.
    Kinds(Name, Kind, Kind),
}

/// Why a part is looked at no further.
#[derive(Drop)]
pub enum Halt {
    /// Something doesn't fit.
    Found(Misfit),
    /// A name isn't known.
    Lost,
    Memory,
}

impl From<AllocError> for Halt {
    fn from(_error: AllocError) -> Halt {
        Halt::Memory
    }
}
