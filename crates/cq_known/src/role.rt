//! What names stand for, and the roles in which they are used.
use cq_base::Name;

/// What a name stands for.
#[derive(Clone, Copy, Debug, PartialEq, Eq)]
pub enum Kind {
    Type,
    Entity,
    Key,
    Attribute,
    Function,
    /// A generator of an instance, or a variable.
    Generator,
    Constant,
    /// A schema that is joined.
    Part,
}

impl Kind {
    /// The kind in words, with its article.
    pub fn words(self) -> &'static str {
        match self {
            Kind::Type => "a type",
            Kind::Entity => "an entity",
            Kind::Key => "a foreign key",
            Kind::Attribute => "an attribute",
            Kind::Function => "a function",
            Kind::Generator => "a generator or a variable",
            Kind::Constant => "a constant",
            Kind::Part => "a schema that is joined",
        }
    }
}

/// On which side of a mapping, query or transform: where its terms and images are, or what it is given for. Other
/// literals have one side.
#[derive(Clone, Copy, Debug, PartialEq, Eq)]
pub enum Side {
    Terms,
    Given,
}

/// As what a name is used.
#[derive(Clone, Copy, Debug, PartialEq, Eq)]
pub enum Role {
    Type,
    Entity,
    /// A type or an entity.
    Sort,
    Key,
    Attribute,
    /// A name of a path: an entity, a foreign key or an attribute.
    Step,
    /// What is applied to arguments: a function, a foreign key or an attribute.
    Applied,
    /// A word that is a whole term: a generator, a variable or a constant.
    Leaf,
    /// A text that is a whole term: a constant.
    Text,
    Generator,
    Part,
}

impl Role {
    /// Whether a name that stands for this may be used so.
    pub fn takes(self, kind: Kind) -> bool {
        match self {
            Role::Type => kind == Kind::Type,
            Role::Entity => kind == Kind::Entity,
            Role::Sort => kind == Kind::Type || kind == Kind::Entity,
            Role::Key => kind == Kind::Key,
            Role::Attribute => kind == Kind::Attribute,
            Role::Step => kind == Kind::Entity || kind == Kind::Key || kind == Kind::Attribute,
            Role::Applied => {
                kind == Kind::Function || kind == Kind::Key || kind == Kind::Attribute
            }
            Role::Leaf => kind == Kind::Generator || kind == Kind::Constant,
            Role::Text => kind == Kind::Constant,
            Role::Generator => kind == Kind::Generator,
            Role::Part => kind == Kind::Part,
        }
    }
}

/// A name that is known.
#[derive(Drop)]
pub struct Known {
    pub kind: Kind,
    pub side: Side,
    pub name: Name,
}

/// A name that is used.
#[derive(Drop)]
pub struct Use {
    pub role: Role,
    pub side: Side,
    pub name: Name,
}

impl Use {
    /// Whether this known name is the one that is used.
    pub fn is_of(&self, known: &Known) -> bool {
        self.may_be(known) && self.name == known.name
    }

    /// Whether this known name may stand in its place.
    pub fn may_be(&self, known: &Known) -> bool {
        self.side == known.side && self.role.takes(known.kind)
    }
}
