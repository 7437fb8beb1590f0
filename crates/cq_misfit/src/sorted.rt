//! Types and entities by their names, and symbols with the sorts of their arguments.
use cq_base::Name;
use cq_known::Kind;
use std::alloc::{AllocError, Global};

/// A type or an entity, by its name.
#[derive(Drop)]
pub struct NamedSort {
    /// That of a type, or that of an entity.
    pub kind: Kind,
    pub name: Name,
}

impl NamedSort {
    pub fn new(kind: Kind, name: &Name) -> Result<NamedSort, AllocError> {
        let name = name.clone()?;
        Ok(NamedSort { kind, name })
    }

    /// The sort once more.
    pub fn copy(&self) -> Result<NamedSort, AllocError> {
        NamedSort::new(self.kind, &self.name)
    }

    /// Whether both are one type or one entity.
    pub fn is_same(&self, other: &NamedSort) -> bool {
        self.kind == other.kind && self.name == other.name
    }
}

/// The sort with a number, among the names of its kind.
pub fn numbered_sort(
    kind: Kind,
    names: &[Name],
    number: u32,
) -> Result<Option<NamedSort>, AllocError> {
    match names.get(number as usize) {
        Some(name) => Ok(Some(NamedSort::new(kind, name)?)),
        None => Ok(None),
    }
}

/// The kind of what a foreign key or an attribute leads to.
pub fn kind_of_end(kind: Kind) -> Kind {
    match kind {
        Kind::Key => Kind::Entity,
        _ => Kind::Type,
    }
}

/// A function, a foreign key or an attribute, with the sorts that it takes and the one that it gives.
#[derive(Drop)]
pub struct Arrow {
    pub kind: Kind,
    pub name: Name,
    pub takes: Vec<NamedSort>,
    pub gives: NamedSort,
}

impl Arrow {
    /// A foreign key or an attribute.
    pub fn edge(
        alloc: Global,
        kind: Kind,
        name: &Name,
        from: NamedSort,
        to: NamedSort,
    ) -> Result<Arrow, AllocError> {
        let name = name.clone()?;
        let takes = vec![in alloc; from]?;
        Ok(Arrow {
            kind,
            name,
            takes,
            gives: to,
        })
    }

    /// The entity from which a foreign key or an attribute goes.
    pub fn source(&self) -> Option<&NamedSort> {
        match self.kind {
            Kind::Key | Kind::Attribute => self.takes.as_slice().first(),
            _ => None,
        }
    }
}
