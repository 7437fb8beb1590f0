//! Declared names with their sorts.
use crate::sorted::{Arrow, NamedSort, kind_of_end, numbered_sort};
use cq_base::{Name, Raw};
use cq_known::Kind;
use cq_syntax::{EdgeSyn, GroupSyn};
use cq_theory::{Edge, Presentation, Schema, Sort, Typeside};
use std::alloc::{AllocError, Global};

/// A generator, a variable or a constant, with its sort.
#[derive(Drop)]
struct Leaf {
    name: Name,
    sort: NamedSort,
}

/// Declared names with their sorts.
#[derive(Drop)]
pub struct Signature {
    sorts: Vec<NamedSort>,
    arrows: Vec<Arrow>,
    generators: Vec<Leaf>,
    constants: Vec<Leaf>,
    open_type: Option<NamedSort>,
}

impl Signature {
    pub fn new(alloc: Global) -> Signature {
        Signature {
            sorts: Vec::new(alloc),
            arrows: Vec::new(alloc),
            generators: Vec::new(alloc),
            constants: Vec::new(alloc),
            open_type: None,
        }
    }

    /// Adds the names of a typeside.
    pub fn add_typeside(&mut self, alloc: Global, typeside: &Typeside) -> Result<(), AllocError> {
        self.add_sorts(Kind::Type, typeside.types.as_slice())?;
        self.add_constants(typeside)?;
        self.add_functions(alloc, typeside)?;
        if let Some(number) = typeside.open_type {
            self.open_type = numbered_sort(Kind::Type, typeside.types.as_slice(), number)?;
        }
        Ok(())
    }

    /// Adds types or entities.
    pub fn add_sorts(&mut self, kind: Kind, names: &[Name]) -> Result<(), AllocError> {
        for name in names {
            self.add_sort(kind, name)?;
        }
        Ok(())
    }

    /// Adds a type or an entity.
    pub fn add_sort(&mut self, kind: Kind, name: &Name) -> Result<(), AllocError> {
        let sort = NamedSort::new(kind, name)?;
        self.sorts.push(sort)?;
        Ok(())
    }

    fn add_constants(&mut self, typeside: &Typeside) -> Result<(), AllocError> {
        let types = typeside.types.as_slice();
        for constant in typeside.constants.as_slice() {
            if let Some(sort) = numbered_sort(Kind::Type, types, constant.1)? {
                let name = constant.0.clone()?;
                self.constants.push(Leaf { name, sort })?;
            }
        }
        Ok(())
    }

    fn add_functions(&mut self, alloc: Global, typeside: &Typeside) -> Result<(), AllocError> {
        let types = typeside.types.as_slice();
        for function in typeside.functions.as_slice() {
            if let Some(gives) = numbered_sort(Kind::Type, types, function.result)? {
                let takes = numbered_types(alloc, types, function.args.as_slice())?;
                let name = function.name.clone()?;
                self.add_arrow(Arrow {
                    kind: Kind::Function,
                    name,
                    takes,
                    gives,
                })?;
            }
        }
        Ok(())
    }

    /// Adds a function, a foreign key or an attribute.
    pub fn add_arrow(&mut self, arrow: Arrow) -> Result<(), AllocError> {
        self.arrows.push(arrow)?;
        Ok(())
    }

    /// Adds the names of a schema and of its typeside.
    pub fn add_schema(&mut self, alloc: Global, schema: &Schema) -> Result<(), AllocError> {
        self.add_typeside(alloc, &schema.typeside)?;
        self.add_sorts(Kind::Entity, schema.entities.as_slice())?;
        self.add_edges(alloc, Kind::Key, schema, schema.keys.as_slice())?;
        self.add_edges(alloc, Kind::Attribute, schema, schema.attributes.as_slice())
    }

    fn add_edges(
        &mut self,
        alloc: Global,
        kind: Kind,
        schema: &Schema,
        edges: &[Edge],
    ) -> Result<(), AllocError> {
        for edge in edges {
            self.add_edge(alloc, kind, schema, edge)?;
        }
        Ok(())
    }

    fn add_edge(
        &mut self,
        alloc: Global,
        kind: Kind,
        schema: &Schema,
        edge: &Edge,
    ) -> Result<(), AllocError> {
        let Some(from) = sort_in(schema, Sort::Entity(edge.from))? else {
            return Ok(());
        };
        let Some(to) = sort_in(schema, end_of(kind, edge))? else {
            return Ok(());
        };
        let arrow = Arrow::edge(alloc, kind, &edge.name, from, to)?;
        self.add_arrow(arrow)
    }

    /// Adds the generators of a presentation over a schema.
    pub fn add_presentation(
        &mut self,
        schema: &Schema,
        presentation: &Presentation,
    ) -> Result<(), AllocError> {
        for generator in presentation.generators.as_slice() {
            if let Some(sort) = sort_in(schema, generator.1)? {
                self.add_generator(&generator.0, sort)?;
            }
        }
        Ok(())
    }

    /// Adds a generator or a variable.
    pub fn add_generator(&mut self, name: &Name, sort: NamedSort) -> Result<(), AllocError> {
        let name = name.clone()?;
        self.generators.push(Leaf { name, sort })?;
        Ok(())
    }

    /// Adds generators or variables where they are declared, of sorts that are added before.
    pub fn add_groups(&mut self, groups: &[GroupSyn]) -> Result<(), AllocError> {
        for group in groups {
            self.add_group(group)?;
        }
        Ok(())
    }

    fn add_group(&mut self, group: &GroupSyn) -> Result<(), AllocError> {
        let sort = match self.find_sort(&group.sort) {
            Some(sort) => sort.copy()?,
            None => return Ok(()),
        };
        for spot in group.names.as_slice() {
            self.add_generator(&spot.name, sort.copy()?)?;
        }
        Ok(())
    }

    /// Adds foreign keys or attributes where they are declared.
    pub fn add_edge_groups(
        &mut self,
        alloc: Global,
        kind: Kind,
        groups: &[EdgeSyn],
    ) -> Result<(), AllocError> {
        for group in groups {
            self.add_edge_group(alloc, kind, group)?;
        }
        Ok(())
    }

    fn add_edge_group(
        &mut self,
        alloc: Global,
        kind: Kind,
        group: &EdgeSyn,
    ) -> Result<(), AllocError> {
        for spot in group.names.as_slice() {
            let from = NamedSort::new(Kind::Entity, &group.from)?;
            let to = NamedSort::new(kind_of_end(kind), &group.to)?;
            let arrow = Arrow::edge(alloc, kind, &spot.name, from, to)?;
            self.add_arrow(arrow)?;
        }
        Ok(())
    }

    /// The type or entity of a name.
    pub fn find_sort(&self, name: &Name) -> Option<&NamedSort> {
        self.sorts.as_slice().iter().find(|sort| sort.name == *name)
    }

    /// The function, foreign key or attribute of a name.
    pub fn find_arrow(&self, name: &Name) -> Option<&Arrow> {
        self.arrows
            .as_slice()
            .iter()
            .find(|arrow| arrow.name == *name)
    }

    /// The sort of a term, by the first name in it. What it is applied to isn't looked at.
    pub fn sort_of(&self, term: &Raw) -> Option<&NamedSort> {
        match term {
            Raw::Word(name) => self.sort_of_word(name),
            Raw::Text(name) => self.sort_of_text(name),
            Raw::App(name, _) => match self.find_arrow(name) {
                Some(arrow) => Some(&arrow.gives),
                None => None,
            },
        }
    }

    /// The sort of a generator or a variable.
    pub fn sort_of_generator(&self, name: &Name) -> Option<&NamedSort> {
        sort_among(self.generators.as_slice(), name)
    }

    /// The sort of a word: a generator's where one is declared, else a constant's.
    fn sort_of_word(&self, name: &Name) -> Option<&NamedSort> {
        match self.sort_of_generator(name) {
            Some(sort) => Some(sort),
            None => sort_among(self.constants.as_slice(), name),
        }
    }

    /// The sort of a text: that of the declared constant, else the open type.
    fn sort_of_text(&self, name: &Name) -> Option<&NamedSort> {
        match sort_among(self.constants.as_slice(), name) {
            Some(sort) => Some(sort),
            None => self.open_type.as_ref(),
        }
    }
}

fn sort_among<'a>(leaves: &'a [Leaf], name: &Name) -> Option<&'a NamedSort> {
    match leaves.iter().find(|leaf| leaf.name == *name) {
        Some(leaf) => Some(&leaf.sort),
        None => None,
    }
}

/// A sort of a schema.
fn sort_in(schema: &Schema, sort: Sort) -> Result<Option<NamedSort>, AllocError> {
    match sort {
        Sort::Plain(number) => {
            numbered_sort(Kind::Type, schema.typeside.types.as_slice(), number)
        }
        Sort::Entity(number) => numbered_sort(Kind::Entity, schema.entities.as_slice(), number),
    }
}

/// To what a foreign key or an attribute leads.
fn end_of(kind: Kind, edge: &Edge) -> Sort {
    match kind {
        Kind::Key => Sort::Entity(edge.to),
        _ => Sort::Plain(edge.to),
    }
}

/// The types with these numbers.
fn numbered_types(
    alloc: Global,
    types: &[Name],
    numbers: &[u32],
) -> Result<Vec<NamedSort>, AllocError> {
    let mut made = Vec::new(alloc);
    for number in numbers {
        if let Some(sort) = numbered_sort(Kind::Type, types, *number)? {
            made.push(sort)?;
        }
    }
    Ok(made)
}
