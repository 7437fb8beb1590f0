//! Where the equations of a presentation come from.
use cq_base::Name;
use cq_syntax::{InstanceLit, SchemaLit};
use cq_theory::{Presentation, Schema};

/// Where the equations of one presentation are written: in a literal of the text, in the cells of the files of a
/// folder, in the rows of tables that an operation made, or nowhere that is known.
#[derive(Clone, Copy)]
pub enum Source<'a> {
    Literal(&'a InstanceLit),
    Folder(&'a Name),
    Tables,
    Unknown,
}

/// A presentation whose equations are among those of another one, with where they are written. The name is that of its
/// instance, where it isn't the one that is explained.
#[derive(Clone, Copy)]
pub struct Part<'a> {
    pub name: Option<&'a Name>,
    pub schema: &'a Schema,
    pub presentation: &'a Presentation,
    pub source: Source<'a>,
}

/// The folder of files from which a presentation was imported, in either format.
#[derive(Clone, Copy)]
pub struct Files<'a> {
    pub dir: &'a Name,
    pub schema: &'a Schema,
    pub presentation: &'a Presentation,
}

/// What the equations behind those of the parts are: none, the two images of each generator of an instance, or what
/// a query makes of the rows of an instance.
#[derive(Clone, Copy)]
pub enum Rest<'a> {
    None,
    Images(&'a Name, &'a Presentation),
    Rows(&'a Name),
}

/// A schema by its name, and its literal, where it has one.
#[derive(Clone, Copy)]
pub struct Rules<'a> {
    pub name: &'a Name,
    pub literal: Option<&'a SchemaLit>,
}

/// What is explained: steps of a derivation over a presentation, whose equations are those of the parts, or their
/// images, one part behind the other, and then the rest.
#[derive(Clone, Copy)]
pub struct Explained<'a> {
    pub schema: &'a Schema,
    pub presentation: &'a Presentation,
    pub rules: Rules<'a>,
    pub parts: &'a [Part<'a>],
    pub rest: Rest<'a>,
}
