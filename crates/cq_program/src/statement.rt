//! What a declaration states and poses that passes the checks of names and parts.

use crate::imports::stating::FolderImport;
use crate::movements::stating::Moving;
use crate::transforms::stating::BrokenImages;
use cq_base::{Name, Seq};
use cq_environment::{NamedColimit, NamedEnds, NamedSchema, NamedTransform};
use cq_instance::{Instance, Transform};
use cq_lazy::LazyQuery;
use cq_mapping::Mapping;
use cq_query::Query;
use cq_theory::{Presentation, Schema, Typeside};
use std::rc::Rc;

/// What a declaration poses: a theory; a mapping or a query between schemas of printed names, whose duties are to be
/// derived; two queries that are to be composed, and a mapping whose query is wanted, between such schemas; the
/// identity of the schema of a printed name; a presentation over such a schema, whose model is to be made; an
/// instance that is to be pulled back along a mapping from such a schema, or moved along one to such a schema; an
/// instance to which a query is to be answered, or that is to be read backwards through one; instances of which a
/// coproduct or a pushout is to be made; a transform; images that don't keep an equation; or a transform that an
/// operation moves, or a unit or a counit.
#[derive(Drop)]
pub enum Statement {
    Typeside(Typeside),
    Schema(NamedSchema),
    Mapping(Name, Name, Mapping),
    Identity(Name, Rc<Schema>),
    Colimit(NamedColimit),
    Inclusion(Name, Name, Rc<Mapping>),
    Query(Name, Name, Query),
    Composite(Name, Name, Rc<LazyQuery>, Rc<LazyQuery>),
    MappingQuery(Name, Name, Rc<Mapping>),
    Presentation(Name, Rc<Schema>, Presentation),
    Delta(Name, Rc<Mapping>, Rc<Instance>),
    Sigma(Name, Rc<Mapping>, Rc<Instance>),
    Eval(Name, Rc<LazyQuery>, Rc<Instance>),
    Coeval(Name, Rc<LazyQuery>, Rc<Instance>),
    Coproduct(Name, Rc<Schema>, Seq<Rc<Instance>>),
    Pushout(NamedTransform, NamedTransform),
    Transform(NamedEnds, Transform),
    Broken(BrokenImages),
    Move(Moving),
}

/// What a declaration states whose names and parts break no rule: what it poses at once, or a folder of files that are
/// to be read.
#[derive(Drop)]
pub enum Stated {
    AtOnce(Statement),
    Folder(FolderImport),
}
