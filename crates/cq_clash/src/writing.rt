//! Where the equations of declared instances and schemas are written.
use cq_base::Name;
use cq_conflict::{Rules, Source};
use cq_syntax::{Body, Decl, InstanceExp, SchemaExp};

/// The declaration of a name.
fn decl_named<'a>(decls: &'a [Decl], name: &Name) -> Option<&'a Decl> {
    decls.iter().find(|decl| decl.name == *name)
}

/// Where the equations of an instance are written that stands behind the `=` of its declaration.
pub fn source_of(expression: &InstanceExp) -> Source<'_> {
    match expression {
        InstanceExp::Literal(literal) => Source::Literal(literal),
        InstanceExp::ImportCsv(dir, _, _) => Source::Folder(dir),
        InstanceExp::ImportCsv2(dir, _, _) => Source::Folder(dir),
        InstanceExp::Delta(_, _) => Source::Tables,
        InstanceExp::Eval(_, _) => Source::Tables,
        InstanceExp::Sigma(_, _) => Source::Unknown,
        InstanceExp::Coeval(_, _) => Source::Unknown,
        InstanceExp::Coproduct(_, _) => Source::Unknown,
        InstanceExp::Pushout(_, _) => Source::Unknown,
    }
}

/// Where the equations of the instance of this name are written.
pub fn source_named<'a>(decls: &'a [Decl], name: &Name) -> Source<'a> {
    match decl_named(decls, name) {
        Some(decl) => match &decl.body {
            Body::Instance(expression) => source_of(expression),
            _ => Source::Unknown,
        },
        None => Source::Unknown,
    }
}

/// The schema of this name, with its literal, where it has one.
pub fn rules_named<'a>(decls: &'a [Decl], name: &'a Name) -> Rules<'a> {
    let literal = match decl_named(decls, name) {
        Some(decl) => match &decl.body {
            Body::Schema(SchemaExp::Literal(literal)) => Some(literal),
            _ => None,
        },
        None => None,
    };
    Rules { name, literal }
}
