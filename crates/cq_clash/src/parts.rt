//! Of which instances a presentation is made.
ghost use Rattle.std.specs.Prelude.{◌≡◌, IfOk};
ghost use Rattle.cq_clash.specs.Clash.{Tells};

use crate::writing::{rules_named, source_named};
use cq_base::Name;
use cq_conflict::{Constants, Explained, Part, Rest, Source, push_conflict};
use cq_environment::NamedEnds;
use cq_instance::Instance;
use cq_io::Folder;
use cq_syntax::Decl;
use cq_theory::{Presentation, Schema};
use std::alloc::{AllocError, Global};

/// What is asked: which two constants are equal in what is posed over a schema, in a file of these declarations.
#[derive(Clone, Copy)]
pub struct Asked<'a> {
    pub alloc: Global,
    pub decls: &'a [Decl],
    pub constants: Constants<'a>,
    pub name: &'a Name,
    pub schema: &'a Schema,
    pub presentation: &'a Presentation,
}

/// Tells of a presentation whose equations are written at one place.
pub fn push_own<'a, F: Folder>(
    asked: &Asked<'a>,
    source: Source<'a>,
    folder: &mut F,
    text: &mut Vec<u8>,
) -> Result<bool, AllocError>
    ensures files { (F.state folder.new).files ≡ (F.state folder.old).files }
    ensures told { IfOk result (Tells asked.now.constants.least.now asked.now.constants.greater.now text.old.items
        text.new.items) }
{
    let parts = [Part {
        name: None,
        schema: asked.schema,
        presentation: asked.presentation,
        source,
    }];
    push_parts(asked, &parts, Rest::None, folder, text)
}

/// Tells of a presentation whose equations are the images of those of an instance.
pub fn push_image<F: Folder>(
    asked: &Asked,
    operand: &Name,
    instance: &Instance,
    folder: &mut F,
    text: &mut Vec<u8>,
) -> Result<bool, AllocError>
    ensures files { (F.state folder.new).files ≡ (F.state folder.old).files }
    ensures told { IfOk result (Tells asked.now.constants.least.now asked.now.constants.greater.now text.old.items
        text.new.items) }
{
    let parts = [part_of(asked, operand, instance)];
    push_parts(asked, &parts, Rest::None, folder, text)
}

/// Tells of a presentation whose equations are those of the instances where two transforms end, and then one for each
/// generator of the instance where both start.
pub fn push_glued<F: Folder>(
    asked: &Asked,
    left: &NamedEnds,
    right: &NamedEnds,
    folder: &mut F,
    text: &mut Vec<u8>,
) -> Result<bool, AllocError>
    ensures files { (F.state folder.new).files ≡ (F.state folder.old).files }
    ensures told { IfOk result (Tells asked.now.constants.least.now asked.now.constants.greater.now text.old.items
        text.new.items) }
{
    let parts = [
        part_of(asked, &left.target, &left.finish.instance),
        part_of(asked, &right.target, &right.finish.instance),
    ];
    let images = Rest::Images(&left.source, left.start.instance.presentation());
    push_parts(asked, &parts, images, folder, text)
}

/// Tells of a presentation that has these parts, and what is behind them.
pub fn push_parts<F: Folder>(
    asked: &Asked,
    parts: &[Part],
    rest: Rest,
    folder: &mut F,
    text: &mut Vec<u8>,
) -> Result<bool, AllocError>
    ensures files { (F.state folder.new).files ≡ (F.state folder.old).files }
    ensures told { IfOk result (Tells asked.now.constants.least.now asked.now.constants.greater.now text.old.items
        text.new.items) }
{
    let conflict = Explained {
        schema: asked.schema,
        presentation: asked.presentation,
        rules: rules_named(asked.decls, asked.name),
        parts,
        rest,
    };
    push_conflict(asked.alloc, &conflict, &asked.constants, folder, text)
}

/// An instance of a name as a part.
fn part_of<'a>(asked: &Asked<'a>, name: &'a Name, instance: &'a Instance) -> Part<'a> {
    let schema: &Schema = instance.schema();
    Part {
        name: Some(name),
        schema,
        presentation: instance.presentation(),
        source: source_named(asked.decls, name),
    }
}
