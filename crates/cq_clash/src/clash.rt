//! Why two constants of a declared instance are equal.
ghost use Rattle.std.specs.Prelude.{◌≡◌, ◌<◌, ◌^◌, IfOk};
ghost use Rattle.cq_clash.specs.Clash.{Tells};
ghost use Rattle.cq_parts.specs.Few.{part_count};
ghost use Rattle.cq_environment.specs.Environment.{AreSettled, environment_of};
ghost use Rattle.cq_environment.specs.Environment.{transform_meant};
ghost use Rattle.cq_program.specs.Posing.{AreSpan, IsPosed};

use crate::parts::{Asked, push_glued, push_image, push_own, push_parts};
use crate::writing::source_of;
use cq_base::Name;
use cq_conflict::{Constants, Rest};
use cq_environment::{Environment, NamedTransform, ProgramRefusal};
use cq_instance::{Instance, Transform};
use cq_io::Folder;
use cq_lazy::LazyQuery;
use cq_mapping::Mapping;
use cq_program::{Statement, read_stated, state};
use cq_push::pushout_presentation;
use cq_syntax::{Body, Decl, InstanceExp};
use cq_theory::{Presentation, Schema, SizeRefusal};
use std::alloc::{AllocError, Global};

/// A declaration that is refused, with what the names before it stand for, and the declarations of its file.
#[derive(Clone, Copy)]
pub struct Declared<'a> {
    pub env: &'a Environment,
    pub decls: &'a [Decl],
    pub decl: &'a Decl,
}

/// Appends why the two constants are equal which have these texts, and tells whether it does: it doesn't where the
/// declaration is none of an instance that is made of a presentation, or where no derivation is found.
pub fn push_clash<F: Folder>(
    alloc: Global,
    declared: &Declared,
    constants: &Constants,
    folder: &mut F,
    text: &mut Vec<u8>,
) -> Result<bool, AllocError>
    requires few { part_count declared.now.decl.now.body < 2 ^ 32 }
    requires settled { AreSettled (environment_of declared.now.env.now.names.entries) }
    ensures files { (F.state folder.new).files ≡ (F.state folder.old).files }
    ensures told { IfOk result (Tells constants.now.least.now constants.now.greater.now text.old.items
        text.new.items) }
{
    match posed(alloc, declared, folder) {
        Ok(statement) => push_posed(alloc, declared, &statement, constants, folder, text),
        Err(ProgramRefusal::Memory) => Err(AllocError),
        Err(_) => Ok(false),
    }
}

/// Tells of what is posed.
fn push_posed<F: Folder>(
    alloc: Global,
    declared: &Declared,
    statement: &Statement,
    constants: &Constants,
    folder: &mut F,
    text: &mut Vec<u8>,
) -> Result<bool, AllocError>
    requires posed { IsPosed statement.now }
    ensures files { (F.state folder.new).files ≡ (F.state folder.old).files }
    ensures told { IfOk result (Tells constants.now.least.now constants.now.greater.now text.old.items
        text.new.items) }
{
    let Body::Instance(expression) = &declared.decl.body else {
        return Ok(false);
    };
    let told = Told {
        alloc,
        decls: declared.decls,
        constants: *constants,
        expression,
    };
    match statement {
        Statement::Presentation(name, schema, presentation) => {
            let asked = told.asked(name, schema, presentation);
            push_own(&asked, source_of(expression), folder, text)
        }
        Statement::Sigma(name, mapping, instance) => {
            push_sigma(&told, name, mapping, instance, folder, text)
        }
        Statement::Coeval(name, query, instance) => {
            push_coeval(&told, name, query, instance, folder, text)
        }
        Statement::Pushout(left, right) => push_pushout(&told, left, right, folder, text),
        _ => Ok(false),
    }
}

/// What is told: which two constants are equal in the instance that stands behind the `=` of a declaration.
#[derive(Clone, Copy)]
struct Told<'a> {
    alloc: Global,
    decls: &'a [Decl],
    constants: Constants<'a>,
    expression: &'a InstanceExp,
}

impl<'a> Told<'a> {
    /// What is asked of a presentation over a schema that is printed under a name.
    fn asked(self, name: &'a Name, schema: &'a Schema, presentation: &'a Presentation) -> Asked<'a>
        ensures { result.constants ≡ self.entry.constants }
    {
        Asked {
            alloc: self.alloc,
            decls: self.decls,
            constants: self.constants,
            name,
            schema,
            presentation,
        }
    }
}

/// Tells of the image of a presentation under a mapping.
fn push_sigma<F: Folder>(
    told: &Told,
    name: &Name,
    mapping: &Mapping,
    instance: &Instance,
    folder: &mut F,
    text: &mut Vec<u8>,
) -> Result<bool, AllocError>
    requires { instance.now.schema ≡ mapping.now.source }
    ensures files { (F.state folder.new).files ≡ (F.state folder.old).files }
    ensures told { IfOk result (Tells told.now.constants.least.now told.now.constants.greater.now text.old.items
        text.new.items) }
{
    let InstanceExp::Sigma(_, operand) = told.expression else {
        return Ok(false);
    };
    match mapping.sigma_presentation(told.alloc, instance.presentation()) {
        Ok(presentation) => {
            let asked = told.asked(name, &mapping.target, &presentation);
            push_image(&asked, &operand.name, instance, folder, text)
        }
        Err(SizeRefusal::Memory) => Err(AllocError),
        Err(SizeRefusal::TooLarge) => Ok(false),
    }
}

/// Tells of what a query that is read backwards makes of an instance.
fn push_coeval<F: Folder>(
    told: &Told,
    name: &Name,
    query: &LazyQuery,
    instance: &Instance,
    folder: &mut F,
    text: &mut Vec<u8>,
) -> Result<bool, AllocError>
    requires { instance.now.schema ≡ query.now.target }
    ensures files { (F.state folder.new).files ≡ (F.state folder.old).files }
    ensures told { IfOk result (Tells told.now.constants.least.now told.now.constants.greater.now text.old.items
        text.new.items) }
{
    let InstanceExp::Coeval(_, operand) = told.expression else {
        return Ok(false);
    };
    let query = query.query(told.alloc)?;
    match query.coeval_presentation(told.alloc, instance.sheet(), instance.algebra()) {
        Ok(presentation) => {
            let asked = told.asked(name, &query.source, &presentation);
            push_parts(&asked, &[], Rest::Rows(&operand.name), folder, text)
        }
        Err(SizeRefusal::Memory) => Err(AllocError),
        Err(SizeRefusal::TooLarge) => Ok(false),
    }
}

/// Tells of the instances where two transforms end, glued along the instance where both start.
fn push_pushout<F: Folder>(
    told: &Told,
    left: &NamedTransform,
    right: &NamedTransform,
    folder: &mut F,
    text: &mut Vec<u8>,
) -> Result<bool, AllocError>
    requires { AreSpan (transform_meant left.now) (transform_meant right.now) }
    ensures files { (F.state folder.new).files ≡ (F.state folder.old).files }
    ensures told { IfOk result (Tells told.now.constants.least.now told.now.constants.greater.now text.old.items
        text.new.items) }
{
    let first: &Transform = &left.transform;
    let second: &Transform = &right.transform;
    let lefts: &Instance = &left.ends.finish.instance;
    let rights: &Instance = &right.ends.finish.instance;
    match pushout_presentation(told.alloc, first, second, lefts, rights) {
        Ok(presentation) => {
            let start = &left.ends.start;
            let asked = told.asked(&start.schema, start.instance.schema(), &presentation);
            push_glued(&asked, &left.ends, &right.ends, folder, text)
        }
        Err(SizeRefusal::Memory) => Err(AllocError),
        Err(SizeRefusal::TooLarge) => Ok(false),
    }
}

/// What the declaration poses.
fn posed<F: Folder>(
    alloc: Global,
    declared: &Declared,
    folder: &mut F,
) -> Result<Statement, ProgramRefusal>
    requires few { part_count declared.now.decl.now.body < 2 ^ 32 }
    requires settled { AreSettled (environment_of declared.now.env.now.names.entries) }
    ensures files { (F.state folder.new).files ≡ (F.state folder.old).files }
    ensures posed { IfOk result IsPosed }
{
    match state(alloc, declared.env, declared.decl) {
        Ok(stated) => read_stated(alloc, declared.decl.place, stated, folder),
        Err(refusal) => Err(refusal),
    }
}
