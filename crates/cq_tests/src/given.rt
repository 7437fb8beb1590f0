//! Theories and presentations over them, read from texts of the language.
ghost use Rattle.std.specs.Prelude.{IfOk};
ghost use Rattle.cq_theory.specs.Presentation.{IsPresentation};

use cq_base::Seq;
use cq_lex::lex;
use cq_model::{Instance, build};
use cq_parse::parse;
use cq_parts::{instance_parts, schema_parts, typeside_parts};
use cq_syntax::{Body, InstanceExp, InstanceLit, Program, SchemaExp, SchemaLit, TypesideLit};
use cq_theory::{
    EntTerm, Path, Presentation, PresentationParts, Schema, SchemaParts, TheoryRefusal, Typeside,
    TypesideParts,
};
use std::alloc::Global;
use std::process::Abort;
use std::rc::Rc;

/// A generator, and the foreign keys that are followed from it.
pub(crate) type Keys = (u32, &'static [u32]);

/// The most parts of each kind of a typeside and of a schema.
const FEW: usize = 99;

/// The most generators, and the most equations, of an instance.
const MANY: usize = 1_000_000;

/// A schema with a presentation over it.
#[derive(Drop)]
pub(crate) struct Given {
    pub(crate) schema: Rc<Schema>,
    pub(crate) presentation: Presentation,
}

/// A list of one item.
pub(crate) fn one<T: Drop>(rt: &impl Abort, alloc: Global, item: T) -> Seq<T> {
    let mut items = Vec::new(alloc);
    items.push(item).expect(rt, "memory");
    Seq::from_vec(items)
}

/// The program of a text.
fn program(rt: &impl Abort, alloc: Global, text: &[u8]) -> Program {
    assert!(rt; text.len() <= 1 << 23);
    let tokens = lex(alloc, text).ok().expect(rt, "tokens");
    parse(alloc, tokens.as_slice()).ok().expect(rt, "a program")
}

/// The first typeside of a program.
fn typeside_literal(program: &Program) -> Option<&TypesideLit> {
    for decl in program.decls.as_slice() {
        if let Body::Typeside(literal) = &decl.body {
            return Some(literal);
        }
    }
    None
}

/// The first schema of a program.
fn schema_literal(program: &Program) -> Option<&SchemaLit> {
    for decl in program.decls.as_slice() {
        if let Body::Schema(SchemaExp::Literal(literal)) = &decl.body {
            return Some(literal);
        }
    }
    None
}

/// The first instance of a program.
fn instance_literal(program: &Program) -> Option<&InstanceLit> {
    for decl in program.decls.as_slice() {
        if let Body::Instance(InstanceExp::Literal(literal)) = &decl.body {
            return Some(literal);
        }
    }
    None
}

/// The typeside of these parts, if they are few.
fn new_typeside(alloc: Global, parts: TypesideParts) -> Result<Typeside, TheoryRefusal> {
    if parts.types.len() > FEW || parts.constants.len() > FEW || parts.functions.len() > FEW {
        return Err(TheoryRefusal::Memory);
    }
    Typeside::new(alloc, parts)
}

fn typeside(rt: &impl Abort, alloc: Global, program: &Program) -> Rc<Typeside> {
    let literal = typeside_literal(program).expect(rt, "a typeside");
    let parts = typeside_parts(alloc, literal).expect(rt, "memory");
    let made = new_typeside(alloc, parts).expect(rt, "a typeside");
    Rc::new(alloc, made).expect(rt, "memory")
}

/// The schema of these parts, if they are few.
fn new_schema(
    alloc: Global,
    typeside: Rc<Typeside>,
    parts: SchemaParts,
) -> Result<Schema, TheoryRefusal> {
    if parts.entities.len() > FEW || parts.keys.len() > FEW || parts.path_eqs.len() > FEW {
        return Err(TheoryRefusal::Memory);
    }
    if parts.attributes.len() > FEW || parts.obs_eqs.len() > FEW {
        return Err(TheoryRefusal::Memory);
    }
    Schema::new(alloc, typeside, parts)
}

/// The first schema of a program, over its first typeside.
fn schema(rt: &impl Abort, alloc: Global, program: &Program) -> Rc<Schema> {
    let literal = schema_literal(program).expect(rt, "a schema");
    let parts = schema_parts(alloc, literal).expect(rt, "memory");
    let made = new_schema(alloc, typeside(rt, alloc, program), parts).expect(rt, "a schema");
    Rc::new(alloc, made).expect(rt, "memory")
}

/// The presentation of these parts, if they aren't too many.
fn new_presentation(
    alloc: Global,
    schema: &Schema,
    parts: PresentationParts,
) -> Result<Presentation, TheoryRefusal>
    ensures { IfOk result (λ made. IsPresentation schema.now made) }
{
    if parts.generators.len() > MANY || parts.equations.len() > MANY {
        return Err(TheoryRefusal::Memory);
    }
    Presentation::new(alloc, schema, parts)
}

/// The first instance of a program, as a presentation over a schema.
fn presentation(rt: &impl Abort, alloc: Global, schema: &Schema, program: &Program) -> Presentation
    ensures { IsPresentation schema.now result }
{
    let literal = instance_literal(program).expect(rt, "an instance");
    let parts = instance_parts(alloc, literal).expect(rt, "memory");
    new_presentation(alloc, schema, parts).expect(rt, "a presentation")
}

/// The schema and the presentation of a program.
fn given_by(rt: &impl Abort, alloc: Global, program: &Program) -> Given
    ensures { IsPresentation result.schema.value result.presentation }
{
    let schema = schema(rt, alloc, program);
    let presentation = presentation(rt, alloc, &schema, program);
    Given {
        schema,
        presentation,
    }
}

/// The first schema and the first instance of a text.
pub(crate) fn given_in(rt: &impl Abort, alloc: Global, text: &str) -> Given
    ensures { IsPresentation result.schema.value result.presentation }
{
    let program = program(rt, alloc, text.as_bytes());
    given_by(rt, alloc, &program)
}

/// The instance of a text.
pub(crate) fn instance(rt: &impl Abort, alloc: Global, text: &str) -> Instance {
    let Given {
        schema,
        presentation,
    } = given_in(rt, alloc, text);
    build(alloc, schema, presentation, 8)
        .ok()
        .expect(rt, "an instance")
}

pub(crate) fn ent_term(rt: &impl Abort, alloc: Global, (generator, path): Keys) -> EntTerm {
    let path = Path::from_slice(alloc, path).expect(rt, "memory");
    EntTerm { generator, path }
}
