//! The declarations of a program in order.
ghost use Rattle.std.specs.Prelude.{◌≡◌, ◌<◌, ◌≤◌, ◌^◌, ◌++◌, [], IfOk, IfErr, OnErr, OnOk, map};
ghost use Rattle.std.specs.List.{filter_map, flat_map};
ghost use Rattle.cq_import.specs.Folders.{Keeps};
ghost use Rattle.cq_parts.specs.Few.{HasFewParts, part_count};
ghost use Rattle.cq_program.specs.Program.{Declares, Follow, Means, listing_of};
ghost use Rattle.cq_environment.specs.Environment.{AreSettled, WillSettle, environment_of, meant};
ghost use Rattle.cq_program.specs.Judging.{AddsDecl, TellsDecl, TellsProgram};
ghost use Rattle.cq_program.specs.Initial.{AreInitial};
ghost use Rattle.cq_program.specs.Named.{listed_as, listings_in};
ghost use Rattle.cq_program.specs.Stop.{TellsHalt};

use crate::imports::reading::read_stated;
use crate::models::meaning_of;
use crate::stating::state;
use crate::stops::{Halt, halt_at, refusal_of};
use cq_base::{Hashing, Name};
use cq_environment::{Bound, Environment, Meaning, ProgramRefusal, moved_of};
use cq_io::Folder;
use cq_model::Instance;
use cq_syntax::{Decl, Program};
use indexmap::IndexMap;
use std::alloc::{AllocError, Global};
use std::rc::Rc;

/// An instance of a program, with its name and the name of its schema.
#[derive(Drop)]
pub struct Named {
    pub name: Name,
    pub schema: Name,
    pub instance: Rc<Instance>,
}

/// The instances of a program in order, or the first rule that a declaration breaks, at its place.
///
/// The declarations are taken in order. Each is checked in this order: its name is new (`NameTaken`), each name that it
/// uses is declared (`NameUnknown`) and of the right kind (`WrongKind`; the name of a colimit stands for its schema),
/// name by name; what the names stand for fits (`WrongSchema`): the two schemas of a mapping or a query are over one
/// typeside declaration, the parts of a colimit over the stated one, the two instances of a transform over one schema,
/// the second of two queries that are composed starts where the first ends (told at the second), and instances are over
/// the schemas that the form wants, told at the second of two ends, at the first part or operand that doesn't fit, and
/// else at the instance or the transform that is moved; a colimit has a part under the name of which the mapping is
/// wanted; two transforms that are pushed out start in one instance declaration (`NotASpan`, at the second); the ends
/// of a transform that is moved, of a unit and of a counit are declared by the operations that make them
/// (`WrongOperand`, at the start, or else at the finish); its parts break no rule (`Duplicate` to `TooLarge`, at the
/// first such part) and none is missing (`Missing`).
///
/// The parts of a colimit have at most 1,000,000 entities, foreign keys, attributes and equations (`Oversized`), and no
/// two give one name and none a name of the typeside (`NameClash`) or a name of over 255 bytes (`LongName`), in the
/// order of `cq_colimit::colimit` among the rules of parts; `NameClash` and `LongName` count parts from 1.
///
/// Then the duties of a mapping or a query literal are derived, in order: the first that isn't is not derivable
/// (`NotPreserved`), or not decided within the depth (`DutyDepth`) or with 200,000 rows (`DutyRows`). The equations of
/// the instance from which a transform goes hold in the one to which it goes (`Broken`, with the first that doesn't). A
/// composed query has at most 16,000,000 variables in a block and no term of over 1,024 symbols, a presentation that is
/// made of others at most 16,000,000 generators and no such term, and a transform that is moved, a unit and a counit no
/// such image (`Oversized`). The model of an instance has at most 200,000 rows at each depth up to the given one
/// (`TooManyRows`), closes within it (`Depth`) and makes no two constants equal (`Inconsistent`, with the texts of the
/// least such pair). A query has at most 1,000,000 answers for each entity (`TooManyAnswers`, with the first that has
/// more), and tables that are pulled back or are answers have at most 16,000,000 rows and nulls and no value of over
/// 1,024 symbols (`Oversized`).
///
/// `DutyDepth`, `DutyRows`, `Depth` and `TooManyRows` are limits and no rules: each is told only where the duty or the
/// presentation gives leave for it. Want of memory may come at any time.
///
/// An import reads its files when its turn comes, after its names and before its model is made. Each file is read and
/// tested in turn: a file that is absent, too long or can't be read ends the program (`Read`, only where the count of
/// this answer rose in this call), and the first fault in what was read is told (`NotCsv` to `ManyRecords`, as `import`
/// and `import2` of `cq_import` order them). Where the folder tells its files, all clauses speak of these; where it
/// tells none, of some files for each import.
pub fn meaning<F: Folder>(
    alloc: Global,
    program: &Program,
    folder: &mut F,
    depth: u32,
) -> Result<Vec<Named>, ProgramRefusal>
    requires few { HasFewParts program.now }
    requires depth { depth ≤ 64 }
    ensures means { IfOk result (λ named. Means (F.state folder.old).files program.now (map listed_as named.items)) }
    ensures initial { IfOk result (λ named. AreInitial (map listed_as named.items)) }
    ensures keeps { Keeps (F.state folder.old) (F.state folder.new) }
    ensures refused { IfErr result (TellsProgram depth (F.state folder.old) (F.state folder.new) program.now) }
{
    match meaning_or_stop(alloc, program, folder, depth) {
        Ok(named) => Ok(named),
        Err(halt) => Err(refusal_of(halt)),
    }
}

/// The same, with the names before the declaration that is refused.
pub fn meaning_or_stop<F: Folder>(
    alloc: Global,
    program: &Program,
    folder: &mut F,
    depth: u32,
) -> Result<Vec<Named>, Halt>
    requires few { HasFewParts program.now }
    requires depth { depth ≤ 64 }
    ensures means { IfOk result (λ named. Means (F.state folder.old).files program.now (map listed_as named.items)) }
    ensures initial { IfOk result (λ named. AreInitial (map listed_as named.items)) }
    ensures keeps { Keeps (F.state folder.old) (F.state folder.new) }
    ensures refused { IfErr result (TellsHalt depth (F.state folder.old) (F.state folder.new) program.now) }
{
    let env = declare_all(alloc, program, folder, depth)?;
    let named = instances_of(alloc, env)?;
    Ok(named)
}

/// What all names stand for.
fn declare_all<F: Folder>(
    alloc: Global,
    program: &Program,
    folder: &mut F,
    depth: u32,
) -> Result<Environment, Halt>
    requires few { HasFewParts program.now }
    requires depth { depth ≤ 64 }
    ensures follows { IfOk result (λ env. Follow (F.state folder.old).files [] program.now.decls
        (environment_of env.names.entries)) }
    ensures settled { IfOk result (λ env. AreSettled (environment_of env.names.entries)) }
    ensures keeps { Keeps (F.state folder.old) (F.state folder.new) }
    ensures refused { IfErr result (TellsHalt depth (F.state folder.old) (F.state folder.new) program.now) }
{
    let mut env = Environment::new(alloc);
    let mut number = 0;
    for decl in program.decls.as_slice() {
        match declare(alloc, &mut env, decl, folder, depth) {
            Ok(()) => number += 1,
            Err(refusal) => return Err(halt_at(env, number, refusal)),
        }
    }
    Ok(env)
}

/// Adds the name of a declaration, with what it stands for, or tells the first rule that it breaks; then each name
/// stands for what it stood for. The query that the declaration uses is made first.
fn declare<F: Folder>(
    alloc: Global,
    env: &mut Environment,
    decl: &Decl,
    folder: &mut F,
    depth: u32,
) -> Result<(), ProgramRefusal>
    requires few { part_count decl.now.body < 2 ^ 32 }
    requires settled { AreSettled (environment_of env.old.names.entries) }
    requires depth { depth ≤ 64 }
    ensures declares { OnOk result (AddsDecl (F.state folder.old).files
        (environment_of env.old.names.entries) decl.now (environment_of env.new.names.entries)) }
    ensures settled { OnOk result (AreSettled (environment_of env.new.names.entries)) }
    ensures unchanged { OnErr result (environment_of env.new.names.entries ≡ environment_of env.old.names.entries) }
    ensures keeps { Keeps (F.state folder.old) (F.state folder.new) }
    ensures refused { IfErr result (TellsDecl depth (F.state folder.old) (F.state folder.new)
        (environment_of env.old.names.entries) decl.now) }
{
    env.make_used(alloc, &decl.body)?;
    let name = decl.name.clone()?;
    let moved = moved_of(&decl.body)?;
    let meaning = judge(alloc, env, decl, folder, depth)?;
    env.add(alloc, name, Bound { meaning, moved })?;
    Ok(())
}

/// What a declaration stands for.
fn judge<F: Folder>(
    alloc: Global,
    env: &Environment,
    decl: &Decl,
    folder: &mut F,
    depth: u32,
) -> Result<Meaning, ProgramRefusal>
    requires few { part_count decl.now.body < 2 ^ 32 }
    requires settled { AreSettled (environment_of env.now.names.entries) }
    requires depth { depth ≤ 64 }
    ensures declares { IfOk result (λ meaning. Declares (F.state folder.old).files
        (environment_of env.now.names.entries) decl.now (meant meaning)) }
    ensures settled { IfOk result (λ meaning. WillSettle (environment_of env.now.names.entries) decl.now.name
        (meant meaning)) }
    ensures keeps { Keeps (F.state folder.old) (F.state folder.new) }
    ensures refused { IfErr result (TellsDecl depth (F.state folder.old) (F.state folder.new)
        (environment_of env.now.names.entries) decl.now) }
{
    let stated = state(alloc, env, decl)?;
    let statement = read_stated(alloc, decl.place, stated, folder)?;
    meaning_of(alloc, decl.place, statement, depth)
}

/// The instances among the declared names.
fn instances_of(alloc: Global, env: Environment) -> Result<Vec<Named>, AllocError>
    ensures { IfOk result (λ named. map listed_as named.items ≡ filter_map listing_of
        (environment_of env.names.entries)) }
{
    let named = take_instances(alloc, env.into_names())?;
    Ok(named)
}

fn take_instances(
    alloc: Global,
    names: IndexMap<Name, Box<Bound>, Hashing>,
) -> Result<Vec<Named>, AllocError>
    ensures { IfOk result (λ named. map listed_as named.items ≡ flat_map listings_in names.entries) }
{
    let mut named = Vec::new(alloc);
    for (name, bound) in names {
        push_instance(&mut named, name, bound)?;
    }
    Ok(named)
}

fn push_instance(named: &mut Vec<Named>, name: Name, bound: Box<Bound>) -> Result<(), AllocError>
    ensures { OnOk result (map listed_as named.new.items
        ≡ map listed_as named.old.items ++ listings_in (name, bound)) }
{
    let bound = Box::into_inner(bound);
    match bound.into_meaning() {
        Meaning::Instance(schema, instance) => {
            named.push(Named {
                name,
                schema,
                instance,
            })?;
            Ok(())
        }
        _ => Ok(()),
    }
}
