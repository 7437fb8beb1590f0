//! Folders of files: what is stated of them.
ghost use Rattle.std.specs.Prelude.{◌≡◌, IfOk, option_map};
ghost use Rattle.cq_base.specs.declared.name.Name.{Name as TheName};
ghost use Rattle.cq_syntax.specs.declared.program.Body.TheVariants.{Instance as Instanced};
ghost use Rattle.cq_program.specs.Checks.{folder_of, folder_stated};
ghost use Rattle.cq_environment.specs.Environment.{Answers, AreSettled, environment_of};
ghost use Rattle.cq_program.specs.Posing.{IsStated, IsStatedOver, stated_as};

use crate::statement::Stated;
use cq_base::Name;
use cq_environment::{Environment, ProgramRefusal};
use cq_syntax::{Body, InstanceExp, Spot};
use cq_theory::Schema;
use std::rc::Rc;

/// The format of a folder of CSV files.
#[derive(Clone, Copy)]
pub enum Format {
    First,
    Second,
}

/// A folder of CSV files over the schema of a printed name.
#[derive(Drop)]
pub struct FolderImport {
    pub format: Format,
    pub name: Name,
    pub schema: Rc<Schema>,
    pub dir: Name,
}

/// The folder that a body names, with its format and the name of its schema.
pub fn folder_of(body: &Body) -> Option<(Format, &Name, &Spot)>
    ensures { option_map (λ found. record { format = found.0; dir = found.1.now; schema = found.2.now }) result
        ≡ folder_of body.now }
{
    match body {
        Body::Instance(expression) => folder_of_instance(expression),
        _ => None,
    }
}

fn folder_of_instance(expression: &InstanceExp) -> Option<(Format, &Name, &Spot)>
    ensures { option_map (λ found. record { format = found.0; dir = found.1.now; schema = found.2.now }) result
        ≡ folder_of (Instanced expression.now) }
{
    match expression {
        InstanceExp::ImportCsv(dir, used, _) => Some((Format::First, dir, used)),
        InstanceExp::ImportCsv2(dir, used, _) => Some((Format::Second, dir, used)),
        _ => None,
    }
}

/// A folder over the schema for which a used name stands.
pub fn state_folder(
    env: &Environment,
    format: Format,
    dir: &Name,
    used: &Spot,
) -> Result<Stated, ProgramRefusal>
    requires settled { AreSettled (environment_of env.now.names.entries) }
    ensures stated { Answers stated_as result
        (folder_stated (environment_of env.now.names.entries)
        (record { format = format; dir = dir.now; schema = used.now })) }
    ensures well_sorted { IfOk result IsStated }
    ensures grounded { (name : TheName) → IfOk result
        (λ s. IsStatedOver (environment_of env.now.names.entries) name (stated_as s)) }
{
    let over = env.schema(used)?;
    let dir = dir.clone()?;
    Ok(Stated::Folder(FolderImport {
        format,
        name: over.name,
        schema: over.schema,
        dir,
    }))
}
