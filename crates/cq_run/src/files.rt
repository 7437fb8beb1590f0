//! The files of instances.
ghost use Rattle.std.specs.Prelude.{◌≡◌, ◌++◌, map, string_bytes, IfOk, OnOk};
ghost use Rattle.cq_export.specs.Held.{files_held};
ghost use Rattle.cq_io.specs.Content.{file_of};
ghost use Rattle.cq_program.specs.Named.{listed_as};
ghost use Rattle.cq_run.specs.Files.{cql_files, csv_files, files_of, literal_name};

use cq_base::Name;
use cq_export::FileLists;
use cq_program::Named;
use cq_text::literal;
use std::alloc::{AllocError, Global};

/// The files of instances, instance by instance.
#[tactic(auto, unfolding(crate::specs::Files::files_of))]
pub fn files_of(alloc: Global, instances: &[Named]) -> Result<FileLists, AllocError>
    ensures { IfOk result (λ lists. files_held lists ≡ files_of (map listed_as instances.now)) }
{
    let mut lists = FileLists::new(alloc);
    for named in instances {
        push_files(alloc, named, &mut lists)?;
    }
    Ok(lists)
}

/// Appends the files of an instance, to the list of each format.
fn push_files(alloc: Global, named: &Named, lists: &mut FileLists) -> Result<(), AllocError>
    ensures csv { OnOk result (map file_of lists.new.csv.items ≡ map file_of lists.old.csv.items
        ++ csv_files (listed_as named.now)) }
    ensures cql { OnOk result (map file_of lists.new.cql.items ≡ map file_of lists.old.cql.items
        ++ cql_files (listed_as named.now)) }
{
    // The literal is the longest text, and finds the most room where it is made first.
    push_cql(alloc, named, &mut lists.cql)?;
    push_csv(alloc, named, &mut lists.csv)?;
    Ok(())
}

/// Appends the files of comma-separated values.
fn push_csv(
    alloc: Global,
    named: &Named,
    files: &mut Vec<(String, Vec<u8>)>,
) -> Result<(), AllocError>
    ensures { OnOk result (map file_of files.new.items ≡ map file_of files.old.items
        ++ csv_files (listed_as named.now)) }
{
    let mut own = cq_csv::files(alloc, &named.name, &named.instance)?;
    files.append(&mut own)?;
    Ok(())
}

/// Appends the file of the literal.
fn push_cql(
    alloc: Global,
    named: &Named,
    files: &mut Vec<(String, Vec<u8>)>,
) -> Result<(), AllocError>
    ensures { OnOk result (map file_of files.new.items ≡ map file_of files.old.items
        ++ cql_files (listed_as named.now)) }
{
    let name = literal_name(alloc, &named.name)?;
    let text = literal(alloc, &named.name, &named.schema, &named.instance)?;
    files.push((name, text))?;
    Ok(())
}

/// The name of the literal's file.
fn literal_name(alloc: Global, instance: &Name) -> Result<String, AllocError>
    ensures { IfOk result (λ name. string_bytes name ≡ literal_name instance.now) }
{
    let mut name = String::from_str(alloc, instance.as_str())?;
    name.push_str(".cql")?;
    Ok(name)
}
