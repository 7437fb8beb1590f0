//! What a declaration poses, once more.
ghost use Rattle.std.specs.Prelude.{◌≡◌, ◌<◌, ◌^◌, IfOk, IfSome};
ghost use Rattle.cq_parts.specs.Few.{part_count};
ghost use Rattle.cq_environment.specs.Environment.{AreSettled, environment_of};
ghost use Rattle.cq_program.specs.Posing.{IsPosed, IsStated};

use crate::case::Case;
use cq_environment::ProgramRefusal;
use cq_io::Folder;
use cq_program::{Stated, Statement, read_stated, state};
use std::alloc::AllocError;

/// What a declaration states, if its names and parts break no rule.
pub fn stated_again(case: Case<'_>) -> Result<Option<Stated>, AllocError>
    requires few { part_count case.decl.now.body < 2 ^ 32 }
    requires settled { AreSettled (environment_of case.env.now.names.entries) }
    ensures { IfOk result (λ stated. IfSome stated IsStated) }
{
    match state(case.book.alloc, case.env, case.decl) {
        Ok(stated) => Ok(Some(stated)),
        Err(ProgramRefusal::Memory) => Err(AllocError),
        Err(_) => Ok(None),
    }
}

/// What a declaration poses, if its names, parts and files break no rule.
pub fn posed_again<F: Folder>(
    case: Case<'_>,
    folder: &mut F,
) -> Result<Option<Statement>, AllocError>
    requires few { part_count case.decl.now.body < 2 ^ 32 }
    requires settled { AreSettled (environment_of case.env.now.names.entries) }
    ensures files { (F.state folder.new).files ≡ (F.state folder.old).files }
    ensures posed { IfOk result (λ statement. IfSome statement IsPosed) }
{
    match stated_again(case)? {
        Some(stated) => posed_by(case, stated, folder),
        None => Ok(None),
    }
}

/// What is posed once the files are read.
fn posed_by<F: Folder>(
    case: Case<'_>,
    stated: Stated,
    folder: &mut F,
) -> Result<Option<Statement>, AllocError>
    requires { IsStated stated }
    ensures files { (F.state folder.new).files ≡ (F.state folder.old).files }
    ensures posed { IfOk result (λ statement. IfSome statement IsPosed) }
{
    match read_stated(case.book.alloc, case.decl.place, stated, folder) {
        Ok(statement) => Ok(Some(statement)),
        Err(ProgramRefusal::Memory) => Err(AllocError),
        Err(_) => Ok(None),
    }
}
