//! What more is known of a rule that is broken.
ghost use Rattle.std.specs.Prelude.{◌≡◌, ◌<◌, ◌≤◌, ◌^◌, ◌⊎◌, [], IfOk};
ghost use Rattle.cq_clash.specs.Clash.{TellsClash};
ghost use Rattle.cq_parts.specs.Few.{part_count};
ghost use Rattle.cq_environment.specs.Environment.{AreSettled, environment_of};
ghost use Rattle.cq_told.specs.Explained.{IsDerived};

use crate::case::Case;
use crate::folders::append_folder_faults;
use crate::limits::append_limit;
use cq_clash::{Constants, Declared, push_clash};
use cq_environment::Reason;
use cq_io::Folder;
use std::alloc::AllocError;

/// What more is known.
pub fn details_of<F: Folder>(
    case: Case<'_>,
    reason: &Reason,
    folder: &mut F,
) -> Result<Vec<u8>, AllocError>
    requires few { part_count case.decl.now.body < 2 ^ 32 }
    requires settled { AreSettled (environment_of case.env.now.names.entries) }
    requires depth { case.depth ≤ 64 }
    ensures files { (F.state folder.new).files ≡ (F.state folder.old).files }
    ensures derived { IfOk result (λ lines. IsDerived reason.now lines.items) }
{
    match reason {
        Reason::Inconsistent(least, greater) => {
            conflict_lines(case, least.as_slice(), greater.as_slice(), folder)
        }
        _ => other_lines(case, reason, folder),
    }
}

/// Why two constants become equal, if a derivation is found.
fn conflict_lines<F: Folder>(
    case: Case<'_>,
    least: &[u8],
    greater: &[u8],
    folder: &mut F,
) -> Result<Vec<u8>, AllocError>
    requires few { part_count case.decl.now.body < 2 ^ 32 }
    requires settled { AreSettled (environment_of case.env.now.names.entries) }
    ensures files { (F.state folder.new).files ≡ (F.state folder.old).files }
    ensures derived { IfOk result (λ lines. TellsClash least.now greater.now [] lines.items
        ⊎ (lines.items ≡ [])) }
{
    let declared = Declared {
        env: case.env,
        decls: case.book.program.decls.as_slice(),
        decl: case.decl,
    };
    let constants = Constants { least, greater };
    let mut lines = Vec::new(case.book.alloc);
    let _is_told = push_clash(case.book.alloc, &declared, &constants, folder, &mut lines)?;
    Ok(lines)
}

/// What more is known of the other rules.
fn other_lines<F: Folder>(
    case: Case<'_>,
    reason: &Reason,
    folder: &mut F,
) -> Result<Vec<u8>, AllocError>
    requires few { part_count case.decl.now.body < 2 ^ 32 }
    requires settled { AreSettled (environment_of case.env.now.names.entries) }
    requires depth { case.depth ≤ 64 }
    ensures files { (F.state folder.new).files ≡ (F.state folder.old).files }
{
    let mut lines = Vec::new(case.book.alloc);
    append_details(case, reason, folder, &mut lines)?;
    Ok(lines)
}

/// Appends what more is known: the faults of a folder, or why a limit is passed or an equation isn't kept.
fn append_details<F: Folder>(
    case: Case<'_>,
    reason: &Reason,
    folder: &mut F,
    out: &mut Vec<u8>,
) -> Result<(), AllocError>
    requires few { part_count case.decl.now.body < 2 ^ 32 }
    requires settled { AreSettled (environment_of case.env.now.names.entries) }
    requires depth { case.depth ≤ 64 }
    ensures { (F.state folder.new).files ≡ (F.state folder.old).files }
{
    match reason {
        Reason::NotCsv(_, _)
        | Reason::BadHeader(_)
        | Reason::BadCell(_, _, _)
        | Reason::DoubleId(_, _)
        | Reason::NoSuchId(_, _, _)
        | Reason::ManyRecords => append_folder_faults(case, folder, out),
        Reason::NotPreserved(_)
        | Reason::DutyDepth(_)
        | Reason::DutyRows(_)
        | Reason::Broken(_)
        | Reason::Depth
        | Reason::TooManyRows => append_limit(case, reason, folder, out),
        _ => Ok(()),
    }
}
