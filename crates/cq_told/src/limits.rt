//! Rows that go on or are too many, duties that aren't met, and images that don't keep an equation.
ghost use Rattle.std.specs.Prelude.{◌≡◌, ◌<◌, ◌≤◌, ◌^◌};
ghost use Rattle.cq_parts.specs.Few.{part_count};
ghost use Rattle.cq_environment.specs.Environment.{AreSettled, environment_of};
ghost use Rattle.cq_program.specs.Posing.{IsPosed};
ghost use Rattle.cq_theory.specs.Presentation.{IsPresentation};

use crate::case::Case;
use crate::posed::posed_again;
use cq_environment::Reason;
use cq_io::Folder;
use cq_mapping::Mapping;
use cq_program::{BrokenImages, Statement};
use cq_query::Query;
use cq_theory::{Presentation, Schema};
use cq_unmet::{Asked, append_duty, append_underivable, mapping_duty, query_duty};
use cq_witness::{Ends, append_broken, append_depth, append_rows};
use std::alloc::{AllocError, Global};
use std::rc::Rc;

/// Appends what is known of what a declaration poses that passes a limit, or isn't kept.
pub fn append_limit<F: Folder>(
    case: Case<'_>,
    reason: &Reason,
    folder: &mut F,
    out: &mut Vec<u8>,
) -> Result<(), AllocError>
    requires few { part_count case.decl.now.body < 2 ^ 32 }
    requires settled { AreSettled (environment_of case.env.now.names.entries) }
    requires depth { case.depth ≤ 64 }
    ensures { (F.state folder.new).files ≡ (F.state folder.old).files }
{
    match posed_again(case, folder)? {
        Some(statement) => {
            let told = Told {
                alloc: case.book.alloc,
                depth: case.depth,
                reason,
            };
            append_posed(told, &statement, out)
        }
        None => Ok(()),
    }
}

/// Why something is told, with the depth to which models are made.
#[derive(Clone, Copy)]
struct Told<'a> {
    alloc: Global,
    depth: u32,
    reason: &'a Reason,
}

fn append_posed(told: Told<'_>, statement: &Statement, out: &mut Vec<u8>) -> Result<(), AllocError>
    requires posed { IsPosed statement.now }
    requires depth { told.depth ≤ 64 }
{
    match statement {
        Statement::Presentation(_, schema, presentation) => {
            append_growth(told, schema, presentation, out)
        }
        Statement::Mapping(_, _, mapping) => append_mapping_duty(told, mapping, out),
        Statement::Query(_, _, query) => append_query_duty(told, query, out),
        Statement::Broken(images) => append_images(told.alloc, images, out),
        _ => Ok(()),
    }
}

/// Appends how the rows of a presentation go on, or are too many.
fn append_growth(
    told: Told<'_>,
    schema: &Schema,
    presentation: &Presentation,
    out: &mut Vec<u8>,
) -> Result<(), AllocError>
    requires presentation { IsPresentation schema.now presentation.now }
    requires depth { told.depth ≤ 64 }
{
    match told.reason {
        Reason::Depth | Reason::DutyDepth(_) => {
            append_depth(told.alloc, out, schema, presentation, told.depth)
        }
        Reason::TooManyRows | Reason::DutyRows(_) => {
            append_rows(told.alloc, out, schema, presentation, told.depth)
        }
        _ => Ok(()),
    }
}

/// The number of the duty that a reason tells, from 0.
fn duty_number(reason: &Reason) -> Option<u64> {
    match reason {
        Reason::NotPreserved(number) | Reason::DutyDepth(number) | Reason::DutyRows(number) => {
            Some(number.saturating_sub(1))
        }
        _ => None,
    }
}

fn append_mapping_duty(
    told: Told<'_>,
    mapping: &Mapping,
    out: &mut Vec<u8>,
) -> Result<(), AllocError>
    requires { told.depth ≤ 64 }
{
    let Some(number) = duty_number(told.reason) else {
        return Ok(());
    };
    match mapping_duty(told.alloc, mapping, number)? {
        Some(asked) => append_unmet(told, &mapping.target, asked, out),
        None => Ok(()),
    }
}

fn append_query_duty(told: Told<'_>, query: &Query, out: &mut Vec<u8>) -> Result<(), AllocError>
    requires { told.depth ≤ 64 }
{
    let Some(number) = duty_number(told.reason) else {
        return Ok(());
    };
    match query_duty(told.alloc, query, number)? {
        Some(asked) => append_unmet(told, &query.source, asked, out),
        None => Ok(()),
    }
}

/// Appends a duty, and why it isn't met or decided.
fn append_unmet(
    told: Told<'_>,
    schema: &Rc<Schema>,
    asked: Asked,
    out: &mut Vec<u8>,
) -> Result<(), AllocError>
    requires presentation { IsPresentation schema.now.value asked.over }
    requires depth { told.depth ≤ 64 }
{
    append_duty(out, schema, &asked)?;
    match told.reason {
        Reason::NotPreserved(_) => {
            append_underivable(told.alloc, out, schema.clone()?, asked, told.depth)
        }
        _ => append_growth(told, schema, &asked.over, out),
    }
}

/// Appends the equation that images don't keep.
fn append_images(
    alloc: Global,
    images: &BrokenImages,
    out: &mut Vec<u8>,
) -> Result<(), AllocError> {
    let ends = Ends {
        source: &images.ends.source,
        target: &images.ends.target,
        start: &images.ends.start.instance,
        finish: &images.ends.finish.instance,
    };
    append_broken(
        alloc,
        out,
        &ends,
        images.parts.as_slice(),
        images.number.saturating_sub(1),
    )
}
