//! Why two constants are equal, as it is told.
ghost use Rattle.std.specs.Prelude.{◌≡◌, ◌<◌, IfOk, OnOk, length};
ghost use Rattle.cq_conflict.specs.Telling.{Tells, TellsLines, TellsSteps};

use crate::constants::constant_of_text;
use crate::found::{Found, Telling, equation_counts, find_parts, labels_in};
use crate::labels::shown_presentation;
use crate::notes::{Noting, notes_of, numbers_of};
use crate::rows::{Label, Line};
use crate::seeking::conflict;
use crate::sources::Explained;
use crate::text::{Shown, push_told};
use crate::told::told_steps;
use cq_base::Seq;
use cq_io::Folder;
use cq_steps::Step;
use cq_theory::{Presentation, Schema, Typeside};
use std::alloc::{AllocError, Global};

/// What is noted of the told steps.
fn notes_for(
    alloc: Global,
    telling: &Telling,
    lines: &[Vec<Line>],
) -> Result<Vec<Seq<u8>>, AllocError> {
    let numbers = numbers_of(alloc, telling.steps.len(), telling.told)?;
    let noting = Noting {
        explained: telling.explained,
        lengths: telling.lengths,
        lines,
        numbers: numbers.as_slice(),
    };
    notes_of(alloc, &noting, telling.steps, telling.told)
}

/// The generators under the names by which they are told.
fn shown_for(
    alloc: Global,
    telling: &Telling,
    labels: Vec<Label>,
) -> Result<Presentation, AllocError> {
    let labels = labels_in(alloc, telling, labels)?;
    shown_presentation(alloc, telling.explained.presentation, labels.as_slice())
}

/// Appends the lines of the told steps, with generators under some names and with notes.
fn push_shown(
    telling: &Telling,
    presentation: &Presentation,
    notes: &[Seq<u8>],
    text: &mut Vec<u8>,
) -> Result<(), AllocError>
    ensures { OnOk result (TellsLines telling.now.explained.now.schema.now telling.now.steps.now telling.now.told.now
        text.old.items text.new.items) }
{
    let shown = Shown {
        schema: telling.explained.schema,
        presentation,
        steps: telling.steps,
        notes,
    };
    push_told(&shown, telling.told, text)
}

/// Appends the lines of the told steps.
fn push_lines<F: Folder>(
    alloc: Global,
    telling: &Telling,
    folder: &mut F,
    text: &mut Vec<u8>,
) -> Result<(), AllocError>
    ensures files { (F.state folder.new).files ≡ (F.state folder.old).files }
    ensures told { OnOk result (TellsLines telling.now.explained.now.schema.now telling.now.steps.now
        telling.now.told.now text.old.items text.new.items) }
{
    let Found { lines, labels } = find_parts(alloc, telling, folder)?;
    let presentation = shown_for(alloc, telling, labels)?;
    let notes = notes_for(alloc, telling, lines.as_slice())?;
    push_shown(telling, &presentation, notes.as_slice(), text)
}

/// Appends the steps that a reader needs, each in a line with its equation and where it comes from or follows from.
pub fn push_steps<F: Folder>(
    alloc: Global,
    explained: &Explained,
    steps: &[Step],
    folder: &mut F,
    text: &mut Vec<u8>,
) -> Result<(), AllocError>
    requires steps { 0 < length steps.now }
    ensures files { (F.state folder.new).files ≡ (F.state folder.old).files }
    ensures told { OnOk result (TellsSteps explained.now.schema.now steps.now text.old.items text.new.items) }
{
    let told = told_steps(alloc, steps)?;
    let lengths = equation_counts(alloc, explained.parts)?;
    let telling = Telling {
        explained,
        steps,
        told: told.as_slice(),
        lengths: lengths.as_slice(),
    };
    push_lines(alloc, &telling, folder, text)
}

/// The texts of two constants.
#[derive(Clone, Copy)]
pub struct Constants<'a> {
    pub least: &'a [u8],
    pub greater: &'a [u8],
}

/// Appends why the constants of these texts are equal, and tells whether it does: the word `Because` in a line, and the
/// lines of a derivation that the checker has passed. Where no derivation is found, the text stays as it was.
pub fn push_conflict<F: Folder>(
    alloc: Global,
    told: &Explained,
    constants: &Constants,
    folder: &mut F,
    text: &mut Vec<u8>,
) -> Result<bool, AllocError>
    ensures files { (F.state folder.new).files ≡ (F.state folder.old).files }
    ensures told { IfOk result (Tells told.now.schema.now told.now.presentation.now constants.now.least.now
        constants.now.greater.now text.old.items text.new.items) }
{
    let schema: &Schema = told.schema;
    let typeside: &Typeside = &schema.typeside;
    let Some(least) = constant_of_text(alloc, typeside, constants.least)? else {
        return Ok(false);
    };
    let Some(greater) = constant_of_text(alloc, typeside, constants.greater)? else {
        return Ok(false);
    };
    let found = conflict(
        alloc,
        schema,
        told.presentation,
        &least.constant,
        &greater.constant,
    )?;
    let Some(steps) = found else {
        return Ok(false);
    };
    text.extend_from_slice(b"Because\n")?;
    push_steps(alloc, told, steps.as_slice(), folder, text)?;
    Ok(true)
}
