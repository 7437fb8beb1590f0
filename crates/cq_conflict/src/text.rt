//! The lines of a derivation that is told.
ghost use Rattle.std.specs.Prelude.{◌≡◌, ◌++◌, OnOk, slice_get};
ghost use Rattle.cq_conflict.specs.Text.{line_of, note_at, step_text, told_lines};

use crate::chains::step_at;
use crate::told::Told;
use cq_base::Seq;
use cq_explain::{push_equation, push_ordinal};
use cq_steps::Step;
use cq_theory::{Presentation, Schema};
use std::alloc::AllocError;

/// What lines are made of besides the told steps: the schema and the presentation by whose names terms are shown, the
/// steps of the derivation, and what is noted of each line.
#[derive(Clone, Copy)]
pub struct Shown<'a> {
    pub schema: &'a Schema,
    pub presentation: &'a Presentation,
    pub steps: &'a [Step],
    pub notes: &'a [Seq<u8>],
}

/// Appends the equation of the step of a number.
fn push_step(shown: &Shown, number: u64, text: &mut Vec<u8>) -> Result<(), AllocError>
    ensures { OnOk result (text.new.items ≡ text.old.items
        ++ step_text shown.now.schema.now shown.now.presentation.now (slice_get shown.now.steps.now number)) }
{
    match step_at(shown.steps, number) {
        Some(step) => push_equation(shown.schema, shown.presentation, &step.equation, text),
        None => Ok(()),
    }
}

/// Appends what is noted of a line.
fn push_note(notes: &[Seq<u8>], line: usize, text: &mut Vec<u8>) -> Result<(), AllocError>
    ensures { OnOk result (text.new.items ≡ text.old.items ++ note_at notes.now line) }
{
    match notes.get(line) {
        Some(note) => text.extend_from_slice(note.as_slice()),
        None => Ok(()),
    }
}

/// Appends the line of a told step, which has this number, from 0: its number from 1, its equation, and what is noted
/// of it.
fn push_line(shown: &Shown, line: usize, one: &Told, text: &mut Vec<u8>) -> Result<(), AllocError>
    ensures { OnOk result (text.new.items ≡ text.old.items
        ++ line_of shown.now.schema.now shown.now.presentation.now shown.now.steps.now shown.now.notes.now
        (line, one.now)) }
{
    text.extend_from_slice(b"  ")?;
    push_ordinal(line as u64, text)?;
    text.extend_from_slice(b". ")?;
    push_step(shown, one.step, text)?;
    text.extend_from_slice(b"    ")?;
    push_note(shown.notes, line, text)?;
    text.extend_from_slice(b"\n")?;
    Ok(())
}

/// Appends a line for each told step, with what is noted of it.
pub fn push_told(shown: &Shown, told: &[Told], text: &mut Vec<u8>) -> Result<(), AllocError>
    ensures { OnOk result (text.new.items ≡ text.old.items
        ++ told_lines shown.now.schema.now shown.now.presentation.now shown.now.steps.now shown.now.notes.now
        told.now) }
{
    for (line, one) in told.iter().enumerate() {
        push_line(shown, line, one, text)?;
    }
    Ok(())
}
