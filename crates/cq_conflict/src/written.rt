//! Where the equations of a part are written.
use crate::places::{push_cell, push_name, push_place, push_row};
use crate::rows::{Line, line_of};
use crate::sources::{Files, Part, Source};
use cq_base::Name;
use cq_explain::push_equation;
use cq_origin::{cell_of, equation_place};
use cq_syntax::InstanceLit;
use cq_theory::{Equation, TypeTerm};
use std::alloc::AllocError;

/// Appends the place of an equation of a literal.
fn push_literal(literal: &InstanceLit, number: u64, text: &mut Vec<u8>) -> Result<(), AllocError> {
    match equation_place(literal, number) {
        Some(place) => push_place(place, text),
        None => Ok(()),
    }
}

/// Appends where a cell of a folder stands; an equation that is none of a cell is one of the file of entries.
fn push_in_files(
    files: Files,
    lines: &[Line],
    equation: &Equation,
    text: &mut Vec<u8>,
) -> Result<(), AllocError> {
    match cell_of(files.schema, files.presentation, equation) {
        Some(place) => {
            let line = line_of(lines, left_generator(equation));
            push_cell(files, place, line, text)
        }
        None => {
            push_name(files.dir, text)?;
            text.extend_from_slice(b"/entries-2.csv")?;
            Ok(())
        }
    }
}

/// The generator of the left side of an equation that a cell says.
pub fn left_generator(equation: &Equation) -> u32 {
    match equation {
        Equation::Ent(left, _) => left.generator,
        Equation::Typ(TypeTerm::Att(_, at), _) => at.generator,
        Equation::Typ(_, _) => u32::MAX,
    }
}

/// Appends in which row of tables an equation holds; one that is none of a cell is one of a function's values.
fn push_in_tables(part: &Part, equation: &Equation, text: &mut Vec<u8>) -> Result<(), AllocError> {
    match cell_of(part.schema, part.presentation, equation) {
        Some(place) => push_row(part.schema, place, text),
        None => {
            text.extend_from_slice(b"a value of a function")?;
            Ok(())
        }
    }
}

/// Appends where an equation of a part is written.
pub fn push_written(
    part: &Part,
    lines: &[Line],
    number: u64,
    text: &mut Vec<u8>,
) -> Result<(), AllocError> {
    let Some(equation) = part.presentation.equations.as_slice().get(number as usize) else {
        return Ok(());
    };
    match part.source {
        Source::Literal(literal) => push_literal(literal, number, text),
        Source::Folder(dir) => push_in_files(files_of(part, dir), lines, equation, text),
        Source::Tables => push_in_tables(part, equation, text),
        Source::Unknown => Ok(()),
    }
}

/// The files of a part.
pub fn files_of<'a>(part: &Part<'a>, dir: &'a Name) -> Files<'a> {
    Files {
        dir,
        schema: part.schema,
        presentation: part.presentation,
    }
}

/// Appends the equation of a part of another name, where it may look otherwise there.
pub fn push_original(part: &Part, number: u64, text: &mut Vec<u8>) -> Result<(), AllocError> {
    if let Some(equation) = part.presentation.equations.as_slice().get(number as usize) {
        push_equation(part.schema, part.presentation, equation, text)?;
    }
    Ok(())
}
