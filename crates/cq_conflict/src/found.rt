//! What is found in the files of the parts: the lines of cited records, and the names by which generators are told.
ghost use Rattle.std.specs.Prelude.{◌≡◌};

use crate::cited::{cited_generators, push_sides};
use crate::labels::labels_of_parts;
use crate::rows::{Label, Line, Rows, find_rows};
use crate::sources::{Explained, Part, Source};
use crate::told::Told;
use crate::written::files_of;
use cq_io::Folder;
use cq_origin::part_of;
use cq_steps::{Rule, Step};
use std::alloc::{AllocError, Global};

/// What is told: steps over a presentation, which of them are told, and how many equations each part has.
#[derive(Clone, Copy)]
pub struct Telling<'a> {
    pub explained: &'a Explained<'a>,
    pub steps: &'a [Step],
    pub told: &'a [Told],
    pub lengths: &'a [u64],
}

/// What is found of the parts: the lines of cited records, part by part, and the labels of generators.
#[derive(Drop)]
pub struct Found {
    pub lines: Vec<Vec<Line>>,
    pub labels: Vec<Label>,
}

/// How many equations each part has.
pub fn equation_counts(alloc: Global, parts: &[Part]) -> Result<Vec<u64>, AllocError> {
    let mut lengths = Vec::new(alloc);
    for part in parts {
        lengths.push(part.presentation.equations.len() as u64)?;
    }
    Ok(lengths)
}

/// The generators in the equations of a part that told steps give, each once, rising.
fn cited_in_part(
    alloc: Global,
    explained: &Explained,
    lengths: &[u64],
    number: usize,
    steps: &[Step],
    told: &[Told],
) -> Result<Vec<u32>, AllocError> {
    let mut cited = Vec::new(alloc);
    for one in told {
        push_cited(
            explained,
            lengths,
            number,
            steps.get(one.step as usize),
            &mut cited,
        )?;
    }
    cited.sort_unstable();
    cited.dedup();
    Ok(cited)
}

/// Appends the generators of the equation that a step gives, if that is one of this part.
fn push_cited(
    explained: &Explained,
    lengths: &[u64],
    number: usize,
    step: Option<&Step>,
    cited: &mut Vec<u32>,
) -> Result<(), AllocError> {
    let Some(step) = step else {
        return Ok(());
    };
    let Rule::Given(given) = &step.rule else {
        return Ok(());
    };
    let Some(place) = part_of(lengths, *given) else {
        return Ok(());
    };
    if place.part != number {
        return Ok(());
    }
    let Some(part) = explained.parts.get(number) else {
        return Ok(());
    };
    match part
        .presentation
        .equations
        .as_slice()
        .get(place.place as usize)
    {
        Some(equation) => push_sides(equation, cited),
        None => Ok(()),
    }
}

/// The records of a part's files behind these generators.
fn rows_of_part<F: Folder>(
    alloc: Global,
    part: &Part,
    cited: &[u32],
    folder: &mut F,
) -> Result<Rows, AllocError>
    ensures files { (F.state folder.new).files ≡ (F.state folder.old).files }
{
    match part.source {
        Source::Folder(dir) => find_rows(alloc, files_of(part, dir), cited, folder),
        Source::Literal(_) => Ok(Rows::new(alloc)),
        Source::Tables => Ok(Rows::new(alloc)),
        Source::Unknown => Ok(Rows::new(alloc)),
    }
}

/// What is found of one part, added to what is found of those before it.
fn add_part<F: Folder>(
    alloc: Global,
    part: &Part,
    cited: &[u32],
    folder: &mut F,
    found: &mut Found,
) -> Result<(), AllocError>
    ensures files { (F.state folder.new).files ≡ (F.state folder.old).files }
{
    let Rows { labels, lines } = rows_of_part(alloc, part, cited, folder)?;
    found.lines.push(lines)?;
    if part.name.is_none() {
        found.labels = labels;
    }
    Ok(())
}

/// The generators for whose records the files of a part are read: those of all told equations, where the part is what
/// is explained, and else those of its own equations that are given.
fn wanted_of_part(
    alloc: Global,
    telling: &Telling,
    number: usize,
    part: &Part,
) -> Result<Vec<u32>, AllocError> {
    if part.name.is_none() {
        return cited_generators(alloc, telling.steps, telling.told);
    }
    cited_in_part(
        alloc,
        telling.explained,
        telling.lengths,
        number,
        telling.steps,
        telling.told,
    )
}

/// The lines of cited records and the labels of generators.
pub fn find_parts<F: Folder>(
    alloc: Global,
    telling: &Telling,
    folder: &mut F,
) -> Result<Found, AllocError>
    ensures files { (F.state folder.new).files ≡ (F.state folder.old).files }
{
    let mut found = Found {
        lines: Vec::new(alloc),
        labels: Vec::new(alloc),
    };
    for (number, part) in telling.explained.parts.iter().enumerate() {
        let cited = wanted_of_part(alloc, telling, number, part)?;
        add_part(alloc, part, cited.as_slice(), folder, &mut found)?;
    }
    Ok(found)
}

/// The labels of generators: those of records, or of several parts.
pub fn labels_in(
    alloc: Global,
    telling: &Telling,
    found: Vec<Label>,
) -> Result<Vec<Label>, AllocError> {
    let parts = telling.explained.parts;
    if parts.len() < 2 {
        return Ok(found);
    }
    let cited = cited_generators(alloc, telling.steps, telling.told)?;
    labels_of_parts(alloc, parts, cited.as_slice())
}
