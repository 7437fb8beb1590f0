//! What is noted of a told step: where its equation comes from, or from which lines it follows.
use crate::places::{push_name, push_place};
use crate::rows::Line;
use crate::sources::{Explained, Rest, Rules, Source};
use crate::told::Told;
use crate::written::{push_original, push_written};
use cq_base::{Place, Seq};
use cq_explain::push_ordinal;
use cq_origin::{PartPlace, observation_place, part_of, path_equation_place};
use cq_steps::{Rule, Step};
use std::alloc::{AllocError, Global};

/// What notes are made from besides the steps: how many equations each part has, the lines of the records behind cited
/// generators of each part, and the line of each step that is told.
#[derive(Clone, Copy)]
pub struct Noting<'a> {
    pub explained: &'a Explained<'a>,
    pub lengths: &'a [u64],
    pub lines: &'a [Vec<Line>],
    pub numbers: &'a [Option<u64>],
}

/// For each step its line, from 0, where it is told.
pub fn numbers_of(
    alloc: Global,
    count: usize,
    told: &[Told],
) -> Result<Vec<Option<u64>>, AllocError> {
    let mut numbers = vec![in alloc; None; count]?;
    for (line, one) in told.iter().enumerate() {
        if let Some(place) = numbers.get_mut(one.step as usize) {
            *place = Some(line as u64);
        }
    }
    Ok(numbers)
}

/// What is noted of each told step.
pub fn notes_of(
    alloc: Global,
    noting: &Noting,
    steps: &[Step],
    told: &[Told],
) -> Result<Vec<Seq<u8>>, AllocError> {
    let mut notes = Vec::with_capacity(alloc, told.len())?;
    for one in told {
        let mut text = Vec::new(alloc);
        if let Some(step) = steps.get(one.step as usize) {
            push_note(noting, step, one.from.as_slice(), &mut text)?;
        }
        notes.push(Seq::from_vec(text))?;
    }
    Ok(notes)
}

/// Appends what is noted of a step that cites others.
fn push_note(
    noting: &Noting,
    step: &Step,
    from: &[u64],
    text: &mut Vec<u8>,
) -> Result<(), AllocError> {
    let rules = noting.explained.rules;
    match &step.rule {
        Rule::Given(number) => push_given(noting, *number, text),
        Rule::Path(number, _) => {
            let place = match rules.literal {
                Some(literal) => path_equation_place(literal, *number),
                None => None,
            };
            push_rule(rules, b"path equation ", *number, place, text)
        }
        Rule::Obs(number, _) => {
            let place = match rules.literal {
                Some(literal) => observation_place(literal, *number),
                None => None,
            };
            push_rule(rules, b"observation equation ", *number, place, text)
        }
        _ => push_from(noting.numbers, from, text),
    }
}

/// Appends which equation of the schema is used, and its place.
fn push_rule(
    rules: Rules,
    word: &[u8],
    number: u32,
    place: Option<Place>,
    text: &mut Vec<u8>,
) -> Result<(), AllocError> {
    text.extend_from_slice(word)?;
    push_ordinal(u64::from(number), text)?;
    text.extend_from_slice(b" of ")?;
    push_name(rules.name, text)?;
    if let Some(place) = place {
        text.extend_from_slice(b", ")?;
        push_place(place, text)?;
    }
    Ok(())
}

/// Appends where an equation of the presentation comes from.
fn push_given(noting: &Noting, number: u64, text: &mut Vec<u8>) -> Result<(), AllocError> {
    match part_of(noting.lengths, number) {
        Some(place) => push_in_part(noting, place, text),
        None => push_rest(noting, number, text),
    }
}

/// Appends where an equation of a part comes from: the name of the part, and the equation there, if it is an image, and
/// where it is written.
fn push_in_part(noting: &Noting, place: PartPlace, text: &mut Vec<u8>) -> Result<(), AllocError> {
    let parts = noting.explained.parts;
    let Some(part) = parts.get(place.part) else {
        return Ok(());
    };
    if let Some(name) = part.name {
        push_name(name, text)?;
        if parts.len() == 1 {
            text.extend_from_slice(b": ")?;
            push_original(part, place.place, text)?;
        }
        if !matches!(part.source, Source::Unknown) {
            text.extend_from_slice(b", ")?;
        }
    }
    let lines = match noting.lines.get(place.part) {
        Some(lines) => lines.as_slice(),
        None => &[],
    };
    push_written(part, lines, place.place, text)
}

/// Appends where an equation behind those of the parts comes from.
fn push_rest(noting: &Noting, number: u64, text: &mut Vec<u8>) -> Result<(), AllocError> {
    match noting.explained.rest {
        Rest::None => Ok(()),
        Rest::Images(name, presentation) => {
            let place = number.saturating_sub(sum(noting.lengths));
            text.extend_from_slice(b"the two images of ")?;
            if let Some(generator) = presentation.generators.as_slice().get(place as usize) {
                push_name(&generator.0, text)?;
            }
            text.extend_from_slice(b" of ")?;
            push_name(name, text)
        }
        Rest::Rows(name) => {
            text.extend_from_slice(b"what the query says of the rows of ")?;
            push_name(name, text)
        }
    }
}

/// The sum of some numbers.
fn sum(lengths: &[u64]) -> u64 {
    let mut sum: u64 = 0;
    for length in lengths {
        sum = sum.saturating_add(*length);
    }
    sum
}

/// Appends the lines from which a step follows.
fn push_from(numbers: &[Option<u64>], from: &[u64], text: &mut Vec<u8>) -> Result<(), AllocError> {
    for (place, step) in from.iter().enumerate() {
        text.extend_from_slice(word_before(place, from.len()))?;
        if let Some(Some(line)) = numbers.get(*step as usize) {
            push_ordinal(*line, text)?;
        }
    }
    Ok(())
}

/// What stands before a number of so many.
fn word_before(place: usize, count: usize) -> &'static [u8] {
    if place == 0 {
        b"from "
    } else if place == count.saturating_sub(1) {
        b" and "
    } else {
        b", "
    }
}
