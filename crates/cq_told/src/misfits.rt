//! What doesn't fit in a part, or would stand twice, in a line below the sentence.
use crate::case::Case;
use crate::page::append_line;
use crate::texts::{name_text, number_text, one, three, two};
use cq_base::Name;
use cq_known::Kind;
use cq_misfit::{
    DoubleName, Ends, Misfit, NamedSort, double_name, miscounted_in_part, missorted_in_part,
};
use std::alloc::{AllocError, Global};

/// Appends which symbol is applied to another number of arguments than it takes, if it is found.
pub fn append_miscounted(case: Case<'_>, out: &mut Vec<u8>) -> Result<(), AllocError> {
    let alloc = case.book.alloc;
    let Some(found) = miscounted_in_part(alloc, case.env, &case.decl.body, case.place)? else {
        return Ok(());
    };
    let name = name_text(alloc, &found.name)?;
    let takes = count_text(alloc, found.takes)?;
    let has = number_text(alloc, found.has)?;
    let texts = three(alloc, name, takes, has)?;
    append_line(alloc, "  # takes #, and has # here.", texts.as_slice(), out)
}

/// How many arguments there are.
fn count_text(alloc: Global, count: u64) -> Result<Vec<u8>, AllocError> {
    let mut text = number_text(alloc, count)?;
    text.extend_from_slice(b" argument")?;
    if count != 1 {
        text.extend_from_slice(b"s")?;
    }
    Ok(text)
}

/// Appends which sorts don't fit together, if they are found.
pub fn append_missorted(case: Case<'_>, out: &mut Vec<u8>) -> Result<(), AllocError> {
    let alloc = case.book.alloc;
    match missorted_in_part(alloc, case.env, &case.decl.body, case.place)? {
        Some(misfit) => {
            let texts = misfit_texts(alloc, &misfit)?;
            append_line(alloc, misfit_line(&misfit), texts.as_slice(), out)
        }
        None => Ok(()),
    }
}

fn misfit_line(misfit: &Misfit) -> &'static str {
    match misfit {
        Misfit::Sides(_, _) => "  The left side is of #, and the right side of #.",
        Misfit::Members(_) => "  Both sides are of #, and here they are to be of a type.",
        Misfit::Paths(_, _) => "  The left side goes #, and the right side #.",
        Misfit::Argument(_, _, _, _) => "  # is to be of #, and is of #.",
        Misfit::Given(_, _, _) => "  What is given for # is to be of #, and is of #.",
        Misfit::Route(_, _, _) => "  What is given for # is to go #, and goes #.",
        Misfit::Variable(_, _, _) => "  The variable # is to be of #, and is said to be of #.",
        Misfit::Loose(_) => {
            "  No foreign key or attribute is applied to the variable # alone, so its entity isn't known."
        }
        Misfit::Step(_, _, _) => "  The name # goes from #, and the path before it ends at #.",
        Misfit::Block(_, _, _) => "  The name # goes from #, and stands in the block of #.",
        Misfit::Kinds(_, _, _) => "  The name # stands for #, and here # is wanted.",
    }
}

/// The texts that the line names.
fn misfit_texts(alloc: Global, misfit: &Misfit) -> Result<Vec<Vec<u8>>, AllocError> {
    match misfit {
        Misfit::Sides(left, right) => {
            two(alloc, sort_text(alloc, left)?, sort_text(alloc, right)?)
        }
        Misfit::Members(sort) => one(alloc, sort_text(alloc, sort)?),
        Misfit::Paths(left, right) => {
            two(alloc, ends_text(alloc, left)?, ends_text(alloc, right)?)
        }
        Misfit::Argument(symbol, number, wanted, found) => {
            let subject = argument_text(alloc, symbol, *number)?;
            with_sorts(alloc, subject, wanted, found)
        }
        Misfit::Given(name, first, second)
        | Misfit::Variable(name, first, second)
        | Misfit::Step(name, first, second) => {
            with_sorts(alloc, name_text(alloc, name)?, first, second)
        }
        Misfit::Route(name, wanted, found) => route_texts(alloc, name, wanted, found),
        Misfit::Loose(name) => one(alloc, name_text(alloc, name)?),
        Misfit::Block(name, from, entity) => block_texts(alloc, name, from, entity),
        Misfit::Kinds(name, found, wanted) => kinds_texts(alloc, name, *found, *wanted),
    }
}

fn with_sorts(
    alloc: Global,
    subject: Vec<u8>,
    first: &NamedSort,
    second: &NamedSort,
) -> Result<Vec<Vec<u8>>, AllocError> {
    let first = sort_text(alloc, first)?;
    let second = sort_text(alloc, second)?;
    three(alloc, subject, first, second)
}

fn route_texts(
    alloc: Global,
    name: &Name,
    wanted: &Ends,
    found: &Ends,
) -> Result<Vec<Vec<u8>>, AllocError> {
    let name = name_text(alloc, name)?;
    let wanted = ends_text(alloc, wanted)?;
    let found = ends_text(alloc, found)?;
    three(alloc, name, wanted, found)
}

fn block_texts(
    alloc: Global,
    name: &Name,
    from: &NamedSort,
    entity: &Name,
) -> Result<Vec<Vec<u8>>, AllocError> {
    let name = name_text(alloc, name)?;
    let from = sort_text(alloc, from)?;
    let entity = name_text(alloc, entity)?;
    three(alloc, name, from, entity)
}

fn kinds_texts(
    alloc: Global,
    name: &Name,
    found: Kind,
    wanted: Kind,
) -> Result<Vec<Vec<u8>>, AllocError> {
    let name = name_text(alloc, name)?;
    let found = Vec::from_slice(alloc, found.words().as_bytes())?;
    let wanted = Vec::from_slice(alloc, wanted.words().as_bytes())?;
    three(alloc, name, found, wanted)
}

/// A type or an entity.
fn sort_text(alloc: Global, sort: &NamedSort) -> Result<Vec<u8>, AllocError> {
    let word = match sort.kind {
        Kind::Entity => b"entity ".as_slice(),
        _ => b"type ".as_slice(),
    };
    let mut text = Vec::from_slice(alloc, word)?;
    let name = name_text(alloc, &sort.name)?;
    text.extend_from_slice(name.as_slice())?;
    Ok(text)
}

/// From where to where a path goes.
fn ends_text(alloc: Global, ends: &Ends) -> Result<Vec<u8>, AllocError> {
    let from = sort_text(alloc, &ends.from)?;
    let to = sort_text(alloc, &ends.to)?;
    let mut text = Vec::from_slice(alloc, b"from ")?;
    text.extend_from_slice(from.as_slice())?;
    text.extend_from_slice(b" to ")?;
    text.extend_from_slice(to.as_slice())?;
    Ok(text)
}

/// Which argument of a symbol, where it takes several.
fn argument_text(alloc: Global, symbol: &Name, number: Option<u64>) -> Result<Vec<u8>, AllocError> {
    let mut text = match number {
        Some(number) => numbered_text(alloc, number)?,
        None => Vec::from_slice(alloc, b"The argument")?,
    };
    let name = name_text(alloc, symbol)?;
    text.extend_from_slice(b" of ")?;
    text.extend_from_slice(name.as_slice())?;
    Ok(text)
}

fn numbered_text(alloc: Global, number: u64) -> Result<Vec<u8>, AllocError> {
    let mut text = Vec::from_slice(alloc, b"Argument ")?;
    let number = number_text(alloc, number)?;
    text.extend_from_slice(number.as_slice())?;
    Ok(text)
}

/// Appends which joined name the schemas with these numbers give, if it is found.
pub fn append_double_name(
    case: Case<'_>,
    first: u32,
    second: u32,
    out: &mut Vec<u8>,
) -> Result<(), AllocError> {
    let alloc = case.book.alloc;
    match double_name(alloc, case.env, &case.decl.body, first, second)? {
        Some(found) => append_givers(alloc, &found, out),
        None => Ok(()),
    }
}

fn append_givers(alloc: Global, found: &DoubleName, out: &mut Vec<u8>) -> Result<(), AllocError> {
    let first = name_text(alloc, &found.first)?;
    let name = name_text(alloc, &found.name)?;
    match &found.second {
        Some(second) => {
            let second = name_text(alloc, second)?;
            let texts = three(alloc, first, second, name)?;
            append_line(alloc, "  Both # and # give #.", texts.as_slice(), out)
        }
        None => {
            let texts = two(alloc, first, name)?;
            append_line(
                alloc,
                "  The schema # gives #, and the typeside has that name too.",
                texts.as_slice(),
                out,
            )
        }
    }
}
