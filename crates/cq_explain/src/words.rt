//! The names and numbers of which an explanation is made, each appended to what stands before it.
//!
//! Each number that is looked up here is in range where the steps are a right list. Of one that isn't, the name is left
//! out.
ghost use Rattle.std.specs.Prelude.{◌≡◌, ◌+◌, ◌++◌, IfOk, OnOk, slice_get};
ghost use Rattle.cq_explain.specs.Explanation.{ordinal};
ghost use Rattle.cq_text.specs.Transcript.{edge_name, generator_name};
ghost use Rattle.cq_theory.specs.ValueText.{con_text, function_name, is_named_con};

use cq_base::Name;
use cq_text::push_number;
use cq_theory::value_text::push_con;
use cq_theory::{Con, Edge, Sort, Typeside};
use std::alloc::AllocError;

/// Appends a number that counts from 0, told from 1. One past 64 bits is told as want of memory: no list is so long.
pub fn push_ordinal(number: u64, text: &mut Vec<u8>) -> Result<(), AllocError>
    ensures { OnOk result (text.new.items ≡ text.old.items ++ ordinal number) }
{
    let told = next(number)?;
    push_number(told, text)?;
    Ok(())
}

fn next(number: u64) -> Result<u64, AllocError>
    ensures { IfOk result (λ told. told ≡ number + 1) }
{
    number.checked_add(1).ok_or(AllocError)
}

fn push_name(name: &Name, text: &mut Vec<u8>) -> Result<(), AllocError>
    ensures { OnOk result (text.new.items ≡ text.old.items ++ name.now) }
{
    text.extend_from_slice(name.as_str().as_bytes())?;
    Ok(())
}

/// Appends the name of a foreign key or an attribute.
pub fn push_edge(edges: &[Edge], number: u32, text: &mut Vec<u8>) -> Result<(), AllocError>
    ensures { OnOk result (text.new.items ≡ text.old.items ++ edge_name (slice_get edges.now number)) }
{
    match edges.get(number as usize) {
        Some(edge) => push_name(&edge.name, text),
        None => Ok(()),
    }
}

/// Appends the name of a generator.
pub fn push_generator(
    generators: &[(Name, Sort)],
    number: u32,
    text: &mut Vec<u8>,
) -> Result<(), AllocError>
    ensures { OnOk result (text.new.items ≡ text.old.items ++ generator_name (slice_get generators.now number)) }
{
    match generators.get(number as usize) {
        Some(generator) => push_name(&generator.0, text),
        None => Ok(()),
    }
}

/// Appends the name of a function.
pub fn push_function(typeside: &Typeside, number: u32, text: &mut Vec<u8>) -> Result<(), AllocError>
    ensures { OnOk result (text.new.items ≡ text.old.items
        ++ function_name (slice_get typeside.now.functions number)) }
{
    match typeside.functions.as_slice().get(number as usize) {
        Some(function) => push_name(&function.name, text),
        None => Ok(()),
    }
}

/// Whether there is such a constant.
fn is_declared(typeside: &Typeside, constant: &Con) -> bool
    ensures { result ≡ is_named_con typeside.now constant.now }
{
    match constant {
        Con::Named(number) => (*number as usize) < typeside.constants.len(),
        Con::Open(_) => true,
    }
}

/// Appends the text of a constant. Where there is no such constant, that is the empty text in quotes.
pub fn push_constant(
    typeside: &Typeside,
    constant: &Con,
    text: &mut Vec<u8>,
) -> Result<(), AllocError>
    ensures { OnOk result (text.new.items ≡ text.old.items ++ con_text typeside.now constant.now) }
{
    if is_declared(typeside, constant) {
        push_con(typeside, constant, text)?;
    } else {
        text.extend_from_slice(b"\"\"")?;
    }
    Ok(())
}
