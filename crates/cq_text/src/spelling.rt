//! The terms of a literal, each appended to what stands before it.
ghost use Rattle.std.specs.Prelude.{◌≡◌, ◌++◌, ◌<◌, true, map, length, OnOk, slice_get};
ghost use Rattle.std.specs.List.{list_all};
ghost use Rattle.cq_theory.specs.ValueText.{application_text, function_name, is_named, is_named_con, quoted};
ghost use Rattle.cq_theory.specs.ValueText.{with_commas};
ghost use Rattle.cq_text.specs.Transcript.{edge_name, IsNamedEntry};
ghost use Rattle.cq_text.specs.Literal.{applied_text, content_of, generator_text};
ghost use Rattle.cq_text.specs.Spelling.{entry_equation_line, spelled};

use crate::pieces::{push_edge_name, push_number};
use crate::plan::sum_of;
use cq_theory::value_text::{push_function_name, push_quoted};
use cq_theory::{Con, Edge, Entry, Typeside, Value};
use std::alloc::AllocError;

/// The text of a constant, without quotes: a declared one's name, or an open one's text.
pub fn content<'a>(typeside: &'a Typeside, constant: &'a Con) -> &'a [u8]
    requires { is_named_con typeside.now constant.now ≡ true }
    ensures { result.now ≡ content_of typeside.now constant.now }
{
    match constant {
        Con::Named(number) => typeside.name_of_constant(*number).as_str().as_bytes(),
        Con::Open(text) => text.as_str().as_bytes(),
    }
}

/// Appends the name of the generator with this number, from 0.
pub fn push_generator(number: u64, text: &mut Vec<u8>) -> Result<(), AllocError>
    ensures { OnOk result (text.new.items ≡ text.old.items ++ generator_text number) }
{
    let shown = sum_of(number, 1)?;
    text.extend_from_slice(b"g")?;
    push_number(shown, text)?;
    Ok(())
}

/// Appends an attribute's or a key's name, and a generator in parentheses.
pub fn push_edge_at(
    edges: &[Edge],
    edge: u32,
    generator: u64,
    text: &mut Vec<u8>,
) -> Result<(), AllocError>
    requires { edge < length edges.now }
    ensures { OnOk result (text.new.items ≡ text.old.items
        ++ applied_text (edge_name (slice_get edges.now edge)) (generator_text generator)) }
{
    push_edge_name(edges, edge, text)?;
    text.extend_from_slice(b"(")?;
    push_generator(generator, text)?;
    text.extend_from_slice(b")")?;
    Ok(())
}

/// Appends a value: a constant as a text, a null as its generator, and a function at its arguments. The generator of
/// the first null is given.
#[cycle(spell)]
pub fn push_spelled(
    typeside: &Typeside,
    first_null: u64,
    value: &Value,
    text: &mut Vec<u8>,
) -> Result<(), AllocError>
    requires { is_named typeside.now value.now ≡ true }
    ensures { OnOk result (text.new.items ≡ text.old.items ++ spelled typeside.now first_null value.now) }
{
    match value {
        Value::Const(constant) => {
            push_content(typeside, constant, text)?;
            Ok(())
        }
        Value::Null(label) => {
            push_generator(sum_of(first_null, *label)?, text)?;
            Ok(())
        }
        Value::Fun(function, args) => {
            push_spelled_application(typeside, first_null, *function, args.as_slice(), text)?;
            Ok(())
        }
    }
}

#[cycle(spell)]
fn push_spelled_application(
    typeside: &Typeside,
    first_null: u64,
    function: u32,
    args: &[Value],
    text: &mut Vec<u8>,
) -> Result<(), AllocError>
    requires known { function < length typeside.now.functions }
    requires named { list_all (is_named typeside.now) args.now ≡ true }
    ensures { OnOk result (text.new.items ≡ text.old.items
        ++ application_text (function_name (slice_get typeside.now.functions function))
        (map (spelled typeside.now first_null) args.now)) }
{
    push_function_name(typeside, function, text)?;
    text.extend_from_slice(b"(")?;
    push_spelled_args(typeside, first_null, args, text)?;
    text.extend_from_slice(b")")?;
    Ok(())
}

#[cycle(spell)]
fn push_spelled_args(
    typeside: &Typeside,
    first_null: u64,
    args: &[Value],
    text: &mut Vec<u8>,
) -> Result<(), AllocError>
    requires { list_all (is_named typeside.now) args.now ≡ true }
    ensures { OnOk result (text.new.items ≡ text.old.items
        ++ with_commas (map (spelled typeside.now first_null) args.now)) }
{
    if let Some((first, rest)) = args.split_first() {
        push_spelled(typeside, first_null, first, text)?;
        for arg in rest {
            text.extend_from_slice(b", ")?;
            push_spelled(typeside, first_null, arg, text)?;
        }
    }
    Ok(())
}

fn push_content(typeside: &Typeside, constant: &Con, text: &mut Vec<u8>) -> Result<(), AllocError>
    requires { is_named_con typeside.now constant.now ≡ true }
    ensures { OnOk result (text.new.items ≡ text.old.items ++ quoted (content_of typeside.now constant.now)) }
{
    push_quoted(content(typeside, constant), text)?;
    Ok(())
}

/// Appends the equation of an entry.
pub fn push_entry_equation(
    typeside: &Typeside,
    first_null: u64,
    entry: &Entry,
    text: &mut Vec<u8>,
) -> Result<(), AllocError>
    requires { IsNamedEntry typeside.now entry.now }
    ensures { OnOk result (text.new.items ≡ text.old.items ++ entry_equation_line typeside.now first_null entry.now) }
{
    let args = entry.args.as_slice();
    push_spelled_application(typeside, first_null, entry.function, args, text)?;
    text.extend_from_slice(b" = ")?;
    push_spelled(typeside, first_null, &entry.value, text)?;
    text.extend_from_slice(b"\n")?;
    Ok(())
}
