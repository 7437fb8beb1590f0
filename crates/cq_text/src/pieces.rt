//! Small texts of which a transcript is made, each appended to what stands before it.
ghost use Rattle.std.specs.Prelude.{◌≡◌, ◌++◌, ◌+◌, ◌<◌, ◌^◌, ◌∷◌, true, decimal, codes, length, map, OnOk, slice_get};
ghost use Rattle.std.specs.Prelude.{All};
ghost use Rattle.std.specs.List.{flat_map};
ghost use Rattle.cq_theory.specs.ValueText.{value_text, is_named};
ghost use Rattle.cq_text.specs.Transcript.{name_text, step_text, field_text, heading, null_line, entry_line, edge_name};
ghost use Rattle.cq_text.specs.Transcript.{generator_name, name_or_empty, IsNamedEntry};

use cq_base::Name;
use cq_theory::value_text::{push_application, push_null, push_value};
use cq_theory::{Edge, EntTerm, Entry, Sort, Typeside, Value};
use itoa::Buffer;
use std::alloc::AllocError;

/// Appends a number in decimal.
pub fn push_number(number: u64, text: &mut Vec<u8>) -> Result<(), AllocError>
    ensures { OnOk result (text.new.items ≡ text.old.items ++ decimal number) }
{
    let mut buffer = Buffer::new();
    text.extend_from_slice(buffer.format(number).as_bytes())?;
    Ok(())
}

/// Appends the bytes of a name.
pub fn push_name(name: &Name, text: &mut Vec<u8>) -> Result<(), AllocError>
    ensures { OnOk result (text.new.items ≡ text.old.items ++ name.now) }
{
    text.extend_from_slice(name.as_str().as_bytes())?;
    Ok(())
}

/// Appends a line with a word, a blank and a count.
pub fn push_heading(word: &[u8], count: u64, text: &mut Vec<u8>) -> Result<(), AllocError>
    ensures { OnOk result (text.new.items ≡ text.old.items ++ heading word.now count) }
{
    text.extend_from_slice(word)?;
    text.extend_from_slice(b" ")?;
    push_number(count, text)?;
    text.extend_from_slice(b"\n")?;
    Ok(())
}

/// Appends a blank, an attribute's name, `=` and the text of its value.
pub fn push_cell(
    typeside: &Typeside,
    attributes: &[Edge],
    attribute: u32,
    value: &Value,
    text: &mut Vec<u8>,
) -> Result<(), AllocError>
    requires attribute { attribute < length attributes.now }
    requires value { is_named typeside.now value.now ≡ true }
    ensures { OnOk result (text.new.items ≡ text.old.items
        ++ field_text (edge_name (slice_get attributes.now attribute)) (value_text typeside.now value.now)) }
{
    text.extend_from_slice(b" ")?;
    push_edge_name(attributes, attribute, text)?;
    text.extend_from_slice(b"=")?;
    push_value(typeside, value, text)?;
    Ok(())
}

/// Appends a blank, a key's name, `=` and the number of a row, counted from 1.
pub fn push_reference(
    keys: &[Edge],
    key: u32,
    row: u32,
    text: &mut Vec<u8>,
) -> Result<(), AllocError>
    requires { key < length keys.now }
    ensures { OnOk result (text.new.items ≡ text.old.items
        ++ field_text (edge_name (slice_get keys.now key)) (decimal (row + 1))) }
{
    text.extend_from_slice(b" ")?;
    push_edge_name(keys, key, text)?;
    text.extend_from_slice(b"=")?;
    push_number(u64::from(row) + 1, text)?;
    Ok(())
}

/// Appends the name of an edge.
pub fn push_edge_name(edges: &[Edge], edge: u32, text: &mut Vec<u8>) -> Result<(), AllocError>
    requires { edge < length edges.now }
    ensures { OnOk result (text.new.items ≡ text.old.items ++ edge_name (slice_get edges.now edge)) }
{
    push_name(&edges[edge as usize].name, text)?;
    Ok(())
}

/// Appends the text of a row's name: the name of its generator, then a dot and the name of each key that is followed.
pub fn push_term(
    keys: &[Edge],
    generators: &[(Name, Sort)],
    term: &EntTerm,
    text: &mut Vec<u8>,
) -> Result<(), AllocError>
    requires generator { term.now.generator < length generators.now }
    requires path { All (λ k. k < length keys.now) term.now.path }
    ensures { OnOk result (text.new.items ≡ text.old.items ++ name_text keys.now generators.now term.now) }
{
    push_generator(generators, term.generator, text)?;
    push_path(keys, term.path.as_slice(), text)?;
    Ok(())
}

fn push_generator(
    generators: &[(Name, Sort)],
    generator: u32,
    text: &mut Vec<u8>,
) -> Result<(), AllocError>
    requires { generator < length generators.now }
    ensures { OnOk result (text.new.items ≡ text.old.items ++ generator_name (slice_get generators.now generator)) }
{
    push_name(&generators[generator as usize].0, text)?;
    Ok(())
}

fn push_path(keys: &[Edge], path: &[u32], text: &mut Vec<u8>) -> Result<(), AllocError>
    requires { All (λ k. k < length keys.now) path.now }
    ensures { OnOk result (text.new.items ≡ text.old.items ++ flat_map (step_text keys.now) path.now) }
{
    for key in path {
        push_step(keys, *key, text)?;
    }
    Ok(())
}

fn push_step(keys: &[Edge], key: u32, text: &mut Vec<u8>) -> Result<(), AllocError>
    requires { key < length keys.now }
    ensures { OnOk result (text.new.items ≡ text.old.items ++ step_text keys.now key) }
{
    text.extend_from_slice(b".")?;
    push_edge_name(keys, key, text)?;
    Ok(())
}

/// Appends the line of a null: `?` and its label, a blank and its type.
pub fn push_null_line(
    typeside: &Typeside,
    label: u64,
    sort: u32,
    text: &mut Vec<u8>,
) -> Result<(), AllocError>
    requires { sort < length typeside.now.types }
    ensures { OnOk result (text.new.items ≡ text.old.items ++ null_line typeside.now label sort) }
{
    push_null(label, text)?;
    text.extend_from_slice(b" ")?;
    push_type(typeside, sort, text)?;
    text.extend_from_slice(b"\n")?;
    Ok(())
}

/// Appends the name of a type.
pub fn push_type(typeside: &Typeside, sort: u32, text: &mut Vec<u8>) -> Result<(), AllocError>
    requires { sort < length typeside.now.types }
    ensures { OnOk result (text.new.items ≡ text.old.items ++ name_or_empty (slice_get typeside.now.types sort)) }
{
    let types = typeside.types.as_slice();
    push_name(&types[sort as usize], text)?;
    Ok(())
}

/// Appends the line of an entry: its function at its arguments, ` = ` and its value.
pub fn push_entry_line(
    typeside: &Typeside,
    entry: &Entry,
    text: &mut Vec<u8>,
) -> Result<(), AllocError>
    requires { IsNamedEntry typeside.now entry.now }
    ensures { OnOk result (text.new.items ≡ text.old.items ++ entry_line typeside.now entry.now) }
{
    push_application(typeside, entry.function, entry.args.as_slice(), text)?;
    text.extend_from_slice(b" = ")?;
    push_value(typeside, &entry.value, text)?;
    text.extend_from_slice(b"\n")?;
    Ok(())
}
