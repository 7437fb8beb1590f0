//! Texts of values.
ghost use Rattle.std.specs.Prelude.{◌≡◌, ◌++◌, [], true, map, length, ◌<◌, IfOk, OnOk, slice_get};
ghost use Rattle.std.specs.List.{list_all};
ghost use Rattle.cq_theory.specs.ValueText.{value_text as text_of, is_named, is_named_con, con_text, constant_text};
ghost use Rattle.cq_theory.specs.ValueText.{constant_name, function_name, quoted, escape, with_commas, null_text};
ghost use Rattle.cq_theory.specs.ValueText.{application_text, is_word as is_word_text, is_word_byte as is_word_byte_of};

use crate::constant::Con;
use crate::typeside::Typeside;
use crate::value::Value;
use itoa::Buffer;
use std::alloc::{AllocError, Global};

/// The text of a value: a declared constant's name, quoted where it is no word, an open constant's text in quotes,
/// `?` and a null's label, or a function's name with the texts of its arguments.
pub fn value_text(alloc: Global, typeside: &Typeside, value: &Value) -> Result<Vec<u8>, AllocError>
    requires { is_named typeside.now value.now ≡ true }
    ensures { IfOk result (λ text. text.items ≡ text_of typeside.now value.now) }
{
    let mut text = Vec::new(alloc);
    push_value(typeside, value, &mut text)?;
    Ok(text)
}

/// Appends the text of a value.
#[cycle(push)]
pub fn push_value(typeside: &Typeside, value: &Value, text: &mut Vec<u8>) -> Result<(), AllocError>
    requires { is_named typeside.now value.now ≡ true }
    ensures { OnOk result (text.new.items ≡ text.old.items ++ text_of typeside.now value.now) }
{
    match value {
        Value::Const(constant) => {
            push_con(typeside, constant, text)?;
            Ok(())
        }
        Value::Null(label) => {
            push_null(*label, text)?;
            Ok(())
        }
        Value::Fun(function, args) => {
            push_application(typeside, *function, args.as_slice(), text)?;
            Ok(())
        }
    }
}

/// Appends the name of a function and the texts of its arguments in parentheses.
#[cycle(push)]
pub fn push_application(
    typeside: &Typeside,
    function: u32,
    args: &[Value],
    text: &mut Vec<u8>,
) -> Result<(), AllocError>
    requires known { function < length typeside.now.functions }
    requires named { list_all (is_named typeside.now) args.now ≡ true }
    ensures { OnOk result (text.new.items ≡ text.old.items
        ++ application_text (function_name (slice_get typeside.now.functions function))
        (map (text_of typeside.now) args.now)) }
{
    push_function_name(typeside, function, text)?;
    text.extend_from_slice(b"(")?;
    push_args(typeside, args, text)?;
    text.extend_from_slice(b")")?;
    Ok(())
}

#[cycle(push)]
fn push_args(typeside: &Typeside, args: &[Value], text: &mut Vec<u8>) -> Result<(), AllocError>
    requires { list_all (is_named typeside.now) args.now ≡ true }
    ensures { OnOk result (text.new.items ≡ text.old.items ++ with_commas (map (text_of typeside.now) args.now)) }
{
    if let Some((first, rest)) = args.split_first() {
        push_value(typeside, first, text)?;
        for arg in rest {
            text.extend_from_slice(b", ")?;
            push_value(typeside, arg, text)?;
        }
    }
    Ok(())
}

/// Appends the text of a constant: a declared one's name, quoted where it is no word, or an open one's text, always
/// quoted.
pub fn push_con(typeside: &Typeside, constant: &Con, text: &mut Vec<u8>) -> Result<(), AllocError>
    requires { is_named_con typeside.now constant.now ≡ true }
    ensures { OnOk result (text.new.items ≡ text.old.items ++ con_text typeside.now constant.now) }
{
    match constant {
        Con::Named(number) => {
            push_constant_name(typeside, *number, text)?;
            Ok(())
        }
        Con::Open(content) => {
            push_quoted(content.as_str().as_bytes(), text)?;
            Ok(())
        }
    }
}

fn push_constant_name(
    typeside: &Typeside,
    constant: u32,
    text: &mut Vec<u8>,
) -> Result<(), AllocError>
    requires { constant < length typeside.now.constants }
    ensures { OnOk result (text.new.items ≡ text.old.items
        ++ constant_text (constant_name (slice_get typeside.now.constants constant))) }
{
    push_constant(
        typeside.name_of_constant(constant).as_str().as_bytes(),
        text,
    )?;
    Ok(())
}

/// Appends the name of a function.
pub fn push_function_name(
    typeside: &Typeside,
    function: u32,
    text: &mut Vec<u8>,
) -> Result<(), AllocError>
    requires { function < length typeside.now.functions }
    ensures { OnOk result (text.new.items ≡ text.old.items
        ++ function_name (slice_get typeside.now.functions function)) }
{
    let functions = typeside.functions.as_slice();
    text.extend_from_slice(functions[function as usize].name.as_str().as_bytes())?;
    Ok(())
}

/// Appends `?` and the label of a null.
pub fn push_null(label: u64, text: &mut Vec<u8>) -> Result<(), AllocError>
    ensures { OnOk result (text.new.items ≡ text.old.items ++ null_text label) }
{
    let mut buffer = Buffer::new();
    text.extend_from_slice(b"?")?;
    text.extend_from_slice(buffer.format(label).as_bytes())?;
    Ok(())
}

fn push_constant(name: &[u8], text: &mut Vec<u8>) -> Result<(), AllocError>
    ensures { OnOk result (text.new.items ≡ text.old.items ++ constant_text name.now) }
{
    if is_word(name) {
        text.extend_from_slice(name)?;
    } else {
        push_quoted(name, text)?;
    }
    Ok(())
}

/// Appends the bytes as a quoted text, with escapes.
pub fn push_quoted(name: &[u8], text: &mut Vec<u8>) -> Result<(), AllocError>
    ensures { OnOk result (text.new.items ≡ text.old.items ++ quoted name.now) }
{
    text.extend_from_slice(b"\"")?;
    for byte in name {
        push_escaped(*byte, text)?;
    }
    text.extend_from_slice(b"\"")?;
    Ok(())
}

fn push_escaped(byte: u8, text: &mut Vec<u8>) -> Result<(), AllocError>
    ensures { OnOk result (text.new.items ≡ text.old.items ++ escape byte) }
{
    match byte {
        b'"' => text.extend_from_slice(b"\\\""),
        b'\\' => text.extend_from_slice(b"\\\\"),
        b'\n' => text.extend_from_slice(b"\\n"),
        b'\t' => text.extend_from_slice(b"\\t"),
        b'\r' => text.extend_from_slice(b"\\r"),
        _ => text.extend_from_slice(&[byte]),
    }
}

fn is_word(name: &[u8]) -> bool
    ensures { result ≡ is_word_text name.now }
{
    if name.is_empty() {
        false
    } else {
        are_word_bytes(name)
    }
}

fn are_word_bytes(name: &[u8]) -> bool
    ensures { result ≡ list_all is_word_byte_of name.now }
{
    name.iter().all(|byte| is_word_byte(*byte))
}

fn is_word_byte(byte: u8) -> bool
    ensures { result ≡ is_word_byte_of byte }
{
    matches!(byte, b'0'..=b'9' | b'A'..=b'Z' | b'a'..=b'z' | b'_' | b'$')
}
