//! What stands in an attribute's cell.
ghost use Rattle.std.specs.Prelude.{◌≡◌, IfOk};
ghost use Rattle.cq_import.specs.Cells.{constant_content as content_of_constant, content_of, constant_of_name};
ghost use Rattle.cq_import.specs.Cells.{found as content_found, typed_constant as content_typed};

use cq_base::{Name, NameRefusal, Source};
use cq_theory::{Con, Typeside, Value};
use cq_values::read_value;
use std::alloc::{AllocError, Global};

/// What a field means in the column of an attribute.
#[derive(Drop)]
pub enum Content {
    Blank,
    /// The field has no meaning there.
    Wrong,
    Means(Value),
}

fn found(value: Option<Value>) -> Content
    ensures { result ≡ content_found value }
{
    match value {
        Some(value) => Content::Means(value),
        None => Content::Wrong,
    }
}

/// A constant in the column of this type.
fn typed_constant(typeside: &Typeside, sort: u32, constant: Con) -> Content
    ensures { result ≡ content_typed typeside.now sort constant }
{
    match typeside.type_of_constant(&constant) {
        Some(found) if found == sort => Content::Means(Value::Const(constant)),
        _ => Content::Wrong,
    }
}

/// The constant with this content: the declared one, or else the open one.
fn constant_content(
    source: &mut Source,
    typeside: &Typeside,
    sort: u32,
    rest: usize,
    field: &[u8],
) -> Result<Content, AllocError>
    ensures { IfOk result (λ content. content ≡ content_of_constant typeside.now sort field.now) }
{
    let Ok(text) = str::from_utf8(field) else {
        return Ok(Content::Wrong);
    };
    match source.name(rest, text) {
        Ok(name) => Ok(named_content(typeside, sort, name)),
        Err(NameRefusal::Long) => Ok(Content::Wrong),
        Err(NameRefusal::Memory) => Err(AllocError),
    }
}

fn named_content(typeside: &Typeside, sort: u32, name: Name) -> Content
    ensures { result ≡ constant_of_name typeside.now sort name }
{
    match typeside.find_constant(&name) {
        Some(number) => typed_constant(typeside, sort, Con::Named(number)),
        None => typed_constant(typeside, sort, Con::Open(name)),
    }
}

/// What a field means in the column of an attribute of this type. A text stands in the memory of its file, if it is
/// written as it is where the file's last `rest` bytes begin.
pub fn read_content(
    alloc: Global,
    source: &mut Source,
    typeside: &Typeside,
    sort: u32,
    rest: usize,
    field: &[u8],
) -> Result<Content, AllocError>
    ensures { IfOk result (λ content. content ≡ content_of typeside.now sort field.now) }
{
    match field.split_first() {
        None => Ok(Content::Blank),
        Some((b'?', _)) => Ok(found(read_value(alloc, typeside, sort, field)?)),
        Some((b'=', text)) => Ok(found(read_value(alloc, typeside, sort, text)?)),
        Some(_) => constant_content(source, typeside, sort, rest, field),
    }
}
