//! Fields of records.
ghost use Rattle.std.specs.Prelude.{◌≡◌, ◌++◌, ◌∷◌, [], true, codes, decimal, OnOk};
ghost use Rattle.csv.specs.Records.{partial_of};
ghost use Rattle.cq_theory.specs.ValueText.{is_named, null_text, value_text};
ghost use Rattle.cq_csv.specs.Files.{cell_field};
ghost use Rattle.cq_csv.specs.Records.{AddsFields};

use crate::records::push_field;
use cq_base::Name;
use cq_text::{content, push_number};
use cq_theory::value_text::{push_null, push_value};
use cq_theory::{Typeside, Value};
use csv::ByteRecord;
use std::alloc::AllocError;

/// Appends a name.
pub fn push_name_field(name: &Name, fields: &mut ByteRecord) -> Result<(), AllocError>
    requires { partial_of fields.old ≡ [] }
    ensures { OnOk result (AddsFields fields.old fields.new (name.now ∷ [])) }
{
    push_field(name.as_str().as_bytes(), fields)?;
    Ok(())
}

/// Appends a number in decimal. The text is room to write it in.
pub fn push_number_field(
    number: u64,
    text: &mut Vec<u8>,
    fields: &mut ByteRecord,
) -> Result<(), AllocError>
    requires { partial_of fields.old ≡ [] }
    ensures { OnOk result (AddsFields fields.old fields.new (decimal number ∷ [])) }
{
    text.clear();
    push_number(number, text)?;
    push_field(text.as_slice(), fields)?;
    Ok(())
}

/// Appends the text of a value.
pub fn push_value_field(
    typeside: &Typeside,
    value: &Value,
    text: &mut Vec<u8>,
    fields: &mut ByteRecord,
) -> Result<(), AllocError>
    requires named { is_named typeside.now value.now ≡ true }
    requires whole { partial_of fields.old ≡ [] }
    ensures { OnOk result (AddsFields fields.old fields.new (value_text typeside.now value.now ∷ [])) }
{
    text.clear();
    push_value(typeside, value, text)?;
    push_field(text.as_slice(), fields)?;
    Ok(())
}

/// Appends the label of a null.
pub fn push_null_field(
    label: u64,
    text: &mut Vec<u8>,
    fields: &mut ByteRecord,
) -> Result<(), AllocError>
    requires { partial_of fields.old ≡ [] }
    ensures { OnOk result (AddsFields fields.old fields.new (null_text label ∷ [])) }
{
    text.clear();
    push_null(label, text)?;
    push_field(text.as_slice(), fields)?;
    Ok(())
}

/// Appends `=` and the text of a value.
fn push_built_field(
    typeside: &Typeside,
    value: &Value,
    text: &mut Vec<u8>,
    fields: &mut ByteRecord,
) -> Result<(), AllocError>
    requires named { is_named typeside.now value.now ≡ true }
    requires whole { partial_of fields.old ≡ [] }
    ensures { OnOk result (AddsFields fields.old fields.new ((codes "=" ++ value_text typeside.now value.now) ∷ [])) }
{
    text.clear();
    text.extend_from_slice(b"=")?;
    push_value(typeside, value, text)?;
    push_field(text.as_slice(), fields)?;
    Ok(())
}

/// Appends what stands for a value in an attribute's column.
pub fn push_cell_field(
    typeside: &Typeside,
    value: &Value,
    text: &mut Vec<u8>,
    fields: &mut ByteRecord,
) -> Result<(), AllocError>
    requires named { is_named typeside.now value.now ≡ true }
    requires whole { partial_of fields.old ≡ [] }
    ensures { OnOk result (AddsFields fields.old fields.new (cell_field typeside.now value.now ∷ [])) }
{
    match value {
        Value::Const(constant) => {
            push_field(content(typeside, constant), fields)?;
            Ok(())
        }
        Value::Null(label) => {
            push_null_field(*label, text, fields)?;
            Ok(())
        }
        Value::Fun(_, _) => {
            push_built_field(typeside, value, text, fields)?;
            Ok(())
        }
    }
}
