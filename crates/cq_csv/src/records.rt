//! Records of fields, and the text of a file of records.
ghost use Rattle.std.specs.Prelude.{ℕ, List, ◌≡◌, ◌++◌, ◌∷◌, [], IfOk, OnOk};
ghost use Rattle.csv.specs.Records.{fields_of, partial_of};
ghost use Rattle.cq_csv.specs.Records.{AddsFields, HasWritten, file_text};

use csv::{ByteRecord, Writer};
use std::alloc::{AllocError, Global};

/// Appends a field to a record.
pub fn push_field(field: &[u8], fields: &mut ByteRecord) -> Result<(), AllocError>
    requires { partial_of fields.old ≡ [] }
    ensures { OnOk result (AddsFields fields.old fields.new (field.now ∷ [])) }
{
    fields.push_field(field)?;
    Ok(())
}

/// The writer of a file that has no records yet.
pub fn start(alloc: Global) -> Writer<Vec<u8>>
    ensures { HasWritten result [] }
{
    Writer::from_writer(Vec::new(alloc))
}

/// Writes one more record.
pub fn write(writer: &mut Writer<Vec<u8>>, fields: &ByteRecord) -> Result<(), AllocError>
    ensures { (records : List (List (List ℕ))) → HasWritten writer.old records
        → OnOk result (HasWritten writer.new (records ++ fields_of fields.now ∷ [])) }
{
    match writer.write_byte_record(fields) {
        Ok(()) => Ok(()),
        Err(_) => Err(AllocError),
    }
}

/// The text of the records that were written.
pub fn finish(writer: Writer<Vec<u8>>) -> Result<Vec<u8>, AllocError>
    ensures { IfOk result (λ text. (records : List (List (List ℕ))) → HasWritten writer records
        → text.items ≡ file_text records) }
{
    match writer.into_inner() {
        Ok(text) => Ok(text),
        Err(_) => Err(AllocError),
    }
}
