//! Records of a file by their numbers: the lines in which they begin, and their ids.
ghost use Rattle.std.specs.Prelude.{◌≡◌, ◌<◌, ◌^◌, [], IfOk, OnOk, length, slice_index_or};
ghost use Rattle.csv.specs.Machine.{next_record};
ghost use Rattle.csv.specs.Reading.{default_config, strip_bom};
ghost use Rattle.csv.specs.Records.{fields_of};
ghost use Rattle.csv.specs.declared.parser.State.TheVariants as st;
ghost use Rattle.std.specs.Option.{option_map};
ghost use Rattle.cq_lines.specs.Walks.{IsWalk};
ghost use Rattle.cq_origin.specs.Records.{AreFound, IsFound, first_id};

use cq_base::Seq;
use cq_lines::{Walk, find_place, start, walk_to};
use csv::{ByteRecord, ReaderBuilder};
use std::alloc::{AllocError, Global};

/// A record behind the header, by its number from 1: the line in which it begins, from 1, and its id.
#[derive(Drop)]
pub struct FoundRecord {
    pub number: u32,
    pub line: u32,
    pub id: Seq<u8>,
}

/// The first record of a text that has no header.
fn first_record(alloc: Global, text: &[u8]) -> Result<Option<ByteRecord>, AllocError>
    ensures { IfOk result (λ found. option_map fields_of found
        ≡ option_map (λ p. p.0) (next_record default_config st.StartRecord [] [] (strip_bom text.now))) }
{
    let mut reader = ReaderBuilder::new()
        .has_headers(false)
        .flexible(true)
        .from_reader(alloc, text);
    let mut fields = ByteRecord::new(alloc);
    match reader.read_byte_record(&mut fields) {
        Ok(true) => Ok(Some(fields)),
        Ok(false) => Ok(None),
        Err(_) => Err(AllocError),
    }
}

/// The first field of a record; where it has none, the empty one.
fn first_field(fields: &ByteRecord) -> &[u8]
    ensures { result.now ≡ slice_index_or (fields_of fields.now) 0 [] }
{
    match fields.get(0) {
        Some(field) => field,
        None => &[],
    }
}

/// A copy of the first field of a record.
fn id_of(alloc: Global, fields: &ByteRecord) -> Result<Seq<u8>, AllocError>
    ensures { IfOk result (λ id. id ≡ slice_index_or (fields_of fields.now) 0 []) }
{
    let id = Vec::from_slice(alloc, first_field(fields))?;
    Ok(Seq::from_vec(id))
}

/// The first field of the first record of a text; where there is none, the empty one.
fn id_at(alloc: Global, text: &[u8]) -> Result<Seq<u8>, AllocError>
    ensures { IfOk result (λ id. id ≡ first_id text.now) }
{
    let found = first_record(alloc, text)?;
    match found {
        Some(fields) => id_of(alloc, &fields),
        None => Ok(Seq::from_vec(Vec::new(alloc))),
    }
}

/// The record behind a walk over a text.
fn record_behind(alloc: Global, text: &[u8], walk: Walk) -> Result<FoundRecord, AllocError>
    requires { IsWalk text.now walk }
    ensures found { IfOk result (IsFound text.now) }
    ensures number { IfOk result (λ found. found.number ≡ walk.number) }
{
    let place = find_place(text, walk);
    let id = id_at(alloc, &text[place.at..])?;
    Ok(FoundRecord {
        number: walk.number,
        line: place.line,
        id,
    })
}

/// Adds the record behind a walk over a text.
fn push_record(
    alloc: Global,
    text: &[u8],
    walk: Walk,
    found: &mut Vec<FoundRecord>,
) -> Result<(), AllocError>
    requires walk { IsWalk text.now walk }
    requires found { AreFound text.now found.old.items }
    ensures { OnOk result (AreFound text.now found.new.items) }
{
    let record = record_behind(alloc, text, walk)?;
    found.push(record)?;
    Ok(())
}

/// The records of a text of less than 2 GiB that have these numbers, which rise. One that is below the one before it is
/// left out.
pub fn find_records(
    alloc: Global,
    text: &[u8],
    numbers: &[u32],
) -> Result<Vec<FoundRecord>, AllocError>
    requires { length text.now < 2 ^ 31 }
    ensures { IfOk result (λ found. AreFound text.now found.items) }
{
    let mut found = Vec::new(alloc);
    let mut walk = start(text);
    for number in numbers {
        if *number < walk.number {
            continue;
        }
        walk = walk_to(text, walk, *number);
        push_record(alloc, text, walk, &mut found)?;
    }
    Ok(found)
}
