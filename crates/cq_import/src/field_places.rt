//! Where fields stand in the text of their file.
//!
//! No clause speaks of places: a field that isn't found where it is said to stand takes memory of its own.
ghost use Rattle.std.specs.Prelude.{◌≤◌, length};

use crate::records::field;
use csv::ByteRecord;

/// How many bytes a file has from the content of a field on, and how many behind the field and the byte that ends it.
#[derive(Clone, Copy)]
pub struct Place {
    pub content: usize,
    pub behind: usize,
}

/// The place of a field that begins where the text has so many bytes left. Within quotes its content stands as it is,
/// unless it has a quote itself: each of those is written twice.
pub fn place_of(text: &[u8], rest: usize, field: &[u8]) -> Place {
    let from = text.len().saturating_sub(rest);
    let (opening, others) = match text.get(from) {
        Some(b'"') => (1, count_quotes(field).saturating_add(1)),
        _ => (0, 0),
    };
    let content = rest.saturating_sub(opening);
    // With the comma or the end of the line.
    let length = field.len().saturating_add(others).saturating_add(1);
    Place {
        content,
        behind: content.saturating_sub(length),
    }
}

fn count_quotes(bytes: &[u8]) -> usize {
    bytes.iter().filter(|byte| **byte == b'"').count()
}

/// How many bytes the text has behind the id of a record.
pub fn rest_behind_id(text: &[u8], fields: &ByteRecord) -> usize {
    let Some(position) = fields.position() else {
        return 0;
    };
    let from = text.len().min(position.byte() as usize);
    let rest = text.len() - from - count_ends(&text[from..]);
    place_of(text, rest, field(fields, 0)).behind
}

/// How many bytes of ends of lines a text begins with: those before a record are counted to it.
fn count_ends(text: &[u8]) -> usize
    ensures { result ≤ length text.now }
{
    text.iter()
        .take_while(|byte| **byte == b'\n' || **byte == b'\r')
        .count()
}
