//! The line of a refusal.
ghost use Rattle.std.specs.Prelude.{◌≡◌, ◌++◌, ◌∷◌, [], codes, decimal, IfOk, OnOk};
ghost use Rattle.cq_environment.specs.Lines.{code_of, name_of, details_of, detail_text, head_of, line_of, reason_line};

use crate::reason::Reason;
use cq_base::Place;
use itoa::Buffer;
use std::alloc::{AllocError, Global};

impl Reason {
    /// The line that tells this reason at a place: `refused LINE:COL CODE NAME`, each detail after a blank, and LF.
    pub fn line(&self, alloc: Global, place: Place) -> Result<Vec<u8>, AllocError>
        ensures { IfOk result (λ line. line.items ≡ reason_line place self.now) }
    {
        let mut text = Vec::new(alloc);
        push_head(place, self.code(), self.name(), &mut text)?;
        self.push_details(&mut text)?;
        text.extend_from_slice(b"\n")?;
        Ok(text)
    }

    /// The number of the rule that is broken.
    fn code(&self) -> u8
        ensures { result ≡ code_of self.now }
    {
        match self {
            Reason::NameTaken => 31,
            Reason::NameUnknown => 32,
            Reason::WrongKind => 33,
            Reason::WrongSchema => 34,
            Reason::NotASpan => 35,
            Reason::WrongOperand => 36,
            Reason::Duplicate => 41,
            Reason::Unknown => 42,
            Reason::WrongCount => 43,
            Reason::WrongSort => 44,
            Reason::Reserved => 45,
            Reason::TooLarge => 46,
            Reason::Missing(_) => 47,
            Reason::NotPreserved(_) => 51,
            Reason::DutyDepth(_) => 52,
            Reason::DutyRows(_) => 53,
            Reason::Broken(_) => 54,
            Reason::Depth => 61,
            Reason::TooManyRows => 62,
            Reason::Inconsistent(_, _) => 63,
            Reason::Oversized => 64,
            Reason::TooManyAnswers(_) => 65,
            Reason::NameClash(_, _) => 71,
            Reason::LongName(_) => 72,
            Reason::NotCsv(_, _) => 84,
            Reason::BadHeader(_) => 85,
            Reason::BadCell(_, _, _) => 86,
            Reason::DoubleId(_, _) => 87,
            Reason::NoSuchId(_, _, _) => 88,
            Reason::ManyRecords => 89,
        }
    }

    /// The name of the rule that is broken.
    fn name(&self) -> &'static str
        ensures { result.now ≡ name_of self.now }
    {
        match self {
            Reason::NameTaken => "Duplicate",
            Reason::NameUnknown => "Unknown",
            Reason::WrongKind => "WrongKind",
            Reason::WrongSchema => "WrongSchema",
            Reason::NotASpan => "NotASpan",
            Reason::WrongOperand => "WrongOperand",
            Reason::Duplicate => "Duplicate",
            Reason::Unknown => "Unknown",
            Reason::WrongCount => "WrongCount",
            Reason::WrongSort => "WrongSort",
            Reason::Reserved => "Reserved",
            Reason::TooLarge => "TooLarge",
            Reason::Missing(_) => "Missing",
            Reason::NotPreserved(_) => "NotPreserved",
            Reason::DutyDepth(_) => "Depth",
            Reason::DutyRows(_) => "TooManyRows",
            Reason::Broken(_) => "Broken",
            Reason::Depth => "Depth",
            Reason::TooManyRows => "TooManyRows",
            Reason::Inconsistent(_, _) => "Inconsistent",
            Reason::Oversized => "TooLarge",
            Reason::TooManyAnswers(_) => "TooManyAnswers",
            Reason::NameClash(_, _) => "NameClash",
            Reason::LongName(_) => "LongName",
            Reason::NotCsv(_, _) => "NotCsv",
            Reason::BadHeader(_) => "BadHeader",
            Reason::BadCell(_, _, _) => "BadCell",
            Reason::DoubleId(_, _) => "DoubleId",
            Reason::NoSuchId(_, _, _) => "NoSuchId",
            Reason::ManyRecords => "TooLarge",
        }
    }

    fn push_details(&self, text: &mut Vec<u8>) -> Result<(), AllocError>
        ensures { OnOk result (text.new.items ≡ text.old.items ++ detail_text (details_of self.now)) }
    {
        match self {
            Reason::Missing(name) => push_text(name.as_str().as_bytes(), text),
            Reason::NotPreserved(duty) => push_count(*duty, text),
            Reason::DutyDepth(duty) => push_count(*duty, text),
            Reason::DutyRows(duty) => push_count(*duty, text),
            Reason::Broken(equation) => push_count(*equation, text),
            Reason::Inconsistent(left, right) => push_texts(
                left.as_slice(),
                right.as_slice(),
                text,
            ),
            Reason::TooManyAnswers(entity) => push_text(entity.as_str().as_bytes(), text),
            Reason::NameClash(first, second) => push_counts(*first, *second, text),
            Reason::LongName(part) => push_count(u64::from(*part), text),
            Reason::NotCsv(file, row) => push_record(file.as_slice(), *row, text),
            Reason::BadHeader(file) => push_text(file.as_slice(), text),
            Reason::BadCell(file, row, column) => push_cell(file.as_slice(), *row, *column, text),
            Reason::DoubleId(file, row) => push_record(file.as_slice(), *row, text),
            Reason::NoSuchId(file, row, column) => push_cell(file.as_slice(), *row, *column, text),
            Reason::NameTaken => Ok(()),
            Reason::NameUnknown => Ok(()),
            Reason::WrongKind => Ok(()),
            Reason::WrongSchema => Ok(()),
            Reason::NotASpan => Ok(()),
            Reason::WrongOperand => Ok(()),
            Reason::Duplicate => Ok(()),
            Reason::Unknown => Ok(()),
            Reason::WrongCount => Ok(()),
            Reason::WrongSort => Ok(()),
            Reason::Reserved => Ok(()),
            Reason::TooLarge => Ok(()),
            Reason::Depth => Ok(()),
            Reason::TooManyRows => Ok(()),
            Reason::Oversized => Ok(()),
            Reason::ManyRecords => Ok(()),
        }
    }
}

/// The line of a refusal without details: `refused LINE:COL CODE NAME` and LF.
pub fn refusal_line(
    alloc: Global,
    place: Place,
    code: u8,
    name: &str,
) -> Result<Vec<u8>, AllocError>
    ensures { IfOk result (λ line. line.items ≡ line_of place code name.now []) }
{
    let mut text = Vec::new(alloc);
    push_head(place, code, name, &mut text)?;
    text.extend_from_slice(b"\n")?;
    Ok(text)
}

/// The line of a refusal whose one detail is a number.
pub fn numbered_line(
    alloc: Global,
    place: Place,
    code: u8,
    name: &str,
    number: u32,
) -> Result<Vec<u8>, AllocError>
    ensures { IfOk result (λ line. line.items ≡ line_of place code name.now (decimal number ∷ [])) }
{
    let mut text = Vec::new(alloc);
    push_head(place, code, name, &mut text)?;
    push_count(u64::from(number), &mut text)?;
    text.extend_from_slice(b"\n")?;
    Ok(text)
}

fn push_head(place: Place, code: u8, name: &str, text: &mut Vec<u8>) -> Result<(), AllocError>
    ensures { OnOk result (text.new.items ≡ text.old.items ++ head_of place code name.now) }
{
    text.extend_from_slice(b"refused ")?;
    push_number(u64::from(place.line), text)?;
    text.extend_from_slice(b":")?;
    push_number(u64::from(place.col), text)?;
    text.extend_from_slice(b" ")?;
    push_number(u64::from(code), text)?;
    text.extend_from_slice(b" ")?;
    text.extend_from_slice(name.as_bytes())?;
    Ok(())
}

fn push_number(number: u64, text: &mut Vec<u8>) -> Result<(), AllocError>
    ensures { OnOk result (text.new.items ≡ text.old.items ++ decimal number) }
{
    let mut buffer = Buffer::new();
    text.extend_from_slice(buffer.format(number).as_bytes())?;
    Ok(())
}

/// Appends a blank and a detail.
fn push_text(detail: &[u8], text: &mut Vec<u8>) -> Result<(), AllocError>
    ensures { OnOk result (text.new.items ≡ text.old.items ++ codes " " ++ detail.now) }
{
    text.extend_from_slice(b" ")?;
    text.extend_from_slice(detail)?;
    Ok(())
}

fn push_count(number: u64, text: &mut Vec<u8>) -> Result<(), AllocError>
    ensures { OnOk result (text.new.items ≡ text.old.items ++ codes " " ++ decimal number) }
{
    text.extend_from_slice(b" ")?;
    push_number(number, text)?;
    Ok(())
}

fn push_texts(first: &[u8], second: &[u8], text: &mut Vec<u8>) -> Result<(), AllocError>
    ensures { OnOk result (text.new.items ≡ text.old.items ++ codes " " ++ first.now ++ codes " " ++ second.now) }
{
    push_text(first, text)?;
    push_text(second, text)?;
    Ok(())
}

fn push_counts(first: u32, second: u32, text: &mut Vec<u8>) -> Result<(), AllocError>
    ensures { OnOk result (text.new.items ≡ text.old.items ++ codes " " ++ decimal first ++ codes " "
        ++ decimal second) }
{
    push_count(u64::from(first), text)?;
    push_count(u64::from(second), text)?;
    Ok(())
}

/// Appends a file and the number of a record.
fn push_record(file: &[u8], row: u32, text: &mut Vec<u8>) -> Result<(), AllocError>
    ensures { OnOk result (text.new.items ≡ text.old.items ++ codes " " ++ file.now ++ codes " " ++ decimal row) }
{
    push_text(file, text)?;
    push_count(u64::from(row), text)?;
    Ok(())
}

/// Appends a file and the numbers of a record and a column.
fn push_cell(file: &[u8], row: u32, column: u32, text: &mut Vec<u8>) -> Result<(), AllocError>
    ensures { OnOk result (text.new.items ≡ text.old.items ++ codes " " ++ file.now ++ codes " " ++ decimal row
        ++ codes " " ++ decimal column) }
{
    push_record(file, row, text)?;
    push_count(u64::from(column), text)?;
    Ok(())
}
