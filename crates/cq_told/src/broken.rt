//! The rules of declarations.
ghost use Rattle.std.specs.Prelude.{◌≡◌, ◌<◌, ◌≤◌, ◌^◌, IfOk, IfSome, MatchOption};
ghost use Rattle.cq_known.specs.Spelled.{IsSpelledFrom};
ghost use Rattle.cq_parts.specs.Few.{part_count};
ghost use Rattle.cq_environment.specs.Environment.{AreSettled, environment_of};
ghost use Rattle.cq_told.specs.Explained.{HasDerived, IsShownOf};

use crate::case::Case;
use crate::codes::code_of;
use crate::details::details_of;
use crate::misfits::{append_double_name, append_miscounted, append_missorted};
use crate::near::append_meant;
use crate::page::{append_line, append_remedy, append_where, has_remedy};
use crate::telling::{Telling, one_text};
use crate::texts::{append_number, name_text, number_text, one, quoted_text, three, two};
use cq_base::{Name, Place};
use cq_environment::Reason;
use cq_io::Folder;
use cq_known::{Unknown, known_as, near_used, unknown_in_part, wanted_at};
use cq_lex::{Kind, Token};
use cq_sentences::Code;
use std::alloc::{AllocError, Global};

/// What is told of a declaration that breaks a rule.
pub fn broken_telling<F: Folder>(
    case: Case<'_>,
    reason: &Reason,
    folder: &mut F,
) -> Result<Telling, AllocError>
    requires few { part_count case.decl.now.body < 2 ^ 32 }
    requires settled { AreSettled (environment_of case.env.now.names.entries) }
    requires depth { case.depth ≤ 64 }
    ensures files { (F.state folder.new).files ≡ (F.state folder.old).files }
    ensures place { IfOk result (λ telling. IsShownOf case.entry.book.page.tokens.now reason.now case.entry.place
        telling.place) }
    ensures derived { IfOk result (λ telling. HasDerived reason.now telling.words.items) }
{
    let unknown = unknown_name(case, reason)?;
    let place = shown_place(case.place, &unknown);
    let front = rule_words(case, reason, place, &unknown)?;
    let details = details_of(case, reason, folder)?;
    let remedy = remedy_words(case.book.alloc, reason, details.as_slice())?;
    let words = one_text(front, details.as_slice(), remedy.as_slice())?;
    Ok(Telling { place, words })
}

/// The name that isn't declared, where this is the reason, and the name is found.
fn unknown_name(case: Case<'_>, reason: &Reason) -> Result<Option<Unknown>, AllocError>
    ensures reason { IfOk result (λ found. IfSome found (λ _. reason.now ≡ Reason.Unknown)) }
    ensures place { IfOk result (λ found. IfSome found (λ unknown.
        IsSpelledFrom case.entry.book.page.tokens.now case.entry.place unknown.place unknown.name)) }
{
    match reason {
        Reason::Unknown => unknown_in_part(
            case.book.alloc,
            case.env,
            &case.decl.body,
            case.book.page.tokens,
            case.place,
        ),
        _ => Ok(None),
    }
}

/// The place of the name that isn't declared, if there is one, and otherwise that of the rule.
fn shown_place(place: Place, unknown: &Option<Unknown>) -> Place
    ensures { MatchOption unknown.now (result ≡ place) (λ found. result ≡ found.place) }
{
    match unknown {
        Some(found) => found.place,
        None => place,
    }
}

/// In which declaration the place stands, and the sentence of the rule.
fn rule_words(
    case: Case<'_>,
    reason: &Reason,
    place: Place,
    unknown: &Option<Unknown>,
) -> Result<Vec<u8>, AllocError> {
    let mut out = Vec::new(case.book.alloc);
    append_where(place, case.decl, &mut out)?;
    match unknown {
        Some(unknown) => append_unknown(case, unknown, &mut out)?,
        None => append_rule(case, reason, &mut out)?,
    }
    Ok(out)
}

/// What there is to mend, unless the details say so.
fn remedy_words(alloc: Global, reason: &Reason, details: &[u8]) -> Result<Vec<u8>, AllocError> {
    let mut out = Vec::new(alloc);
    if !has_remedy(details) {
        append_remedy(code_of(reason).remedy(), &mut out)?;
    }
    Ok(out)
}

/// Appends the sentence of the rule, and what is known of its names.
fn append_rule(case: Case<'_>, reason: &Reason, out: &mut Vec<u8>) -> Result<(), AllocError> {
    match reason {
        Reason::NameTaken => append_taken(case, out),
        Reason::NameUnknown => append_unknown_name(case, out),
        Reason::WrongKind => append_wrong_kind(case, out),
        Reason::WrongSchema => append_named(case, Code::WrongSchema, out),
        Reason::WrongOperand => append_named(case, Code::WrongOperand, out),
        Reason::Duplicate => append_named(case, Code::Duplicate, out),
        Reason::Unknown => append_named(case, Code::Unknown, out),
        _ => {
            append_plain(case, reason, out)?;
            append_misfit(case, reason, out)
        }
    }
}

/// Appends what of the part doesn't fit, or would stand twice, where this is the reason.
fn append_misfit(case: Case<'_>, reason: &Reason, out: &mut Vec<u8>) -> Result<(), AllocError> {
    match reason {
        Reason::WrongCount => append_miscounted(case, out),
        Reason::WrongSort => append_missorted(case, out),
        Reason::NameClash(first, second) => append_double_name(case, *first, *second, out),
        _ => Ok(()),
    }
}

/// Appends a sentence with the texts that the reason has.
fn append_plain(case: Case<'_>, reason: &Reason, out: &mut Vec<u8>) -> Result<(), AllocError> {
    let texts = texts_of(case, reason)?;
    append_texts(case.book.alloc, code_of(reason), texts.as_slice(), out)
}

/// Appends the sentence of a code with these texts.
pub fn append_texts(
    alloc: Global,
    code: Code,
    texts: &[Vec<u8>],
    out: &mut Vec<u8>,
) -> Result<(), AllocError> {
    append_line(alloc, code.sentence(), texts, out)
}

/// The texts of a reason, as its sentence names them.
fn texts_of(case: Case<'_>, reason: &Reason) -> Result<Vec<Vec<u8>>, AllocError> {
    let alloc = case.book.alloc;
    match reason {
        Reason::Missing(name) | Reason::TooManyAnswers(name) => {
            one(alloc, name_text(alloc, name)?)
        }
        Reason::NotPreserved(number) | Reason::DutyRows(number) | Reason::Broken(number) => {
            one(alloc, number_text(alloc, *number)?)
        }
        Reason::DutyDepth(number) => numbers(alloc, *number, u64::from(case.depth)),
        Reason::Depth => one(alloc, number_text(alloc, u64::from(case.depth))?),
        Reason::Inconsistent(least, greater) => {
            let least = Vec::from_slice(alloc, least.as_slice())?;
            let greater = Vec::from_slice(alloc, greater.as_slice())?;
            two(alloc, least, greater)
        }
        Reason::NameClash(first, second) => {
            numbers(alloc, u64::from(*first), u64::from(*second))
        }
        Reason::LongName(part) => one(alloc, number_text(alloc, u64::from(*part))?),
        _ => file_texts(alloc, reason),
    }
}

fn numbers(alloc: Global, first: u64, second: u64) -> Result<Vec<Vec<u8>>, AllocError> {
    let first = number_text(alloc, first)?;
    let second = number_text(alloc, second)?;
    two(alloc, first, second)
}

/// The texts of a reason that is told of a file: a record, a column and the file, as far as there are some.
fn file_texts(alloc: Global, reason: &Reason) -> Result<Vec<Vec<u8>>, AllocError> {
    match reason {
        Reason::BadHeader(file) => one(alloc, Vec::from_slice(alloc, file.as_slice())?),
        Reason::NotCsv(file, record) | Reason::DoubleId(file, record) => {
            let record = number_text(alloc, u64::from(*record))?;
            let file = Vec::from_slice(alloc, file.as_slice())?;
            two(alloc, record, file)
        }
        Reason::BadCell(file, record, column) | Reason::NoSuchId(file, record, column) => {
            let record = number_text(alloc, u64::from(*record))?;
            let column = number_text(alloc, u64::from(*column))?;
            let file = Vec::from_slice(alloc, file.as_slice())?;
            three(alloc, record, column, file)
        }
        _ => Ok(Vec::new(alloc)),
    }
}

/// Appends that the declared name is taken, and where it is declared.
fn append_taken(case: Case<'_>, out: &mut Vec<u8>) -> Result<(), AllocError> {
    let texts = one(
        case.book.alloc,
        name_text(case.book.alloc, &case.decl.name)?,
    )?;
    append_texts(case.book.alloc, Code::NameTaken, texts.as_slice(), out)?;
    for decl in case.book.program.decls.as_slice() {
        if decl.name == case.decl.name {
            return append_first(case, decl.name_place, out);
        }
    }
    Ok(())
}

/// Appends where a name is declared first, and what it stands for.
fn append_first(case: Case<'_>, place: Place, out: &mut Vec<u8>) -> Result<(), AllocError> {
    out.extend_from_slice(b"  It is declared on line ")?;
    append_number(u64::from(place.line), out)?;
    if let Some(kind) = known_as(case.env, &case.decl.name) {
        out.extend_from_slice(b", as ")?;
        out.extend_from_slice(kind.words().as_bytes())?;
    }
    out.extend_from_slice(b".\n")?;
    Ok(())
}

/// Appends that a used name isn't declared, and the nearest that may stand there.
fn append_unknown_name(case: Case<'_>, out: &mut Vec<u8>) -> Result<(), AllocError> {
    append_named(case, Code::NameUnknown, out)?;
    match wanted_at(&case.decl.body, case.place) {
        Some((name, wanted)) => {
            let near = near_used(case.book.alloc, case.env, name, wanted)?;
            append_meant(near.as_ref(), out)
        }
        None => Ok(()),
    }
}

/// Appends that a used name stands for something else than what is wanted.
fn append_wrong_kind(case: Case<'_>, out: &mut Vec<u8>) -> Result<(), AllocError> {
    let Some((name, wanted)) = wanted_at(&case.decl.body, case.place) else {
        return append_named(case, Code::WrongKind, out);
    };
    let alloc = case.book.alloc;
    let kind = match known_as(case.env, name) {
        Some(kind) => kind.words(),
        None => "something else",
    };
    let kind = Vec::from_slice(alloc, kind.as_bytes())?;
    let wanted = Vec::from_slice(alloc, wanted.words().as_bytes())?;
    let texts = three(alloc, name_text(alloc, name)?, kind, wanted)?;
    append_texts(alloc, Code::WrongKind, texts.as_slice(), out)
}

/// Appends a sentence with the name that stands at the place.
fn append_named(case: Case<'_>, code: Code, out: &mut Vec<u8>) -> Result<(), AllocError> {
    let texts = one(case.book.alloc, name_at(case)?)?;
    append_texts(case.book.alloc, code, texts.as_slice(), out)
}

/// The name at the place, between quotes. At the image of an entity that is the entity's, behind its word.
fn name_at(case: Case<'_>) -> Result<Vec<u8>, AllocError> {
    let first = case.book.page.token_at(case.place);
    let found = match first {
        Some(token) if case.book.page.spelling(token) == b"entity".as_slice() => {
            case.book.page.token_behind(case.place)
        }
        _ => first,
    };
    match found {
        Some(token) => token_text(case, token),
        None => Ok(Vec::new(case.book.alloc)),
    }
}

/// The name of a token, between quotes, or else what is written there.
fn token_text(case: Case<'_>, token: &Token) -> Result<Vec<u8>, AllocError> {
    match &token.kind {
        Kind::Word(name) | Kind::Text(name) => name_text(case.book.alloc, name),
        Kind::Mark(_) | Kind::End => quoted_text(case.book.alloc, case.book.page.spelling(token)),
    }
}

/// Appends which name of a part isn't declared, and the nearest that is.
fn append_unknown(case: Case<'_>, unknown: &Unknown, out: &mut Vec<u8>) -> Result<(), AllocError> {
    let texts = one(case.book.alloc, name_text(case.book.alloc, &unknown.name)?)?;
    append_texts(case.book.alloc, Code::Unknown, texts.as_slice(), out)?;
    append_meant(unknown.near.as_ref(), out)
}
