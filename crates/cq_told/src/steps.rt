//! The steps at which a file is refused: reading it, its tokens, its grammar, its declarations.
ghost use Rattle.std.specs.Prelude.{◌≡◌, ◌<◌, ◌≤◌, ◌^◌, IfOk, IfSome, IsErr, IsErrOf, MatchOption, Some, false};
ghost use Rattle.std.specs.Prelude.{length, slice_get, vec_len};
ghost use Rattle.cq_lex.specs.Spans.{EndsOnce};
ghost use Rattle.cq_io.specs.Reads.{IsReadOf};
ghost use Rattle.cq_parts.specs.Few.{HasFewParts, part_count};
ghost use Rattle.cq_program.specs.Stop.{MeetRules};
ghost use Rattle.cq_environment.specs.Environment.{AreSettled, environment_of};
ghost use Rattle.cq_syntax.specs.declared.program.Decl.{Decl as AnyDecl};
ghost use Rattle.cq_told.specs.Explained.{AreMet, Explains, ExplainsText, IsMet, IsProgramFault, IsTextFault};
ghost use Rattle.cq_told.specs.Explained.{IsGrammaticalPlace, IsLexicalPlace, IsTokenFault, IsToldOf, file_limit};
ghost use Rattle.cq_told.specs.Explained.{StopsAmong, StopsIn, StopsOrMeets};

use crate::broken::broken_telling;
use crate::case::{Book, Case};
use crate::codes::unread_of;
use crate::near::append_beside;
use crate::page::{Page, append_remedy};
use crate::telling::{Telling, shown, telling_at, telling_at_token};
use cq_environment::ReadCause;
use cq_io::{Folder, Listing, ReadRefusal};
use cq_lex::{LexRefusal, lex};
use cq_parse::{ParseRefusal, parse};
use cq_parts::has_few_parts;
use cq_program::{Fault, Stop};
use cq_sentences::{Code, Unread, append_filled};
use cq_syntax::Decl;
use std::alloc::{AllocError, Global};

/// Why the file of a name is refused, by what was read of it, and where its program stops to meet its rules, with
/// models made to a depth: the line at the place of its first fault, under it a caret, and then in words what is wrong
/// and what there is to mend. Nothing, where it isn't refused.
pub fn explanation<F: Folder + Listing>(
    alloc: Global,
    file: &str,
    reading: &Result<Vec<u8>, ReadRefusal>,
    stop: &Option<Stop>,
    depth: u32,
    folder: &mut F,
) -> Result<Vec<u8>, AllocError>
    requires depth { depth ≤ 64 }
    requires read { IfSome (F.state folder.old).files (IsReadOf file.now file_limit reading.now) }
    requires short { IfOk reading.now (λ text. vec_len text ≤ file_limit) }
    requires fails { IsErrOf reading.now ReadRefusal.Failed → (F.state folder.old).steady ≡ false }
    requires stops { IfOk reading.now (λ text. StopsIn depth (F.state folder.old).files text.items stop.now) }
    ensures files { (F.state folder.new).files ≡ (F.state folder.old).files }
    ensures told { IfOk result (λ out. Explains depth (F.state folder.old) file.now out.items) }
{
    match reading {
        Ok(text) => text_explanation(alloc, text.as_slice(), stop, depth, folder),
        Err(refusal) => unread_explanation(alloc, *refusal, file, folder),
    }
}

/// That a file isn't read.
fn unread_explanation<F: Listing>(
    alloc: Global,
    refusal: ReadRefusal,
    file: &str,
    folder: &F,
) -> Result<Vec<u8>, AllocError>
    ensures { refusal ≡ ReadRefusal.Memory → IsErr result }
{
    let mut out = Vec::new(alloc);
    match refusal {
        ReadRefusal::Absent => append_unread(alloc, Unread::Absent, file, folder, &mut out)?,
        ReadRefusal::TooLong => append_unread(alloc, Unread::TooLong, file, folder, &mut out)?,
        ReadRefusal::Failed => append_unread(alloc, Unread::Failed, file, folder, &mut out)?,
        ReadRefusal::Memory => return Err(AllocError),
    }
    Ok(out)
}

/// Appends that a file isn't read, and of one that isn't there the nearest that is.
fn append_unread<F: Listing>(
    alloc: Global,
    unread: Unread,
    file: &str,
    folder: &F,
    out: &mut Vec<u8>,
) -> Result<(), AllocError> {
    append_filled(unread.sentence(), &[file.as_bytes()], out)?;
    out.extend_from_slice(b"\n")?;
    match unread {
        Unread::Absent => append_beside(alloc, file, folder, out)?,
        Unread::TooLong | Unread::Failed => {}
    }
    append_remedy(unread.remedy(), out)
}

/// Why a text is refused.
fn text_explanation<F: Folder + Listing>(
    alloc: Global,
    text: &[u8],
    stop: &Option<Stop>,
    depth: u32,
    folder: &mut F,
) -> Result<Vec<u8>, AllocError>
    requires length { length text.now ≤ 2 ^ 23 }
    requires depth { depth ≤ 64 }
    requires stops { StopsIn depth (F.state folder.old).files text.now stop.now }
    ensures files { (F.state folder.new).files ≡ (F.state folder.old).files }
    ensures told { IfOk result (λ out. ExplainsText depth (F.state folder.old).files text.now out.items) }
{
    let found = text_telling(alloc, text, stop, depth, folder)?;
    match &found {
        Some(telling) => shown(alloc, text, telling),
        None => Ok(Vec::new(alloc)),
    }
}

/// What is told of a text, if it breaks a rule.
fn text_telling<F: Folder + Listing>(
    alloc: Global,
    text: &[u8],
    stop: &Option<Stop>,
    depth: u32,
    folder: &mut F,
) -> Result<Option<Telling>, AllocError>
    requires length { length text.now ≤ 2 ^ 23 }
    requires depth { depth ≤ 64 }
    requires stops { StopsIn depth (F.state folder.old).files text.now stop.now }
    ensures files { (F.state folder.new).files ≡ (F.state folder.old).files }
    ensures told { IfOk result (λ found. MatchOption found (IsMet depth (F.state folder.old).files text.now)
        (λ telling. IsTextFault depth (F.state folder.old).files text.now telling.place telling.words.items)) }
{
    match lex(alloc, text) {
        Ok(tokens) => {
            let tokens = tokens.as_slice();
            tokens_telling(alloc, Page { text, tokens }, stop, depth, folder)
        }
        Err(refusal) => {
            let telling = lexical_telling(alloc, refusal)?;
            Ok(Some(telling))
        }
    }
}

/// What is told of a text that has no tokens.
fn lexical_telling(alloc: Global, refusal: LexRefusal) -> Result<Telling, AllocError>
    ensures { IfOk result (λ telling. IsLexicalPlace refusal telling.place) }
{
    match refusal {
        LexRefusal::BadByte(place) => telling_at(alloc, place, Code::BadByte),
        LexRefusal::OpenText(place) => telling_at(alloc, place, Code::OpenText),
        LexRefusal::OpenComment(place) => telling_at(alloc, place, Code::OpenComment),
        LexRefusal::LongName(place) => telling_at(alloc, place, Code::LongName),
        LexRefusal::Memory => Err(AllocError),
    }
}

/// What is told of tokens, if they are no program within the limits, or one that breaks a rule.
fn tokens_telling<F: Folder + Listing>(
    alloc: Global,
    page: Page<'_>,
    stop: &Option<Stop>,
    depth: u32,
    folder: &mut F,
) -> Result<Option<Telling>, AllocError>
    requires end { EndsOnce page.tokens.now }
    requires depth { depth ≤ 64 }
    requires stops { StopsAmong depth (F.state folder.old).files page.tokens.now stop.now }
    ensures files { (F.state folder.new).files ≡ (F.state folder.old).files }
    ensures told { IfOk result (λ found. MatchOption found
        (AreMet depth (F.state folder.old).files page.entry.tokens.now)
        (λ telling. IsTokenFault depth (F.state folder.old).files page.entry.tokens.now telling.place
        telling.words.items)) }
{
    match parse(alloc, page.tokens) {
        Ok(program) => {
            let program = &program;
            program_telling(
                Book {
                    alloc,
                    page,
                    program,
                },
                stop,
                depth,
                folder,
            )
        }
        Err(refusal) => {
            let telling = grammatical_telling(alloc, page, refusal)?;
            Ok(Some(telling))
        }
    }
}

/// What is told of tokens that are no program within the limits.
fn grammatical_telling(
    alloc: Global,
    page: Page<'_>,
    refusal: ParseRefusal,
) -> Result<Telling, AllocError>
    ensures { IfOk result (λ telling. IsGrammaticalPlace refusal telling.place) }
{
    match refusal {
        ParseRefusal::Syntax(place) => telling_at_token(alloc, page, place, Code::Syntax),
        ParseRefusal::TooDeep(place) => telling_at_token(alloc, page, place, Code::TooDeep),
        ParseRefusal::Unsupported(place, _) => {
            telling_at_token(alloc, page, place, Code::Unsupported)
        }
        ParseRefusal::BadOption(place) => telling_at_token(alloc, page, place, Code::BadOption),
        ParseRefusal::Memory => Err(AllocError),
    }
}

/// What is told of a program that breaks a rule.
fn program_telling<F: Folder + Listing>(
    book: Book<'_>,
    stop: &Option<Stop>,
    depth: u32,
    folder: &mut F,
) -> Result<Option<Telling>, AllocError>
    requires depth { depth ≤ 64 }
    requires stops { StopsOrMeets depth (F.state folder.old).files book.program.now stop.now }
    ensures files { (F.state folder.new).files ≡ (F.state folder.old).files }
    ensures told { IfOk result (λ found. MatchOption found
        (MeetRules (F.state folder.old).files book.entry.program.now)
        (λ telling. IsProgramFault depth (F.state folder.old).files book.entry.page.tokens.now book.entry.program.now
        telling.place telling.words.items)) }
{
    if !has_few_parts(book.program) {
        return Err(AllocError);
    }
    match stop {
        Some(stop) => {
            let telling = stop_telling(book, stop, depth, folder)?;
            Ok(Some(telling))
        }
        None => Ok(None),
    }
}

/// What is told of the declaration at which a program stops.
fn stop_telling<F: Folder + Listing>(
    book: Book<'_>,
    stop: &Stop,
    depth: u32,
    folder: &mut F,
) -> Result<Telling, AllocError>
    requires few { HasFewParts book.program.now }
    requires settled { AreSettled (environment_of stop.now.env.names.entries) }
    requires depth { depth ≤ 64 }
    ensures files { (F.state folder.new).files ≡ (F.state folder.old).files }
    ensures told { (decl : AnyDecl) → slice_get book.entry.program.now.decls stop.now.number ≡ Some decl
        → IfOk result (λ telling. IsToldOf book.entry.page.tokens.now decl stop.now.fault telling.place
        telling.words.items) }
{
    let decls = book.program.decls.as_slice();
    // The number is that of a declaration.
    if stop.number >= decls.len() {
        return Err(AllocError);
    }
    fault_telling(book, &decls[stop.number], stop, depth, folder)
}

/// What is told of a fault of a declaration.
fn fault_telling<F: Folder + Listing>(
    book: Book<'_>,
    decl: &Decl,
    stop: &Stop,
    depth: u32,
    folder: &mut F,
) -> Result<Telling, AllocError>
    requires few { part_count decl.now.body < 2 ^ 32 }
    requires settled { AreSettled (environment_of stop.now.env.names.entries) }
    requires depth { depth ≤ 64 }
    ensures files { (F.state folder.new).files ≡ (F.state folder.old).files }
    ensures told { IfOk result (λ telling. IsToldOf book.entry.page.tokens.now decl.now stop.now.fault telling.place
        telling.words.items) }
{
    match &stop.fault {
        Fault::Broken(place, reason) => {
            let case = Case {
                book,
                decl,
                env: &stop.env,
                depth,
                place: *place,
            };
            broken_telling(case, reason, folder)
        }
        Fault::Unread(file, cause) => {
            lacking_telling(book.alloc, decl, file.as_str(), *cause, folder)
        }
    }
}

/// That a file that a declaration reads isn't read.
fn lacking_telling<F: Listing>(
    alloc: Global,
    decl: &Decl,
    file: &str,
    cause: ReadCause,
    folder: &F,
) -> Result<Telling, AllocError>
    ensures { IfOk result (λ telling. telling.place ≡ decl.now.place) }
{
    let mut words = Vec::new(alloc);
    append_unread(alloc, unread_of(cause), file, folder, &mut words)?;
    Ok(Telling {
        place: decl.place,
        words,
    })
}
