//! Reading or making the text of a run, and judging it.
ghost use Rattle.std.specs.Prelude.{◌≡◌, ◌≤◌, IfOk, IfSome, IsErrOf, Some, false, vec_len};
ghost use Rattle.cq_import.specs.Folders.{Keeps};
ghost use Rattle.cq_io.specs.Reads.{IsReadOf};
ghost use Rattle.cq_run.specs.Ask.{depth_asked, file_asked};
ghost use Rattle.cq_run.specs.Answer.{Answers, SaysRead, SaysUnread};
ghost use Rattle.cq_run.specs.Clause.{file_limit};
ghost use Rattle.cq_run.specs.Lines.{read_line};
ghost use Rattle.cq_run.specs.Meaning.{IsTreeOf};
ghost use Rattle.cq_run.specs.Stops.{HasStop};
ghost use Rattle.cq_words.specs.Ask.{Ask, IsInRange, ask_of, example};

use crate::judge::{Judged, judge, judge_with_stop};
use cq_example::example_text;
use cq_io::{Folder, ReadRefusal};
use cq_program::{Named, ReadCause, Stop};
use cq_words::Request;
use std::alloc::{AllocError, Global};

/// What becomes of a run before anything is written.
#[derive(Drop)]
pub enum Answer {
    /// The instances that the text means.
    Accepted(Vec<Named>),
    /// The line of a refused text.
    Refused(Vec<u8>),
    /// The line of a file that was not read: the one that is run, or one that an import reads.
    Unread(Vec<u8>),
    Memory,
}

/// The most bytes of a program file: 8 MiB.
const FILE_LIMIT: u64 = 8388608;

/// The depth to which the models of an example are made.
const EXAMPLE_DEPTH: u32 = 16;

/// Reads the file or makes the text of the example, and judges it with models made to the depth.
pub fn answer_to<F: Folder>(alloc: Global, request: Request<'_>, folder: &mut F) -> Answer
    requires { IsInRange request }
    ensures files { (F.state folder.new).files ≡ (F.state folder.old).files }
    ensures answers { Answers (ask_of request.entry) (F.state folder.old) (F.state folder.new) result }
{
    match request {
        Request::Run { file, depth, .. } => answer_alone(alloc, file, depth, folder),
        Request::Example(size) => answer_to_example(alloc, size, folder),
        Request::Explain { file, depth, .. } => answer_alone(alloc, file, depth, folder),
    }
}

/// Reads the file, judges its text, and gives back all else that is known of it.
fn answer_alone<F: Folder>(alloc: Global, file: &str, depth: u32, folder: &mut F) -> Answer
    requires { depth ≤ 64 }
    ensures files { (F.state folder.new).files ≡ (F.state folder.old).files }
    ensures answers { (ask : Ask) → file_asked ask ≡ Some file.now → depth_asked ask ≡ depth → Answers ask
        (F.state folder.old) (F.state folder.new)
        result }
{
    let FileAnswer { answer, .. } = answer_to_file(alloc, file, depth, folder);
    answer
}

/// What was read of a file, what becomes of it, and where its program stops to meet its rules, if it does.
#[derive(Drop)]
pub struct FileAnswer {
    pub reading: Result<Vec<u8>, ReadRefusal>,
    pub answer: Answer,
    pub stop: Option<Stop>,
}

/// Reads the file, and judges its text.
pub fn answer_to_file<F: Folder>(
    alloc: Global,
    file: &str,
    depth: u32,
    folder: &mut F,
) -> FileAnswer
    requires { depth ≤ 64 }
    ensures keeps { Keeps (F.state folder.old) (F.state folder.new) }
    ensures answers { (ask : Ask) → file_asked ask ≡ Some file.now → depth_asked ask ≡ depth → Answers ask
        (F.state folder.old) (F.state folder.new)
        result.answer }
    ensures told { IfSome (F.state folder.old).files (IsReadOf file.now file_limit result.reading) }
    ensures short { IfOk result.reading (λ text. vec_len text ≤ file_limit) }
    ensures fails { IsErrOf result.reading ReadRefusal.Failed → (F.state folder.old).steady ≡ false }
    ensures stops { IfOk result.reading (λ text. HasStop (IsTreeOf text.items) depth (F.state folder.old).files
        result.answer result.stop) }
{
    match folder.read(file, FILE_LIMIT) {
        Ok(text) => {
            let Judged { answer, stop } = judge_with_stop(alloc, text.as_slice(), depth, folder);
            FileAnswer {
                reading: Ok(text),
                answer,
                stop,
            }
        }
        Err(refusal) => FileAnswer {
            reading: Err(refusal),
            answer: answer_unread(alloc, file, refusal),
            stop: None,
        },
    }
}

/// What is to be written for a file that was not read, by its refusal.
fn answer_unread(alloc: Global, file: &str, refusal: ReadRefusal) -> Answer
    ensures { SaysRead file.now refusal result }
{
    match refusal {
        ReadRefusal::Absent => unread(alloc, file, ReadCause::Absent),
        ReadRefusal::TooLong => unread(alloc, file, ReadCause::TooLong),
        ReadRefusal::Failed => unread(alloc, file, ReadCause::Failed),
        ReadRefusal::Memory => Answer::Memory,
    }
}

/// Makes the text of the example, and judges it.
fn answer_to_example<F: Folder>(alloc: Global, size: u32, folder: &mut F) -> Answer
    requires some { 1 ≤ size }
    requires most { size ≤ 199999 }
    ensures files { (F.state folder.new).files ≡ (F.state folder.old).files }
    ensures answers { Answers (example size) (F.state folder.old) (F.state folder.new) result }
{
    match example_text(alloc, size) {
        Ok(text) => judge(alloc, text.as_slice(), EXAMPLE_DEPTH, folder),
        Err(_) => Answer::Memory,
    }
}

/// What is to be written for a file that was not read.
pub fn unread(alloc: Global, name: &str, cause: ReadCause) -> Answer
    ensures { SaysUnread name.now cause result }
{
    match unread_line(alloc, name, cause) {
        Ok(line) => Answer::Unread(line),
        Err(_) => Answer::Memory,
    }
}

/// The line of a file that was not read.
fn unread_line(alloc: Global, name: &str, cause: ReadCause) -> Result<Vec<u8>, AllocError>
    ensures { IfOk result (λ line. line.items ≡ read_line name.now cause) }
{
    let mut line = Vec::from_slice(alloc, b"read ")?;
    line.extend_from_slice(name.as_bytes())?;
    let word = match cause {
        ReadCause::Absent => " absent\n",
        ReadCause::TooLong => " too long\n",
        ReadCause::Failed => " failed\n",
    };
    line.extend_from_slice(word.as_bytes())?;
    Ok(line)
}
