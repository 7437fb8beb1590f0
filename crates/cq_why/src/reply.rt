//! What is told of a file.
ghost use Rattle.std.specs.Prelude.{◌≡◌, ◌≤◌, IfOk, None, Some, map, string_bytes};
ghost use Rattle.cq_asked.specs.Asked.{run_words};
ghost use Rattle.cq_words.specs.Ask.{run};
ghost use Rattle.cq_words.specs.Reads.{reads};
ghost use Rattle.cq_why.specs.Clause.{HasToTell};
ghost use Rattle.cq_why.specs.Replies.{GoesOn, SaysOk};

use cq_asked::{Asked, notice, read_run_words, run_words};
use cq_io::{Folder, Listing};
use cq_run::{Answer, FileAnswer, Status, answer_to_file};
use cq_told::explanation;
use std::alloc::{AllocError, Global};

/// What is to be written, with the status that the run then has.
#[derive(Drop)]
pub struct Reply {
    pub status: Status,
    pub text: Vec<u8>,
}

/// What is to be written for these words.
pub fn reply_to<F: Folder + Listing>(
    alloc: Global,
    words: &[String],
    folder: &mut F,
) -> Result<Reply, AllocError>
    ensures files { (F.state folder.new).files ≡ (F.state folder.old).files }
    ensures tells { IfOk result (λ reply. HasToTell (reads (run_words (map string_bytes words.now)))
        (F.state folder.old) reply.status reply.text.items) }
{
    let all = run_words(alloc, words)?;
    let all_words = all.as_slice();
    let found = read_run_words(alloc, all_words)?;
    match found {
        Some(asked) => reply_about(alloc, asked, folder),
        None => {
            let text = notice(alloc, words)?;
            Ok(Reply {
                status: Status::Usage,
                text: text.into_bytes(),
            })
        }
    }
}

/// What is to be written of a file, by what becomes of it in a run.
fn reply_about<F: Folder + Listing>(
    alloc: Global,
    asked: Asked<'_>,
    folder: &mut F,
) -> Result<Reply, AllocError>
    requires { asked.depth ≤ 64 }
    ensures files { (F.state folder.new).files ≡ (F.state folder.old).files }
    ensures tells { IfOk result (λ reply. HasToTell (Some (run asked.entry.file.now asked.entry.depth None))
        (F.state folder.old) reply.status reply.text.items) }
{
    let FileAnswer {
        reading,
        answer,
        stop,
    } = answer_to_file(alloc, asked.file, asked.depth, folder);
    match answer {
        Answer::Accepted(_) => accepted(alloc),
        Answer::Refused(line) => {
            let rest = explanation(alloc, asked.file, &reading, &stop, asked.depth, folder)?;
            followed(Status::Refused, line, rest)
        }
        Answer::Unread(line) => {
            let rest = explanation(alloc, asked.file, &reading, &stop, asked.depth, folder)?;
            followed(Status::Read, line, rest)
        }
        Answer::Memory => Err(AllocError),
    }
}

/// That a file is accepted.
fn accepted(alloc: Global) -> Result<Reply, AllocError>
    ensures { IfOk result SaysOk }
{
    let text = Vec::from_slice(alloc, b"accepted\n")?;
    Ok(Reply {
        status: Status::Ok,
        text,
    })
}

/// A line with its status, and behind it why it was written.
fn followed(status: Status, line: Vec<u8>, rest: Vec<u8>) -> Result<Reply, AllocError>
    ensures { IfOk result (GoesOn status line.items) }
{
    let mut text = line;
    text.extend_from_slice(rest.as_slice())?;
    Ok(Reply { status, text })
}
