//! The top call.
ghost use Rattle.std.specs.Prelude.{◌≡◌, map, string_bytes};
ghost use Rattle.cq_asked.specs.Asked.{run_words};
ghost use Rattle.cq_words.specs.Reads.{reads};
ghost use Rattle.cq_run.specs.Scene.{drain_of};
ghost use Rattle.cq_run.specs.Writing.{Tells};
ghost use Rattle.cq_why.specs.Clause.{WhyGives};

use crate::reply::reply_to;
use cq_io::{Folder, Listing, Sink};
use cq_run::Status;
use std::alloc::Global;

/// Says why the file is refused that the words name: writes the line that a run of `cqlrun` with these words would
/// write, or `accepted`, and then, of a file that is refused or not read, what is wrong and what there is to mend. The
/// status is that of the run. Words that name no file get the text that `clap` has for them, with the status of such a
/// run. All is made in memory before the first byte is written: for want of memory nothing is.
///
/// What each status says stands with the clause `gives`; what follows the line is free, but for what the crates below
/// `cq_told` say of it.
pub fn why<F: Folder + Listing, K: Sink>(
    alloc: Global,
    words: &[String],
    folder: &mut F,
    out: &mut K,
) -> Status
    ensures files { (F.state folder.new).files ≡ (F.state folder.old).files }
    ensures gives { WhyGives (reads (run_words (map string_bytes words.now))) (F.state folder.old)
        (drain_of (K.held out.old) (K.faults out.old) (K.spare out.old))
        (drain_of (K.held out.new) (K.faults out.new) (K.spare out.new))
        result }
{
    match reply_to(alloc, words, folder) {
        Ok(reply) => tell(out, reply.text.as_slice(), reply.status),
        Err(_) => Status::Memory,
    }
}

/// Writes a text, with the status that the run then has.
fn tell<K: Sink>(out: &mut K, text: &[u8], wanted: Status) -> Status
    ensures { Tells wanted result (drain_of (K.held out.old) (K.faults out.old) (K.spare out.old))
        (drain_of (K.held out.new) (K.faults out.new) (K.spare out.new)) text.now }
{
    match out.write_all(text) {
        Ok(()) => wanted,
        Err(_) => Status::Write,
    }
}
