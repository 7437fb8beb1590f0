//! The top call.
ghost use Rattle.std.specs.Prelude.{◌≡◌, map, string_bytes};
ghost use Rattle.cq_export.specs.Held.{files_held};
ghost use Rattle.cq_program.specs.Named.{listed_as};
ghost use Rattle.cq_run.specs.Asked.{IsReply};
ghost use Rattle.cq_run.specs.Clause.{RunGives, Succeeds};
ghost use Rattle.cq_run.specs.Files.{files_of};
ghost use Rattle.cq_run.specs.Scene.{drain_of, outlets_of, scene_of};
ghost use Rattle.cq_run.specs.Summary.{shown_in};
ghost use Rattle.cq_run.specs.Writing.{IsMeant, Publishes, Replied, Stage, Tells};
ghost use Rattle.cq_words.specs.Ask.{ask_of};
ghost use Rattle.cq_words.specs.Reads.{reads};

use crate::answer::{Answer, answer_to};
use crate::choice::{keep_format, only_of};
use crate::output::{Output, View, output_of};
use crate::question::reply_to;
use crate::status::Status;
use cq_export::{Handed, hand_over};
use cq_io::{Exporter, Folder, Sink};
use cq_program::Named;
use cq_words::{Request, read_words};
use std::alloc::Global;

const USAGE: &str = "usage: cqlrun run FILE [--depth K] [--only csv|cql]\n";

/// Runs the words: reads the file that they name from `folder`, and there the files of its imports, and writes the
/// transcripts of its instances, or the line that says why there are none, to `out`, in one write. Then the files of
/// the instances are handed to each exporter of the formats that are asked for, in turn; the others are dropped before
/// anything is read. An exporter that fails is moved to the end of `spoiled`, and the next goes on; one that has no
/// memory ends the run.
///
/// The run of an example is that of a file with its text, at depth 16, but that the summary of its instances is written
/// in place of their transcripts.
///
/// A question is answered about one of the instances of a file: the text that explains whether two terms are equal in
/// it is written, as `cq_explain::explanation` makes it, in place of their transcripts, and nothing is exported: no
/// exporter is dropped or written to. Where no instance declaration has the name, the line of code 37 is written, and
/// where the two texts make no equation over the instance's presentation, that of code 38, both with `Refused`.
///
/// The files of an import are read when its declaration's turn comes. One that is absent, too long or can't be read
/// ends the run as the file itself does, with `Read`.
///
/// What each status says stands with the clause `gives`. A run over devices that don't fail, of a text that has a
/// meaning over the files that the folder tells, breaks no rule and passes no limit at the depth of the words, ends
/// with `Ok` or for want of memory (the clause `complete`).
pub fn run<F: Folder, K: Sink>(
    alloc: Global,
    words: &[String],
    folder: &mut F,
    exporters: &mut Vec<Box<dyn Exporter>>,
    spoiled: &mut Vec<Box<dyn Exporter>>,
    out: &mut K,
) -> Status
    ensures files { (F.state folder.new).files ≡ (F.state folder.old).files }
    ensures gives { RunGives (reads (map string_bytes words.now))
        (scene_of (F.state folder.old)
        (drain_of (K.held out.old) (K.faults out.old) (K.spare out.old))
        (outlets_of (map account exporters.old.items) (map account spoiled.old.items)))
        (scene_of (F.state folder.new)
        (drain_of (K.held out.new) (K.faults out.new) (K.spare out.new))
        (outlets_of (map account exporters.new.items) (map account spoiled.new.items)))
        result }
    ensures complete { Succeeds (reads (map string_bytes words.now))
        (scene_of (F.state folder.old)
        (drain_of (K.held out.old) (K.faults out.old) (K.spare out.old))
        (outlets_of (map account exporters.old.items) (map account spoiled.old.items)))
        (scene_of (F.state folder.new)
        (drain_of (K.held out.new) (K.faults out.new) (K.spare out.new))
        (outlets_of (map account exporters.new.items) (map account spoiled.new.items)))
        result }
{
    match read_words(alloc, words) {
        Err(_) => Status::Memory,
        Ok(None) => tell(out, USAGE.as_bytes(), Status::Usage),
        Ok(Some(request)) => {
            keep_format(exporters, only_of(request));
            match answer_to(alloc, request, folder) {
                Answer::Memory => Status::Memory,
                Answer::Refused(line) => tell(out, line.as_slice(), Status::Refused),
                Answer::Unread(line) => tell(out, line.as_slice(), Status::Read),
                Answer::Accepted(instances) => {
                    publish(alloc, request, instances, exporters, spoiled, out)
                }
            }
        }
    }
}

/// Writes the line that is due, with the status that the run then has.
fn tell<K: Sink>(out: &mut K, line: &[u8], wanted: Status) -> Status
    ensures { Tells wanted result (drain_of (K.held out.old) (K.faults out.old) (K.spare out.old))
        (drain_of (K.held out.new) (K.faults out.new) (K.spare out.new)) line.now }
{
    match out.write_all(line) {
        Ok(()) => wanted,
        Err(_) => Status::Write,
    }
}

/// Exports the instances, or answers what is asked of one of them.
fn publish<K: Sink>(
    alloc: Global,
    request: Request<'_>,
    instances: Vec<Named>,
    exporters: &mut Vec<Box<dyn Exporter>>,
    spoiled: &mut Vec<Box<dyn Exporter>>,
    out: &mut K,
) -> Status
    requires { IsMeant (map listed_as instances.items) }
    ensures { Publishes (ask_of request.entry) (map listed_as instances.items)
        (drain_of (K.held out.old) (K.faults out.old) (K.spare out.old))
        (drain_of (K.held out.new) (K.faults out.new) (K.spare out.new))
        (outlets_of (map account exporters.old.items) (map account spoiled.old.items))
        (outlets_of (map account exporters.new.items) (map account spoiled.new.items))
        result }
{
    match request {
        Request::Run { .. } => export_all(
            alloc,
            View::Transcripts,
            instances,
            exporters,
            spoiled,
            out,
        ),
        Request::Example(_) => export_all(alloc, View::Summary, instances, exporters, spoiled, out),
        Request::Explain {
            instance,
            left,
            right,
            ..
        } => answer_question(alloc, instances.as_slice(), instance, left, right, out),
    }
}

/// Writes the answer to a question about one of the instances, or the line that says why it has none.
fn answer_question<K: Sink>(
    alloc: Global,
    instances: &[Named],
    name: &str,
    left: &str,
    right: &str,
    out: &mut K,
) -> Status
    requires { IsMeant (map listed_as instances.now) }
    ensures { Replied (IsReply name.now left.now right.now (map listed_as instances.now))
        (drain_of (K.held out.old) (K.faults out.old) (K.spare out.old))
        (drain_of (K.held out.new) (K.faults out.new) (K.spare out.new))
        result }
{
    match reply_to(alloc, instances, name, left, right) {
        Ok(reply) => tell(out, reply.line.as_slice(), reply.status),
        Err(_) => Status::Memory,
    }
}

/// Renders all that is written of the instances, and writes and exports it.
fn export_all<K: Sink>(
    alloc: Global,
    view: View,
    instances: Vec<Named>,
    exporters: &mut Vec<Box<dyn Exporter>>,
    spoiled: &mut Vec<Box<dyn Exporter>>,
    out: &mut K,
) -> Status
    ensures { Stage (files_of (map listed_as instances.items)) (shown_in view (map listed_as instances.items))
        (drain_of (K.held out.old) (K.faults out.old) (K.spare out.old))
        (drain_of (K.held out.new) (K.faults out.new) (K.spare out.new))
        (outlets_of (map account exporters.old.items) (map account spoiled.old.items))
        (outlets_of (map account exporters.new.items) (map account spoiled.new.items))
        result }
{
    let output = output_of(alloc, view, instances.as_slice());
    // Their texts are all that is left to write, and the instances take more memory than these.
    drop(instances);
    match output {
        Ok(output) => export(exporters, spoiled, out, &output),
        Err(_) => Status::Memory,
    }
}

/// Writes what is shown of the instances, and then hands the files over. Room for every exporter in `spoiled` is made
/// before the write, so that moving one takes no memory.
fn export<K: Sink>(
    exporters: &mut Vec<Box<dyn Exporter>>,
    spoiled: &mut Vec<Box<dyn Exporter>>,
    out: &mut K,
    output: &Output,
) -> Status
    ensures { Stage (files_held output.now.files) output.now.shown.items
        (drain_of (K.held out.old) (K.faults out.old) (K.spare out.old))
        (drain_of (K.held out.new) (K.faults out.new) (K.spare out.new))
        (outlets_of (map account exporters.old.items) (map account spoiled.old.items))
        (outlets_of (map account exporters.new.items) (map account spoiled.new.items))
        result }
{
    let Ok(()) = spoiled.reserve(exporters.len()) else {
        return Status::Memory;
    };
    let Ok(()) = out.write_all(output.shown.as_slice()) else {
        return Status::Write;
    };
    match hand_over(exporters, spoiled, &output.files) {
        Handed::Whole => Status::Ok,
        Handed::Spoiled => Status::Write,
        Handed::Memory => Status::Memory,
    }
}
