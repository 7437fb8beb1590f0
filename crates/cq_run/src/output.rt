//! All that the instances of a program are written as.
ghost use Rattle.std.specs.Prelude.{◌≡◌, ◌++◌, map, IfOk, OnOk};
ghost use Rattle.cq_program.specs.Named.{listed_as};
ghost use Rattle.cq_run.specs.Answer.{Prints};
ghost use Rattle.cq_run.specs.Meaning.{transcript_of, transcripts_of};
ghost use Rattle.cq_run.specs.Summary.{shown_in};

use crate::files::files_of;
use crate::summary::summary;
use cq_export::FileLists;
use cq_program::Named;
use std::alloc::{AllocError, Global};

/// How instances are written: as their transcripts, or as a summary.
#[derive(Clone, Copy)]
pub enum View {
    Transcripts,
    Summary,
}

/// What is written of instances, and their files.
pub struct Output {
    pub shown: Vec<u8>,
    pub files: FileLists,
}

impl Drop for Output {
    fn drop(self) {
        let Self { shown: _, files: _ } = self;
    }
}

/// What instances are written as.
pub fn output_of(alloc: Global, view: View, instances: &[Named]) -> Result<Output, AllocError>
    ensures { IfOk result (Prints view (map listed_as instances.now)) }
{
    let shown = show(alloc, view, instances)?;
    let files = files_of(alloc, instances)?;
    Ok(Output { shown, files })
}

/// What is written of the instances.
fn show(alloc: Global, view: View, instances: &[Named]) -> Result<Vec<u8>, AllocError>
    ensures { IfOk result (λ text. text.items ≡ shown_in view (map listed_as instances.now)) }
{
    match view {
        View::Transcripts => transcripts(alloc, instances),
        View::Summary => summary(alloc, instances),
    }
}

/// The transcripts of instances, in order.
#[tactic(auto, unfolding(crate::specs::Meaning::transcripts_of))]
fn transcripts(alloc: Global, instances: &[Named]) -> Result<Vec<u8>, AllocError>
    ensures { IfOk result (λ text. text.items ≡ transcripts_of (map listed_as instances.now)) }
{
    let mut text = Vec::new(alloc);
    for named in instances {
        push_transcript(alloc, named, &mut text)?;
    }
    Ok(text)
}

/// Appends the transcript of an instance.
fn push_transcript(alloc: Global, named: &Named, text: &mut Vec<u8>) -> Result<(), AllocError>
    ensures { OnOk result (text.new.items ≡ text.old.items ++ transcript_of (listed_as named.now)) }
{
    cq_text::push_transcript(alloc, &named.name, &named.schema, &named.instance, text)?;
    Ok(())
}
