//! From the words to what they ask for.
ghost use Rattle.std.specs.Prelude.{◌≡◌, ◌≤◌, ◌++◌, ◌∷◌, [], IfOk, IfSome, OnOk, Some, map, option_map, string_bytes};
ghost use Rattle.cq_asked.specs.Asked.{file_asked, run_words};
ghost use Rattle.cq_words.specs.Ask.{IsInRange, ask_of};
ghost use Rattle.cq_words.specs.Reads.{reads};

use cq_words::{Request, read_words};
use std::alloc::{AllocError, Global};

/// A file of which is asked why it is refused, and the depth to which its models are made, at most 64.
#[derive(Clone, Copy, Debug, PartialEq, Eq)]
pub struct Asked<'a> {
    pub file: &'a str,
    pub depth: u32,
}

/// The words of the run of which is told: `run`, and these.
pub fn run_words(alloc: Global, words: &[String]) -> Result<Vec<String>, AllocError>
    ensures { IfOk result (λ all. map string_bytes all.items ≡ run_words (map string_bytes words.now)) }
{
    let mut all = Vec::new(alloc);
    all.push(String::from_str(alloc, "run")?)?;
    for word in words {
        push_copy(alloc, &mut all, word)?;
    }
    Ok(all)
}

fn push_copy(alloc: Global, words: &mut Vec<String>, word: &String) -> Result<(), AllocError>
    ensures { OnOk result (map string_bytes words.new.items
        ≡ map string_bytes words.old.items ++ string_bytes word.now ∷ []) }
{
    words.push(String::from_str(alloc, word.as_str())?)?;
    Ok(())
}

/// The file and the depth of a run's words, with `run` in front of them. Words that ask for no run, or choose a format
/// in which is exported, give None.
pub fn read_run_words<'a>(
    alloc: Global,
    words: &'a [String],
) -> Result<Option<Asked<'a>>, AllocError>
    ensures asked { IfOk result (λ asked. option_map (λ a. (a.file.now, a.depth)) asked
        ≡ file_asked (reads (map string_bytes words.now))) }
    ensures limited { IfOk result (λ asked. IfSome asked (λ a. a.depth ≤ 64)) }
{
    match read_words(alloc, words)? {
        Some(request) => Ok(asked_by(request)),
        None => Ok(None),
    }
}

/// The file and the depth of a run that exports in each format.
fn asked_by(request: Request<'_>) -> Option<Asked<'_>>
    requires { IsInRange request }
    ensures asked { option_map (λ a. (a.file.now, a.depth)) result ≡ file_asked (Some (ask_of request.entry)) }
    ensures limited { IfSome result (λ a. a.depth ≤ 64) }
{
    match request {
        Request::Run { file, depth, only } => match only {
            None => Some(Asked { file, depth }),
            Some(_) => None,
        },
        Request::Example(_) => None,
        Request::Explain { .. } => None,
    }
}
