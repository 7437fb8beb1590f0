//! From the words to what they ask for.

ghost use Rattle.std.specs.Prelude.{◌≡◌, IfOk, IfSome, map, string_bytes, option_map};
ghost use Rattle.cq_words.specs.Ask.{IsInRange, ask_of};
ghost use Rattle.cq_words.specs.Reads.{reads};

use crate::command::command;
use crate::found::request_in;
use crate::request::Request;
use clap::error::ErrorKind;
use std::alloc::{AllocError, Global};

/// Reads the words after the program's own name, as `clap` reads them: the options stand before or after the other
/// words, `--depth=5` is `--depth 5`, and `--` ends the options. A number may have a `+` and zeros in front. Words
/// that `clap` refuses, those that ask for help among them, give None.
pub fn read_words<'a>(alloc: Global, words: &'a [String]) -> Result<Option<Request<'a>>, AllocError>
    ensures reads { IfOk result (λ request. option_map ask_of request ≡ reads (map string_bytes words.now)) }
    ensures in_range { IfOk result (λ request. IfSome request IsInRange) }
{
    match command(alloc)?.try_get_matches_from(words) {
        Ok(matches) => Ok(request_in(&matches)),
        Err(error) => match error.kind() {
            ErrorKind::OutOfMemory => Err(AllocError),
            _ => Ok(None),
        },
    }
}
