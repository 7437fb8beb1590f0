//! What is told of words that ask for no file.
use clap::error::ErrorKind;
use clap::{Arg, Command, Error, value_parser};
use std::alloc::{AllocError, Global};

/// What `clap` tells of words: how the program is called, where they ask for that, or what is wrong with them.
pub fn notice(alloc: Global, words: &[String]) -> Result<String, AllocError> {
    match command(alloc)?.try_get_matches_from(words) {
        Ok(_) => String::from_str(alloc, "cqlwhy FILE [--depth K]\n"),
        Err(error) => text_of(alloc, &error),
    }
}

/// The text of an error, unless it is want of memory.
fn text_of(alloc: Global, error: &Error) -> Result<String, AllocError> {
    match error.kind() {
        ErrorKind::OutOfMemory => Err(AllocError),
        _ => format!(in alloc; "{error}"),
    }
}

/// `cqlwhy FILE [--depth K]`. The words have no program's name before them.
fn command<'a>(alloc: Global) -> Result<Command<'a>, AllocError> {
    Command::new(alloc, "cqlwhy")
        .no_binary_name(true)
        .about(
            "Says why a file of the Categorical Query Language is refused, and what there is to mend",
        )
        .arg(file_arg(alloc))?
        .arg(depth_arg(alloc))
}

fn file_arg<'a>(alloc: Global) -> Arg<'a> {
    Arg::new(alloc, "FILE")
        .required(true)
        .help("The file, as cqlrun run reads it")
}

fn depth_arg<'a>(alloc: Global) -> Arg<'a> {
    Arg::new(alloc, "depth")
        .long("depth")
        .value_name("K")
        .value_parser(value_parser!(u64).range(0..=64))
        .default_value("16")
        .help("How deep the terms may be by which rows are made, from 0 to 64")
}
