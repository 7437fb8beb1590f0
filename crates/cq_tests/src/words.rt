//! Lines of words, and what they ask for.

use cq_io::Format;
use cq_words::{Request, read_words};
use std::alloc::Global;
use std::process::Abort;

/// A line of words, with the depth and the choice of format.
type Run = (&'static str, u32, Option<Format>);

/// Runs of `p.cql`.
static RUNS: [Run; 9] = [
    ("run p.cql", 16, None),
    ("run p.cql --depth 5", 5, None),
    ("run --depth 5 p.cql", 5, None),
    ("run p.cql --depth=5", 5, None),
    ("run p.cql --depth +5", 5, None),
    ("run p.cql --depth 007", 7, None),
    ("run p.cql --only csv --depth 0", 0, Some(Format::Csv)),
    ("run --only=cql p.cql --depth 64", 64, Some(Format::Cql)),
    ("run --depth 64 -- p.cql", 64, None),
];

/// Other files.
static FILES: [(&str, &str); 5] = [
    ("run -", "-"),
    ("run ", ""),
    ("run help", "help"),
    ("run -- --depth", "--depth"),
    ("run -- --", "--"),
];

/// Words that ask for nothing.
static REFUSED: [&str; 26] = [
    "",
    "run",
    "run p.cql q.cql",
    "draw p.cql",
    "-- run p.cql",
    "run p.cql --depth 65",
    "run p.cql --depth -0",
    "run p.cql --depth=-0",
    "run p.cql --depth=",
    "run p.cql --depth ",
    "run p.cql --depth",
    "run p.cql --depth x",
    "run p.cql --depth 5 --depth 5",
    "run p.cql --only xml",
    "run p.cql --only csv --only cql",
    "run p.cql --dep 5",
    "help",
    "help run",
    "--help",
    "-h",
    "-V",
    "run --help",
    "run p.cql -h",
    "example 0",
    "example 200000",
    "explain p.cql I a",
];

/// The words between the single blanks of a line.
fn words(rt: &impl Abort, alloc: Global, line: &str) -> Vec<String> {
    let mut words = Vec::new(alloc);
    for word in line.split(' ') {
        let word = String::from_str(alloc, word).expect(rt, "memory");
        words.push(word).expect(rt, "memory");
    }
    words
}

/// Whether this is what the words of a line ask for.
fn asks(rt: &impl Abort, alloc: Global, line: &str, wanted: Option<Request<'_>>) -> bool {
    let words = words(rt, alloc, line);
    read_words(alloc, words.as_slice()).expect(rt, "memory") == wanted
}

/// Whether the words of a line ask for its run.
fn asks_for_run(rt: &impl Abort, alloc: Global, (line, depth, only): Run) -> bool {
    let file = "p.cql";
    asks(rt, alloc, line, Some(Request::Run { file, depth, only }))
}

#[test]
fn runs_with_their_options(rt: HostRuntime) {
    for run in &RUNS {
        assert!(rt; asks_for_run(&rt, rt.alloc(), *run), "{}", run.0);
    }
}

#[test]
fn runs_of_other_files(rt: HostRuntime) {
    for (line, file) in &FILES {
        let (depth, only) = (16, None);
        let wanted = Request::Run { file, depth, only };
        assert!(rt; asks(&rt, rt.alloc(), line, Some(wanted)), "{line}");
    }
}

#[test]
fn words_that_ask_for_nothing(rt: HostRuntime) {
    for line in &REFUSED {
        assert!(rt; asks(&rt, rt.alloc(), line, None), "{line}");
    }
}

#[test]
fn the_largest_example(rt: HostRuntime) {
    let wanted = Request::Example(199_999);
    assert!(rt; asks(&rt, rt.alloc(), "example 199999", Some(wanted)));
}

#[test]
fn a_question(rt: HostRuntime) {
    let wanted = Request::Explain {
        file: "p.cql",
        instance: "I",
        left: "a",
        right: "-b",
        depth: 3,
    };
    let line = "explain p.cql --depth 3 I a -- -b";
    assert!(rt; asks(&rt, rt.alloc(), line, Some(wanted)));
}
