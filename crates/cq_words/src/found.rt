//! From the matches that `clap` found to what the words ask for.

ghost use Rattle.std.specs.Prelude.{◌≡◌, codes, option_map, option_and_then, IfSome, ◌≤◌};
ghost use Rattle.clap.specs.Words.{first_of, found_of, one_of, rows_of, subcommand_rows_of};
ghost use Rattle.cq_words.specs.Ask.{IsInRange, ask_of};
ghost use Rattle.cq_words.specs.Reads.{asked, choice_in, depth_in, example_in, explain_in, number_in, run_in};

use crate::request::Request;
use clap::ArgMatches;
use cq_io::Format;

/// The greatest depth.
const MOST_DEPTH: u64 = 64;

/// What the matches of the command ask for.
pub fn request_in<'a>(matches: &ArgMatches<'a>) -> Option<Request<'a>>
    ensures asked { option_map ask_of result ≡ asked (subcommand_rows_of matches.now) }
    ensures in_range { IfSome result IsInRange }
{
    let (name, inner) = matches.subcommand()?;
    if name == "run" {
        run_in(inner)
    } else if name == "example" {
        example_in(inner)
    } else if name == "explain" {
        explain_in(inner)
    } else {
        None
    }
}

fn run_in<'a>(matches: &ArgMatches<'a>) -> Option<Request<'a>>
    ensures asked { option_map ask_of result ≡ run_in (rows_of (found_of matches.now)) }
    ensures in_range { IfSome result IsInRange }
{
    let file = text_in(matches, "FILE")?;
    let depth = depth_in(matches)?;
    let only = choice_in(text_in(matches, "only"))?;
    Some(Request::Run { file, depth, only })
}

fn example_in<'a>(matches: &ArgMatches<'a>) -> Option<Request<'a>>
    ensures asked { option_map ask_of result ≡ example_in (rows_of (found_of matches.now)) }
    ensures in_range { IfSome result IsInRange }
{
    let size = size_in(matches)?;
    if size < 1 || size > 199_999 {
        return None;
    }
    Some(Request::Example(size))
}

fn explain_in<'a>(matches: &ArgMatches<'a>) -> Option<Request<'a>>
    ensures asked { option_map ask_of result ≡ explain_in (rows_of (found_of matches.now)) }
    ensures in_range { IfSome result IsInRange }
{
    let file = text_in(matches, "FILE")?;
    let instance = text_in(matches, "INSTANCE")?;
    let left = text_in(matches, "LEFT")?;
    let right = text_in(matches, "RIGHT")?;
    let depth = depth_in(matches)?;
    Some(Request::Explain {
        file,
        instance,
        left,
        right,
        depth,
    })
}

/// The word of a name, or the value of an option.
fn text_in<'a>(matches: &ArgMatches<'a>, id: &str) -> Option<&'a str>
    ensures { option_map (λ text. text.now) result ≡ first_of id.now (rows_of (found_of matches.now)) }
{
    matches.get_str(id)
}

/// The depth. `clap` has tested its range; the test here keeps that in the answer.
fn depth_in(matches: &ArgMatches<'_>) -> Option<u32>
    ensures depth { result ≡ depth_in (rows_of (found_of matches.now)) }
    ensures limited { IfSome result (λ depth. depth ≤ 64) }
{
    let depth = number_in(matches)?;
    if depth > MOST_DEPTH {
        return None;
    }
    Some(depth as u32)
}

fn number_in(matches: &ArgMatches<'_>) -> Option<u64>
    ensures { result ≡ option_and_then (number_in 64) (one_of (codes "depth") (rows_of (found_of matches.now))) }
{
    matches.get_one::<u64>("depth")
}

fn size_in(matches: &ArgMatches<'_>) -> Option<u32>
    ensures { result ≡ option_and_then (number_in 32) (one_of (codes "N") (rows_of (found_of matches.now))) }
{
    matches.get_one::<u32>("N")
}

/// The format that a text chooses; no text is no choice.
fn choice_in(text: Option<&str>) -> Option<Option<Format>>
    ensures { result ≡ choice_in (option_map (λ chosen. chosen.now) text.entry) }
{
    match text {
        None => Some(None),
        Some("csv") => Some(Some(Format::Csv)),
        Some("cql") => Some(Some(Format::Cql)),
        Some(_) => None,
    }
}
