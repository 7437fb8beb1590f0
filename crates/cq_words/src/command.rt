//! The command that is given to `clap`.

ghost use Rattle.std.specs.Prelude.{◌≡◌, IfOk, false};
ghost use Rattle.clap.specs.Words.{app_of, rule_of};
ghost use Rattle.clap.specs.declared.builder.command.Command.TheViews.{out-Command as fields_of};
ghost use Rattle.cq_words.specs.Line.{depth_rule, example_app, explain_app, explained_app, file_rule, instance_rule};
ghost use Rattle.cq_words.specs.Line.{left_rule, only_rule, right_rule, run_app, size_rule, the_command, two_forms};

use clap::{Arg, Command, value_parser};
use std::alloc::{AllocError, Global};

/// One of three forms is wanted, and nothing else is taken. The words have no program's name before them.
pub fn command<'a>(alloc: Global) -> Result<Command<'a>, AllocError>
    ensures { IfOk result (λ command. app_of command ≡ the_command) }
{
    runs_and_examples(alloc)?.subcommand(explain_command(alloc)?)
}

/// The first two forms.
fn runs_and_examples<'a>(alloc: Global) -> Result<Command<'a>, AllocError>
    ensures { IfOk result (λ command. app_of command ≡ two_forms) }
{
    Command::new(alloc, "cqlrun")
        .no_binary_name(true)
        .subcommand_required(true)
        .subcommand(run_command(alloc)?)?
        .subcommand(example_command(alloc)?)
}

/// `run FILE [--depth K] [--only csv|cql]`
fn run_command<'a>(alloc: Global) -> Result<Command<'a>, AllocError>
    ensures app { IfOk result (λ command. app_of command ≡ run_app) }
    ensures local { IfOk result (λ command. (fields_of command).has_globals ≡ false) }
{
    Command::new(alloc, "run")
        .arg(file_arg(alloc))?
        .arg(depth_arg(alloc))?
        .arg(only_arg(alloc))
}

/// `example N`
fn example_command<'a>(alloc: Global) -> Result<Command<'a>, AllocError>
    ensures app { IfOk result (λ command. app_of command ≡ example_app) }
    ensures local { IfOk result (λ command. (fields_of command).has_globals ≡ false) }
{
    Command::new(alloc, "example").arg(size_arg(alloc))
}

/// `explain FILE INSTANCE LEFT RIGHT [--depth K]`
fn explain_command<'a>(alloc: Global) -> Result<Command<'a>, AllocError>
    ensures app { IfOk result (λ command. app_of command ≡ explain_app) }
    ensures local { IfOk result (λ command. (fields_of command).has_globals ≡ false) }
{
    explained(alloc)?
        .arg(right_arg(alloc))?
        .arg(depth_arg(alloc))
}

/// Its first three words.
fn explained<'a>(alloc: Global) -> Result<Command<'a>, AllocError>
    ensures app { IfOk result (λ command. app_of command ≡ explained_app) }
    ensures local { IfOk result (λ command. (fields_of command).has_globals ≡ false) }
{
    Command::new(alloc, "explain")
        .arg(file_arg(alloc))?
        .arg(instance_arg(alloc))?
        .arg(left_arg(alloc))
}

fn file_arg<'a>(alloc: Global) -> Arg<'a>
    ensures rule { rule_of result ≡ file_rule }
    ensures local { result.global ≡ false }
{
    Arg::new(alloc, "FILE").required(true)
}

fn instance_arg<'a>(alloc: Global) -> Arg<'a>
    ensures rule { rule_of result ≡ instance_rule }
    ensures local { result.global ≡ false }
{
    Arg::new(alloc, "INSTANCE").required(true)
}

fn left_arg<'a>(alloc: Global) -> Arg<'a>
    ensures rule { rule_of result ≡ left_rule }
    ensures local { result.global ≡ false }
{
    Arg::new(alloc, "LEFT").required(true)
}

fn right_arg<'a>(alloc: Global) -> Arg<'a>
    ensures rule { rule_of result ≡ right_rule }
    ensures local { result.global ≡ false }
{
    Arg::new(alloc, "RIGHT").required(true)
}

fn size_arg<'a>(alloc: Global) -> Arg<'a>
    ensures rule { rule_of result ≡ size_rule }
    ensures local { result.global ≡ false }
{
    Arg::new(alloc, "N")
        .required(true)
        .value_parser(value_parser!(u32).range(1..=199_999))
}

fn depth_arg<'a>(alloc: Global) -> Arg<'a>
    ensures rule { rule_of result ≡ depth_rule }
    ensures local { result.global ≡ false }
{
    Arg::new(alloc, "depth")
        .long("depth")
        .value_parser(value_parser!(u64).range(0..=64))
        .default_value("16")
}

/// The two texts are tested where the choice is read, since a parser of given texts would keep a reference.
fn only_arg<'a>(alloc: Global) -> Arg<'a>
    ensures rule { rule_of result ≡ only_rule }
    ensures local { result.global ≡ false }
{
    Arg::new(alloc, "only").long("only")
}
