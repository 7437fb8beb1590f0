//! What becomes of a text: its instances, or the line of the first rule that it breaks, or of a file that one of its
//! imports names and that was not read.
ghost use Rattle.std.specs.Prelude.{◌≡◌, ◌≤◌, ◌^◌, ◌∷◌, length, codes, decimal, [], IfErr, IfOk, MatchResult, Some};
ghost use Rattle.cq_lex.specs.Spans.{EndsOnce};
ghost use Rattle.cq_syntax.specs.Program.{FitsLimits, IsProgram};
ghost use Rattle.cq_syntax.specs.declared.program.Program.{Program};
ghost use Rattle.cq_parse.specs.Parsed.{IsRefused};
ghost use Rattle.cq_parse.specs.declared.refusal.ParseRefusal.{ParseRefusal};
ghost use Rattle.cq_import.specs.Folders.{Keeps};
ghost use Rattle.cq_environment.specs.Lines.{line_of};
ghost use Rattle.cq_run.specs.Answer.{Judges};
ghost use Rattle.cq_run.specs.Judged.{JudgesProgram, JudgesTokens, SaysFault, SaysRefused, TellsLex, TellsParse};
ghost use Rattle.cq_run.specs.Meaning.{IsTreeIn, IsTreeOf};
ghost use Rattle.cq_run.specs.Stops.{HasStop};

use crate::answer::{Answer, unread};
use cq_base::Place;
use cq_io::Folder;
use cq_lex::{LexRefusal, Token, lex};
use cq_parse::{ParseRefusal, parse};
use cq_program::{Fault, Halt, Stop, has_few_parts, meaning_or_stop, numbered_line, refusal_line};
use cq_syntax::Program;
use std::alloc::Global;

/// What becomes of a text, and where its program stops to meet its rules, if it does.
#[derive(Drop)]
pub struct Judged {
    pub answer: Answer,
    pub stop: Option<Stop>,
}

/// The instances that the text means, with models made to a depth, or the line of its first fault, or of the file of
/// an import that was not read.
pub fn judge<F: Folder>(alloc: Global, text: &[u8], depth: u32, folder: &mut F) -> Answer
    requires length { length text.now ≤ 2 ^ 23 }
    requires depth { depth ≤ 64 }
    ensures judges { Judges depth (F.state folder.old) (F.state folder.new) text.now result }
    ensures keeps { Keeps (F.state folder.old) (F.state folder.new) }
{
    let Judged { answer, .. } = judge_with_stop(alloc, text, depth, folder);
    answer
}

/// The same, with the first declaration that is refused.
pub fn judge_with_stop<F: Folder>(alloc: Global, text: &[u8], depth: u32, folder: &mut F) -> Judged
    requires length { length text.now ≤ 2 ^ 23 }
    requires depth { depth ≤ 64 }
    ensures judges { Judges depth (F.state folder.old) (F.state folder.new) text.now result.answer }
    ensures stops { HasStop (IsTreeOf text.now) depth (F.state folder.old).files result.answer result.stop }
    ensures keeps { Keeps (F.state folder.old) (F.state folder.new) }
{
    match lex(alloc, text) {
        Ok(tokens) => judge_tokens(alloc, tokens, depth, folder),
        Err(refusal) => Judged {
            answer: lex_refusal(alloc, refusal),
            stop: None,
        },
    }
}

/// The same for the tokens of a text.
fn judge_tokens<F: Folder>(alloc: Global, tokens: Vec<Token>, depth: u32, folder: &mut F) -> Judged
    requires end { EndsOnce tokens.items }
    requires depth { depth ≤ 64 }
    ensures judges { JudgesTokens depth (F.state folder.old) (F.state folder.new) tokens.items result.answer }
    ensures stops { HasStop (IsTreeIn tokens.items) depth (F.state folder.old).files result.answer result.stop }
    ensures keeps { Keeps (F.state folder.old) (F.state folder.new) }
{
    match tree_of(alloc, tokens) {
        Ok(tree) => judge_program(alloc, &tree, depth, folder),
        Err(refusal) => Judged {
            answer: parse_refusal(alloc, refusal),
            stop: None,
        },
    }
}

/// The tree that these tokens spell. They are given back before anything is made of it.
fn tree_of(alloc: Global, tokens: Vec<Token>) -> Result<Program, ParseRefusal>
    requires { EndsOnce tokens.items }
    ensures ok { IfOk result (λ tree. IsProgram tokens.items tree × FitsLimits tree) }
    ensures refused { IfErr result (IsRefused tokens.items) }
    ensures only { (tree : Program) → IsProgram tokens.items tree → FitsLimits tree
        → MatchResult result (λ found. found ≡ tree) (λ e. e ≡ ParseRefusal.Memory) }
{
    parse(alloc, tokens.as_slice())
}

/// The same for a program.
fn judge_program<F: Folder>(alloc: Global, program: &Program, depth: u32, folder: &mut F) -> Judged
    requires { depth ≤ 64 }
    ensures judges { JudgesProgram depth (F.state folder.old) (F.state folder.new) program.now result.answer }
    ensures stops { HasStop (λ tree. tree ≡ program.now) depth (F.state folder.old).files result.answer result.stop }
    ensures keeps { Keeps (F.state folder.old) (F.state folder.new) }
{
    if !has_few_parts(program) {
        return Judged {
            answer: Answer::Memory,
            stop: None,
        };
    }
    match meaning_or_stop(alloc, program, folder, depth) {
        Ok(instances) => Judged {
            answer: Answer::Accepted(instances),
            stop: None,
        },
        Err(Halt::Stopped(stop)) => stopped(alloc, stop),
        Err(Halt::Memory) => Judged {
            answer: Answer::Memory,
            stop: None,
        },
    }
}

/// What becomes of a program that stops to meet its rules.
fn stopped(alloc: Global, stop: Stop) -> Judged
    ensures says { SaysFault stop.fault result.answer }
    ensures stop { result.stop ≡ Some stop }
{
    let answer = answer_at(alloc, &stop.fault);
    Judged {
        answer,
        stop: Some(stop),
    }
}

/// The line of what is wrong with a declaration.
fn answer_at(alloc: Global, fault: &Fault) -> Answer
    ensures { SaysFault fault.now result }
{
    match fault {
        Fault::Broken(place, reason) => match reason.line(alloc, *place) {
            Ok(line) => Answer::Refused(line),
            Err(_) => Answer::Memory,
        },
        Fault::Unread(file, cause) => unread(alloc, file.as_str(), *cause),
    }
}

/// The line of a text that has no tokens.
fn lex_refusal(alloc: Global, refusal: LexRefusal) -> Answer
    ensures { TellsLex refusal result }
{
    match refusal {
        LexRefusal::BadByte(place) => refused(alloc, place, 11, "BadByte"),
        LexRefusal::OpenText(place) => refused(alloc, place, 12, "OpenText"),
        LexRefusal::OpenComment(place) => refused(alloc, place, 13, "OpenComment"),
        LexRefusal::LongName(place) => refused(alloc, place, 14, "LongName"),
        LexRefusal::Memory => Answer::Memory,
    }
}

/// The line of tokens that are no program within the limits.
fn parse_refusal(alloc: Global, refusal: ParseRefusal) -> Answer
    ensures { TellsParse refusal result }
{
    match refusal {
        ParseRefusal::Syntax(place) => refused(alloc, place, 21, "Syntax"),
        ParseRefusal::TooDeep(place) => refused(alloc, place, 22, "TooDeep"),
        ParseRefusal::Unsupported(place, number) => unsupported(alloc, place, number),
        ParseRefusal::BadOption(place) => refused(alloc, place, 24, "BadOption"),
        ParseRefusal::Memory => Answer::Memory,
    }
}

/// The line of a word that is left out, with its number.
fn unsupported(alloc: Global, place: Place, number: u32) -> Answer
    ensures { SaysRefused (line_of place 23 (codes "Unsupported") (decimal number ∷ [])) result }
{
    match numbered_line(alloc, place, 23, "Unsupported", number) {
        Ok(line) => Answer::Refused(line),
        Err(_) => Answer::Memory,
    }
}

/// The line of a refusal.
fn refused(alloc: Global, place: Place, code: u8, name: &str) -> Answer
    ensures { SaysRefused (line_of place code name.now []) result }
{
    match refusal_line(alloc, place, code, name) {
        Ok(line) => Answer::Refused(line),
        Err(_) => Answer::Memory,
    }
}
