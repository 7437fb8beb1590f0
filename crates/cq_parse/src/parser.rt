//! Whole programs, and terms that stand alone.
ghost use Rattle.std.specs.Prelude.{◌≡◌, ◌⊎◌, IfErr, IfOk, MatchResult};
ghost use Rattle.cq_lex.specs.Spans.{EndsOnce};
ghost use Rattle.cq_syntax.specs.Grammar as grammar;
ghost use Rattle.cq_syntax.specs.Program.{FitsLevels, FitsLimits, IsProgram, IsTerm};
ghost use Rattle.cq_syntax.specs.declared.part.TermSyn.{TermSyn};
ghost use Rattle.cq_syntax.specs.declared.program.Program.{Program};
ghost use Rattle.cq_parse.specs.Parsed.{IsRefused, IsTermRefused, RefusedWith, TermRefusedWith};
ghost use Rattle.cq_parse.specs.declared.refusal.ParseRefusal.{ParseRefusal};

use crate::refusal::ParseRefusal;
use crate::whole::whole;
use cq_lex::Token;
use cq_productions::{
    Cursor, DeclarationRule, Halt, HeadWords, NoWords, OptionsRule, Production, TermRule, ends,
    many,
};
use cq_rules::Class;
use cq_syntax::{Program, TermSyn};
use std::alloc::Global;

/// Options, declarations, and the end.
struct ProgramRule;

impl Production for ProgramRule {
    type Tree = Program;

    ghost rule = { grammar.program };

    #[tactic(auto, unfolding(cq_syntax::specs::Grammar::program))]
    fn read<'a>(alloc: Global, at: Cursor<'a>) -> Result<(Program, Cursor<'a>), Halt<'a>> {
        let (options, rest) = OptionsRule::read(alloc, at)?;
        let (decls, rest) = many::<DeclarationRule>(alloc, rest)?;
        let rest = ends::<HeadWords>(rest, Class::End)?;
        Ok((Program { options, decls }, rest))
    }
}

/// A term, and the end.
struct LoneTermRule;

impl Production for LoneTermRule {
    type Tree = TermSyn;

    ghost rule = { grammar.lone_term };

    #[tactic(auto, unfolding(cq_syntax::specs::Grammar::lone_term))]
    fn read<'a>(alloc: Global, at: Cursor<'a>) -> Result<(TermSyn, Cursor<'a>), Halt<'a>> {
        let (term, rest) = TermRule::read(alloc, at)?;
        let rest = ends::<NoWords>(rest, Class::End)?;
        Ok((term, rest))
    }
}

/// The tree of a program, given its tokens.
///
/// Where they are no program, or one that breaks a limit, the first token that decides is told, and why:
/// `Syntax`, `Unsupported`, `TooDeep` or `BadOption`. Each list of tokens has one tree that keeps the
/// limits, or one refusal.
pub fn parse(alloc: Global, tokens: &[Token]) -> Result<Program, ParseRefusal>
    requires { EndsOnce tokens.now }
    ensures ok { IfOk result (λ tree. IsProgram tokens.now tree × FitsLimits tree) }
    ensures refused { IfErr result (IsRefused tokens.now) }
    ensures only { (tree : Program) → IsProgram tokens.now tree → FitsLimits tree
        → MatchResult result (λ found. found ≡ tree) (λ e. e ≡ ParseRefusal.Memory) }
    ensures refusal { (refusal : ParseRefusal) → RefusedWith tokens.now refusal
        → MatchResult result (λ _. ⊥) (λ e. (e ≡ refusal) ⊎ (e ≡ ParseRefusal.Memory)) }
{
    whole::<ProgramRule>(alloc, tokens)
}

/// The tree of a term that stands alone, given its tokens and their end.
///
/// Where they are no term, or one of more than 64 levels, the first token that decides is told, and why:
/// `Syntax` or `TooDeep`, and never `Unsupported` or `BadOption`. Each list of tokens has one tree of at
/// most 64 levels, or one refusal.
pub fn parse_term(alloc: Global, tokens: &[Token]) -> Result<TermSyn, ParseRefusal>
    requires { EndsOnce tokens.now }
    ensures ok { IfOk result (λ tree. IsTerm tokens.now tree × FitsLevels tree) }
    ensures refused { IfErr result (IsTermRefused tokens.now) }
    ensures only { (tree : TermSyn) → IsTerm tokens.now tree → FitsLevels tree
        → MatchResult result (λ found. found ≡ tree) (λ e. e ≡ ParseRefusal.Memory) }
    ensures refusal { (refusal : ParseRefusal) → TermRefusedWith tokens.now refusal
        → MatchResult result (λ _. ⊥) (λ e. (e ≡ refusal) ⊎ (e ≡ ParseRefusal.Memory)) }
{
    whole::<LoneTermRule>(alloc, tokens)
}
