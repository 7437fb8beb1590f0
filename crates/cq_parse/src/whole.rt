//! Whole texts of a production: the tree of one, or the first token that decides against it.
ghost use Rattle.std.specs.Prelude.{◌≡◌, ◌<◌, ◌⊎◌, length, List, ◌∷◌, IfErr, IfOk, MatchResult, true};
ghost use Rattle.cq_lex.specs.Spans.{EndsOnce};
ghost use Rattle.cq_lex.specs.declared.token.Token.{Token};
ghost use Rattle.cq_rules.specs.Rule.{Fits, Spells, decides};
ghost use Rattle.cq_parse.specs.Parsed.{EndsAtEnd, IsRefusedBy, RefusedBy, refusal_for};
ghost use Rattle.cq_parse.specs.declared.refusal.ParseRefusal.{ParseRefusal};

use crate::refusal::ParseRefusal;
use cq_lex::Token;
use cq_productions::{Cursor, Halt, Production, classes_of};
use cq_rules::Why;
use std::alloc::Global;

/// What is told of a token that is refused for a reason.
fn refusal_for(why: Why, token: &Token) -> ParseRefusal
    ensures { result ≡ refusal_for why token.now }
{
    match why {
        Why::Wanted => ParseRefusal::Syntax(token.place),
        Why::LeftOut(number) => ParseRefusal::Unsupported(token.place, number),
        Why::Deep => ParseRefusal::TooDeep(token.place),
        Why::BadOption(place) => ParseRefusal::BadOption(place),
    }
}

/// The refusal of the first of the tokens.
fn first_refusal(why: Why, tokens: &[Token]) -> ParseRefusal
    requires { 0 < length tokens.now }
    ensures { (t : Token) (rest : List Token) → tokens.now ≡ t ∷ rest → result ≡ refusal_for why t }
{
    refusal_for(why, &tokens[0])
}

/// The tree of the text at the cursor.
fn whole_at<P: Production>(alloc: Global, at: Cursor) -> Result<P::Tree, ParseRefusal>
    requires decided { decides P.rule ≡ true }
    requires closed { EndsAtEnd P.rule }
    requires once { EndsOnce at.tokens.now }
    ensures ok { IfOk result (λ tree. Spells P.rule at.entry.tokens.now tree × Fits P.rule tree) }
    ensures refused { IfErr result (IsRefusedBy P.rule at.entry.tokens.now) }
    ensures only { (tree : P.Tree) → Spells P.rule at.entry.tokens.now tree → Fits P.rule tree
        → MatchResult result (λ found. found ≡ tree) (λ e. e ≡ ParseRefusal.Memory) }
    ensures refusal { (refusal : ParseRefusal) → RefusedBy P.rule at.entry.tokens.now refusal
        → MatchResult result (λ _. ⊥) (λ e. (e ≡ refusal) ⊎ (e ≡ ParseRefusal.Memory)) }
{
    match P::read(alloc, at) {
        Ok((tree, rest)) => {
            if rest.tokens.is_empty() {
                Ok(tree)
            } else {
                Err(first_refusal(Why::Wanted, rest.tokens))
            }
        }
        Err(Halt::Memory) => Err(ParseRefusal::Memory),
        Err(Halt::At(why, at)) => Err(first_refusal(why, at.tokens)),
    }
}

/// The tree of the tokens, by a production in which the next token decides and no text goes on behind an End.
pub fn whole<P: Production>(alloc: Global, tokens: &[Token]) -> Result<P::Tree, ParseRefusal>
    requires decided { decides P.rule ≡ true }
    requires closed { EndsAtEnd P.rule }
    requires once { EndsOnce tokens.now }
    ensures ok { IfOk result (λ tree. Spells P.rule tokens.now tree × Fits P.rule tree) }
    ensures refused { IfErr result (IsRefusedBy P.rule tokens.now) }
    ensures only { (tree : P.Tree) → Spells P.rule tokens.now tree → Fits P.rule tree
        → MatchResult result (λ found. found ≡ tree) (λ e. e ≡ ParseRefusal.Memory) }
    ensures refusal { (refusal : ParseRefusal) → RefusedBy P.rule tokens.now refusal
        → MatchResult result (λ _. ⊥) (λ e. (e ≡ refusal) ⊎ (e ≡ ParseRefusal.Memory)) }
{
    match classes_of(alloc, tokens) {
        Ok(classes) => {
            let classes = classes.as_slice();
            whole_at::<P>(alloc, Cursor { tokens, classes })
        }
        Err(_) => Err(ParseRefusal::Memory),
    }
}
