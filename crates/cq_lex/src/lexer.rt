//! The tokens of a file.
ghost use Rattle.std.specs.Prelude.{◌≡◌, ◌≤◌, ◌^◌, length, List, IfOk, IfErr, MatchResult, All, ◌+◌, ◌⊎◌, []};
ghost use Rattle.cq_lex.specs.declared.token.Token.{Token};
ghost use Rattle.cq_lex.specs.declared.refusal.LexRefusal.{LexRefusal};
ghost use Rattle.cq_lex.specs.Tokens.{Tokens, IsRefused, Refuses};
ghost use Rattle.cq_lex.specs.Spans.{StandsIn, InOrder, EndsOnce};

use crate::fronts::{Front, front_of};
use crate::place::{advance, start, told};
use crate::refusal::LexRefusal;
use crate::token::{Kind, Token};
use cq_base::Source;
use std::alloc::Global;

/// The tokens of a file's bytes, in order; the last is the End, at the place behind the last byte.
///
/// Where there are none, the first token that can't be made decides: its fault, at its place.
pub fn lex(alloc: Global, bytes: &[u8]) -> Result<Vec<Token>, LexRefusal>
    requires { length bytes.now ≤ 2 ^ 23 }
    ensures ok { IfOk result (λ tokens. Tokens bytes.now tokens.items) }
    ensures refused { IfErr result (IsRefused bytes.now) }
    ensures tokens { (tokens : List Token) → Tokens bytes.now tokens
        → MatchResult result (λ found. found.items ≡ tokens) (λ e. e ≡ LexRefusal.Memory) }
    ensures refusal { (refusal : LexRefusal) → Refuses [] bytes.now refusal
        → MatchResult result (λ _. ⊥) (λ e. (e ≡ refusal) ⊎ (e ≡ LexRefusal.Memory)) }
    ensures slices { IfOk result (λ tokens. All (StandsIn bytes.now) tokens.items) }
    ensures spans { IfOk result (λ tokens. InOrder 0 tokens.items) }
    ensures ends { IfOk result (λ tokens. EndsOnce tokens.items) }
    ensures few { IfOk result (λ tokens. length tokens.items ≤ length bytes.now + 1) }
{
    let mut source = Source::new(alloc, bytes)?;
    let mut tokens = Vec::new(alloc);
    let mut rest = bytes;
    let mut place = start();
    'fronts: loop {
        match front_of(alloc, &mut source, rest) {
            Ok(Front::End) => break,
            Ok(Front::Gap(after)) => {
                place = advance(place, rest, after);
                rest = after;
            }
            Ok(Front::Token(kind, after)) => {
                let from = (bytes.len() - rest.len()) as u32;
                let to = (bytes.len() - after.len()) as u32;
                tokens.push(Token {
                    kind,
                    from,
                    to,
                    place,
                })?;
                place = advance(place, rest, after);
                rest = after;
            }
            Err(fault) => return Err(told(fault, place, rest)),
        }
    }
    let end = bytes.len() as u32;
    tokens.push(Token {
        kind: Kind::End,
        from: end,
        to: end,
        place,
    })?;
    Ok(tokens)
}
