//! Which equation two texts ask about.
ghost use Rattle.std.specs.Prelude.{◌≡◌, ◌≤◌, IfErr, IfOk, MatchResult, None, is_some, length};
ghost use Rattle.cq_base.specs.declared.raw.Raw.{Raw};
ghost use Rattle.cq_lex.specs.Spans.{EndsOnce};
ghost use Rattle.cq_theory.specs.Resolve.{equation_fault};
ghost use Rattle.cq_theory.specs.Resolved.{resolved};
ghost use Rattle.cq_theory.specs.declared.presentation.Equation.{Equation};
ghost use Rattle.cq_explain.specs.Question.{Asks, IsTermOf, IsTextOfTerm, Makes};
ghost use Rattle.cq_explain.specs.declared.refusal.QuestionRefusal.{QuestionRefusal};

use crate::refusal::QuestionRefusal;
use cq_base::{Name, Names, Raw};
use cq_lex::{LexRefusal, Token, lex};
use cq_parse::{ParseRefusal, parse_term};
use cq_scope::{build_over, firsts_of};
use cq_theory::lookup::{
    has_reserved, has_unknown, has_wrong_count, have_one_sort, is_too_large, make_equation,
    sort_of_raw,
};
use cq_theory::{Equation, Presentation, Schema, Sort};
use std::alloc::Global;

/// The most bytes of a term's text: 8 MiB.
const TEXT_LIMIT: usize = 8388608;

/// The equation which two texts ask about over a presentation.
pub fn question(
    alloc: Global,
    schema: &Schema,
    presentation: &Presentation,
    left: &[u8],
    right: &[u8],
) -> Result<Equation, QuestionRefusal>
    requires { length presentation.now.generators ≤ 16000000 }
    ensures asks { IfOk result (Asks schema.now presentation.now left.now right.now) }
    ensures only { (equation : Equation) → Asks schema.now presentation.now left.now right.now equation
        → MatchResult result (λ found. found ≡ equation) (λ refusal. refusal ≡ QuestionRefusal.Memory) }
{
    let left = term_of(alloc, left)?;
    let right = term_of(alloc, right)?;
    equation_over(
        alloc,
        schema,
        presentation.generators.as_slice(),
        &left,
        &right,
    )
}

/// The term that a text spells.
fn term_of(alloc: Global, text: &[u8]) -> Result<Raw, QuestionRefusal>
    ensures term { IfOk result (IsTextOfTerm text.now) }
    ensures only { (term : Raw) → IsTextOfTerm text.now term
        → MatchResult result (λ found. found ≡ term) (λ refusal. refusal ≡ QuestionRefusal.Memory) }
{
    if text.len() > TEXT_LIMIT {
        return Err(QuestionRefusal::BadTerm);
    }
    match lex(alloc, text) {
        Ok(tokens) => term_in(alloc, tokens.as_slice()),
        Err(LexRefusal::Memory) => Err(QuestionRefusal::Memory),
        Err(_) => Err(QuestionRefusal::BadTerm),
    }
}

/// The term that tokens spell.
fn term_in(alloc: Global, tokens: &[Token]) -> Result<Raw, QuestionRefusal>
    requires { EndsOnce tokens.now }
    ensures term { IfOk result (IsTermOf tokens.now) }
    ensures only { (term : Raw) → IsTermOf tokens.now term
        → MatchResult result (λ found. found ≡ term) (λ refusal. refusal ≡ QuestionRefusal.Memory) }
{
    match parse_term(alloc, tokens) {
        Ok(tree) => Ok(tree.raw),
        Err(ParseRefusal::Memory) => Err(QuestionRefusal::Memory),
        Err(_) => Err(QuestionRefusal::BadTerm),
    }
}

/// The equation that two terms make over generators. A name stands for the first generator that has it.
fn equation_over(
    alloc: Global,
    schema: &Schema,
    generators: &[(Name, Sort)],
    left: &Raw,
    right: &Raw,
) -> Result<Equation, QuestionRefusal>
    requires { length generators.now ≤ 16000000 }
    ensures makes { IfOk result (Makes schema.now generators.now left.now right.now) }
    ensures only { (equation : Equation) → Makes schema.now generators.now left.now right.now equation
        → MatchResult result (λ found. found ≡ equation) (λ refusal. refusal ≡ QuestionRefusal.Memory) }
{
    let firsts = firsts_of(alloc, generators)?;
    let sorts = firsts.scope.sorts.as_slice();
    if breaks_rule(schema, &firsts.scope.names, sorts, left, right) {
        return Err(QuestionRefusal::BadTerm);
    }
    let left = build_over(alloc, schema, &firsts, left)?;
    let right = build_over(alloc, schema, &firsts, right)?;
    Ok(make_equation(left, right))
}

/// Whether an equation of two terms breaks a rule.
fn breaks_rule(schema: &Schema, names: &Names, sorts: &[Sort], left: &Raw, right: &Raw) -> bool
    ensures { result ≡ is_some (equation_fault schema.now names.now sorts.now (left.now, right.now)) }
{
    if has_unknown(schema, names, left) || has_unknown(schema, names, right) {
        return true;
    }
    if has_wrong_count(schema, left) || has_wrong_count(schema, right) {
        return true;
    }
    let left_sort = sort_of_raw(schema, names, sorts, left);
    if !have_one_sort(left_sort, sort_of_raw(schema, names, sorts, right)) {
        return true;
    }
    if has_reserved(schema, left) || has_reserved(schema, right) {
        return true;
    }
    is_too_large(left) || is_too_large(right)
}
