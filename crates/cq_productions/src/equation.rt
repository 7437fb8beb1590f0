//! Terms with their places, equations of terms, and names that a term is given for.
ghost use Rattle.std.specs.Prelude.{◌≡◌};
ghost use Rattle.cq_rules.specs.Rule as rules;
ghost use Rattle.cq_rules.specs.Rule.{read};
ghost use Rattle.cq_syntax.specs.Grammar as grammar;
ghost use Rattle.cq_productions.specs.Decided as decided;
ghost use Rattle.cq_productions.specs.Gives.{Gives, GivesTree};
ghost use Rattle.cq_productions.specs.Rules.{sides};

use crate::cursor::Cursor;
use crate::halt::Halt;
use crate::item::{Item, Production};
use crate::names::NameRule;
use crate::sequence::around;
use crate::step::place_of;
use crate::term::term;
use cq_base::Raw;
use cq_rules::Class;
use cq_syntax::{Bind, EqSyn, TermSyn};
use std::alloc::Global;

/// The most levels of a term.
const MOST_LEVELS: usize = 64;

/// A term of at most 64 levels.
#[tactic(auto, unfolding(cq_rules::specs::Rule::most_levels))]
fn whole_term<'a>(alloc: Global, at: Cursor<'a>) -> Result<(Raw, Cursor<'a>), Halt<'a>>
    ensures { GivesTree result (read rules.term at.entry.tokens.now) }
{
    let (raw, _, rest) = term(alloc, MOST_LEVELS, at)?;
    Ok((raw, rest))
}

/// A term with its place.
pub struct TermRule;

impl Production for TermRule {
    type Tree = TermSyn;

    ghost rule = { grammar.placed_term };

    fn read<'a>(alloc: Global, at: Cursor<'a>) -> Result<(TermSyn, Cursor<'a>), Halt<'a>> {
        let place = place_of(at);
        let (raw, rest) = whole_term(alloc, at)?;
        Ok((TermSyn { place, raw }, rest))
    }
}

/// Two terms with an equals sign between them.
pub struct SidesRule;

impl Production for SidesRule {
    type Tree = (TermSyn, TermSyn);

    ghost rule = { sides };

    fn read<'a>(alloc: Global, at: Cursor<'a>) -> Result<(Self::Tree, Cursor<'a>), Halt<'a>> {
        around::<TermRule, TermRule>(alloc, Class::Equals, at)
    }
}

/// An equation of terms.
pub struct EquationRule;

impl Production for EquationRule {
    type Tree = EqSyn;

    ghost rule = { grammar.equation };

    #[tactic(auto, unfolding(cq_syntax::specs::Grammar::equation))]
    fn read<'a>(alloc: Global, at: Cursor<'a>) -> Result<(EqSyn, Cursor<'a>), Halt<'a>> {
        let ((left, right), rest) = SidesRule::read(alloc, at)?;
        Ok((EqSyn { left, right }, rest))
    }
}

impl Item for EquationRule {
    ghost decided = { decided.equations };

    #[tactic(auto, unfolding(cq_syntax::specs::Grammar::equation, cq_syntax::specs::Grammar::placed_term))]
    fn begins(class: Class) -> bool {
        class.is(Class::Text) || class.is_name()
    }
}

/// A name and the term that is given for it.
pub struct BindRule;

impl Production for BindRule {
    type Tree = Bind;

    ghost rule = { grammar.bind };

    #[tactic(auto, unfolding(cq_syntax::specs::Grammar::bind))]
    fn read<'a>(alloc: Global, at: Cursor<'a>) -> Result<(Bind, Cursor<'a>), Halt<'a>> {
        let place = place_of(at);
        let ((name, term), rest) = around::<NameRule, TermRule>(alloc, Class::Arrow, at)?;
        Ok((Bind { place, name, term }, rest))
    }
}

impl Item for BindRule {
    ghost decided = { decided.binds };

    #[tactic(auto, unfolding(cq_syntax::specs::Grammar::bind, cq_syntax::specs::Grammar::name))]
    fn begins(class: Class) -> bool {
        class.is_name()
    }
}
