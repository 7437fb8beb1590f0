//! Transforms.
ghost use Rattle.std.specs.Prelude.{◌≡◌};
ghost use Rattle.cq_rules.specs.Rule.{read};
ghost use Rattle.cq_syntax.specs.Grammar as grammar;
ghost use Rattle.cq_productions.specs.Gives.{Gives};
ghost use Rattle.cq_productions.specs.Rules.{images, moved_between, operands, two_ends};
ghost use Rattle.cq_syntax.specs.MoveForms.{form_named};

use crate::cursor::Cursor;
use crate::equation::BindRule;
use crate::halt::Halt;
use crate::item::Production;
use crate::names::SpotRule;
use crate::options::OptionsRule;
use crate::sequence::{around, behind, between, both, section_and};
use crate::step::{is_next, skip, split};
use cq_base::Seq;
use cq_rules::{Class, Why};
use cq_syntax::{Bind, MoveForm, Opt, Spot, TransformExp, TransformLit};
use std::alloc::Global;

/// To what generators go, and options.
pub struct ImagesRule;

impl Production for ImagesRule {
    type Tree = (Seq<Bind>, Seq<Opt>);

    ghost rule = { images };

    fn read<'a>(alloc: Global, at: Cursor<'a>) -> Result<(Self::Tree, Cursor<'a>), Halt<'a>> {
        section_and::<BindRule, OptionsRule>(alloc, Class::Generators, at)
    }
}

/// A transform that is written out.
#[tactic(auto, unfolding(cq_syntax::specs::Grammar::transform_literal))]
fn transform_literal<'a>(
    alloc: Global,
    at: Cursor<'a>,
) -> Result<(TransformLit, Cursor<'a>), Halt<'a>>
    ensures { Gives result (read grammar.transform_literal at.entry.tokens.now) }
{
    let rest = skip(at, Class::Literal)?;
    let ((source, (target, (images, options))), rest) = between::<ImagesRule>(alloc, rest)?;
    let transform = TransformLit {
        source,
        target,
        images,
        options,
    };
    Ok((transform, rest))
}

/// The form of a move that a word names, if it names one.
fn form_named(class: Class) -> Option<MoveForm>
    ensures { result ≡ form_named class }
{
    match class {
        Class::Sigma => Some(MoveForm::Sigma),
        Class::Delta => Some(MoveForm::Delta),
        Class::Eval => Some(MoveForm::Eval),
        Class::Coeval => Some(MoveForm::Coeval),
        Class::Unit => Some(MoveForm::Unit),
        Class::Counit => Some(MoveForm::Counit),
        Class::UnitQuery => Some(MoveForm::UnitQuery),
        Class::CounitQuery => Some(MoveForm::CounitQuery),
        _ => None,
    }
}

/// The word of a move.
pub struct MoveFormRule;

impl Production for MoveFormRule {
    type Tree = MoveForm;

    ghost rule = { grammar.move_form };

    #[tactic(auto, unfolding(cq_syntax::specs::Grammar::move_form))]
    fn read<'a>(_alloc: Global, at: Cursor<'a>) -> Result<(MoveForm, Cursor<'a>), Halt<'a>> {
        let Some(next) = split(at) else {
            return Err(Halt::At(Why::Wanted, at));
        };
        match form_named(next.class) {
            Some(form) => Ok((form, next.rest)),
            None => Err(Halt::At(Why::Wanted, at)),
        }
    }
}

/// What moves a transform, and what is moved.
pub struct OperandsRule;

impl Production for OperandsRule {
    type Tree = (Spot, Spot);

    ghost rule = { operands };

    fn read<'a>(alloc: Global, at: Cursor<'a>) -> Result<(Self::Tree, Cursor<'a>), Halt<'a>> {
        both::<SpotRule, SpotRule>(alloc, at)
    }
}

/// Two names with an arrow between them.
pub struct TwoEndsRule;

impl Production for TwoEndsRule {
    type Tree = (Spot, Spot);

    ghost rule = { two_ends };

    fn read<'a>(alloc: Global, at: Cursor<'a>) -> Result<(Self::Tree, Cursor<'a>), Halt<'a>> {
        around::<SpotRule, SpotRule>(alloc, Class::Arrow, at)
    }
}

/// What moves a transform, what is moved, and from where to where.
pub struct MovedBetweenRule;

impl Production for MovedBetweenRule {
    type Tree = ((Spot, Spot), (Spot, Spot));

    ghost rule = { moved_between };

    fn read<'a>(alloc: Global, at: Cursor<'a>) -> Result<(Self::Tree, Cursor<'a>), Halt<'a>> {
        around::<OperandsRule, TwoEndsRule>(alloc, Class::Colon, at)
    }
}

/// A transform.
pub struct TransformRule;

impl Production for TransformRule {
    type Tree = TransformExp;

    ghost rule = { grammar.transform };

    #[tactic(auto, unfolding(cq_syntax::specs::Grammar::transform, cq_syntax::specs::Grammar::transform_literal))]
    fn read<'a>(alloc: Global, at: Cursor<'a>) -> Result<(TransformExp, Cursor<'a>), Halt<'a>> {
        if is_next(at, Class::Literal) {
            let (literal, rest) = transform_literal(alloc, at)?;
            return Ok((TransformExp::Literal(literal), rest));
        }
        if is_next(at, Class::Identity) {
            let (instance, rest) = behind::<SpotRule>(alloc, Class::Identity, at)?;
            return Ok((TransformExp::Identity(instance), rest));
        }
        let ((form, ((along, moved), (source, target))), rest) = both::<
            MoveFormRule,
            MovedBetweenRule,
        >(alloc, at)?;
        Ok((TransformExp::Move(form, along, moved, source, target), rest))
    }
}
