//! Schemas.
ghost use Rattle.std.specs.Prelude.{◌≡◌};
ghost use Rattle.cq_rules.specs.Rule.{read};
ghost use Rattle.cq_syntax.specs.Grammar as grammar;
ghost use Rattle.cq_productions.specs.Decided as decided;
ghost use Rattle.cq_productions.specs.Gives.{Gives};
ghost use Rattle.cq_productions.specs.Parts.{of_entity_and};
ghost use Rattle.cq_productions.specs.Rules as rules;

use crate::cursor::Cursor;
use crate::equation::SidesRule;
use crate::halt::Halt;
use crate::item::{Item, Production};
use crate::names::{NameRule, PathRule, SpotRule, SpotsRule};
use crate::options::OptionsRule;
use crate::sequence::{around, behind, both, over, section_and};
use crate::step::{is_next, place_of, skip};
use cq_base::{Name, Seq};
use cq_rules::Class;
use cq_syntax::{EdgeSyn, ObsSyn, Opt, PathEqSyn, SchemaExp, SchemaLit, Spot};
use std::alloc::Global;
use std::marker::PhantomData;

/// The sorts from which and to which a key or an attribute goes.
pub struct EndsRule;

impl Production for EndsRule {
    type Tree = (Name, Name);

    ghost rule = { rules.ends_of_edge };

    fn read<'a>(alloc: Global, at: Cursor<'a>) -> Result<(Self::Tree, Cursor<'a>), Halt<'a>> {
        around::<NameRule, NameRule>(alloc, Class::Arrow, at)
    }
}

/// Foreign keys or attributes from one sort to another.
pub struct EdgeRule;

impl Production for EdgeRule {
    type Tree = EdgeSyn;

    ghost rule = { grammar.edge };

    #[tactic(auto, unfolding(cq_syntax::specs::Grammar::edge))]
    fn read<'a>(alloc: Global, at: Cursor<'a>) -> Result<(EdgeSyn, Cursor<'a>), Halt<'a>> {
        let ((names, (from, to)), rest) = around::<SpotsRule, EndsRule>(alloc, Class::Colon, at)?;
        Ok((EdgeSyn { names, from, to }, rest))
    }
}

impl Item for EdgeRule {
    ghost decided = { decided.edges };

    #[tactic(auto, unfolding(cq_syntax::specs::Grammar::edge, cq_syntax::specs::Grammar::spot))]
    fn begins(class: Class) -> bool {
        class.is_name()
    }
}

/// An equation of paths.
pub struct PathEquationRule;

impl Production for PathEquationRule {
    type Tree = PathEqSyn;

    ghost rule = { grammar.path_equation };

    #[tactic(auto, unfolding(cq_syntax::specs::Grammar::path_equation))]
    fn read<'a>(alloc: Global, at: Cursor<'a>) -> Result<(PathEqSyn, Cursor<'a>), Halt<'a>> {
        let ((left, right), rest) = around::<PathRule, PathRule>(alloc, Class::Equals, at)?;
        Ok((PathEqSyn { left, right }, rest))
    }
}

impl Item for PathEquationRule {
    ghost decided = { decided.path_equations };

    #[tactic(auto, unfolding(cq_syntax::specs::Grammar::path_equation, cq_syntax::specs::Grammar::placed_path))]
    fn begins(class: Class) -> bool {
        class.is_name()
    }
}

/// Nothing, or a colon and an entity.
pub struct OfEntityRule;

impl Production for OfEntityRule {
    type Tree = Option<Name>;

    ghost rule = { grammar.of_entity };

    #[tactic(auto, unfolding(cq_syntax::specs::Grammar::of_entity))]
    fn read<'a>(alloc: Global, at: Cursor<'a>) -> Result<(Option<Name>, Cursor<'a>), Halt<'a>> {
        if !is_next(at, Class::Colon) {
            return Ok((None, at));
        }
        let (entity, rest) = behind::<NameRule>(alloc, Class::Colon, at)?;
        Ok((Some(entity), rest))
    }
}

/// The entity of a variable's values if that is told, a dot, and the production.
pub struct OfEntityAndRule<P>(PhantomData<P>);

impl<P: Production> Production for OfEntityAndRule<P> {
    type Tree = (Option<Name>, P::Tree);

    ghost rule = { of_entity_and P.rule };

    fn read<'a>(alloc: Global, at: Cursor<'a>) -> Result<(Self::Tree, Cursor<'a>), Halt<'a>> {
        around::<OfEntityRule, P>(alloc, Class::Dot, at)
    }
}

/// A variable, the entity of its values if that is told, a dot, and the production.
pub fn bound<'a, P: Production>(
    alloc: Global,
    at: Cursor<'a>,
) -> Result<((Name, (Option<Name>, P::Tree)), Cursor<'a>), Halt<'a>>
    ensures { Gives result (read (rules.bound P.rule) at.entry.tokens.now) }
{
    both::<NameRule, OfEntityAndRule<P>>(alloc, at)
}

/// An equation for each member of an entity.
pub struct ObservationRule;

impl Production for ObservationRule {
    type Tree = ObsSyn;

    ghost rule = { grammar.observation };

    #[tactic(auto, unfolding(cq_syntax::specs::Grammar::observation))]
    fn read<'a>(alloc: Global, at: Cursor<'a>) -> Result<(ObsSyn, Cursor<'a>), Halt<'a>> {
        let place = place_of(at);
        let rest = skip(at, Class::Forall)?;
        let ((variable, (entity, (left, right))), rest) = bound::<SidesRule>(alloc, rest)?;
        let observation = ObsSyn {
            place,
            variable,
            entity,
            left,
            right,
        };
        Ok((observation, rest))
    }
}

impl Item for ObservationRule {
    ghost decided = { decided.observations };

    #[tactic(auto, unfolding(cq_syntax::specs::Grammar::observation))]
    fn begins(class: Class) -> bool {
        class.is(Class::Forall)
    }
}

/// The sections from the observation equations on.
pub struct FromObservationsRule;

impl Production for FromObservationsRule {
    type Tree = (Seq<ObsSyn>, Seq<Opt>);

    ghost rule = { rules.from_observations };

    fn read<'a>(alloc: Global, at: Cursor<'a>) -> Result<(Self::Tree, Cursor<'a>), Halt<'a>> {
        section_and::<ObservationRule, OptionsRule>(alloc, Class::ObservationEquations, at)
    }
}

/// The sections from the attributes on.
pub struct FromAttributesRule;

impl Production for FromAttributesRule {
    type Tree = (Seq<EdgeSyn>, <FromObservationsRule as Production>::Tree);

    ghost rule = { rules.from_attributes };

    fn read<'a>(alloc: Global, at: Cursor<'a>) -> Result<(Self::Tree, Cursor<'a>), Halt<'a>> {
        section_and::<EdgeRule, FromObservationsRule>(alloc, Class::Attributes, at)
    }
}

/// The sections from the path equations on.
pub struct FromPathsRule;

impl Production for FromPathsRule {
    type Tree = (Seq<PathEqSyn>, <FromAttributesRule as Production>::Tree);

    ghost rule = { rules.from_paths };

    fn read<'a>(alloc: Global, at: Cursor<'a>) -> Result<(Self::Tree, Cursor<'a>), Halt<'a>> {
        section_and::<PathEquationRule, FromAttributesRule>(alloc, Class::PathEquations, at)
    }
}

/// The sections from the foreign keys on.
pub struct FromKeysRule;

impl Production for FromKeysRule {
    type Tree = (Seq<EdgeSyn>, <FromPathsRule as Production>::Tree);

    ghost rule = { rules.from_keys };

    fn read<'a>(alloc: Global, at: Cursor<'a>) -> Result<(Self::Tree, Cursor<'a>), Halt<'a>> {
        section_and::<EdgeRule, FromPathsRule>(alloc, Class::ForeignKeys, at)
    }
}

/// The sections from the entities on.
pub struct FromEntitiesRule;

impl Production for FromEntitiesRule {
    type Tree = (Seq<Spot>, <FromKeysRule as Production>::Tree);

    ghost rule = { rules.from_entities };

    fn read<'a>(alloc: Global, at: Cursor<'a>) -> Result<(Self::Tree, Cursor<'a>), Halt<'a>> {
        section_and::<SpotRule, FromKeysRule>(alloc, Class::Entities, at)
    }
}

/// A schema that is written out.
#[tactic(auto, unfolding(cq_syntax::specs::Grammar::schema_literal))]
fn schema_literal<'a>(alloc: Global, at: Cursor<'a>) -> Result<(SchemaLit, Cursor<'a>), Halt<'a>>
    ensures { Gives result (read grammar.schema_literal at.entry.tokens.now) }
{
    let rest = skip(at, Class::Literal)?;
    let ((typeside, sections), rest) = over::<FromEntitiesRule>(alloc, rest)?;
    let (entities, (keys, (path_eqs, (attributes, (obs_eqs, options))))) = sections;
    let schema = SchemaLit {
        typeside,
        entities,
        keys,
        path_eqs,
        attributes,
        obs_eqs,
        options,
    };
    Ok((schema, rest))
}

/// A schema.
pub struct SchemaRule;

impl Production for SchemaRule {
    type Tree = SchemaExp;

    ghost rule = { grammar.schema };

    #[tactic(auto, unfolding(cq_syntax::specs::Grammar::schema, cq_syntax::specs::Grammar::schema_literal))]
    fn read<'a>(alloc: Global, at: Cursor<'a>) -> Result<(SchemaExp, Cursor<'a>), Halt<'a>> {
        if is_next(at, Class::Literal) {
            let (literal, rest) = schema_literal(alloc, at)?;
            return Ok((SchemaExp::Literal(literal), rest));
        }
        let (colimit, rest) = behind::<SpotRule>(alloc, Class::GetSchema, at)?;
        Ok((SchemaExp::GetSchema(colimit), rest))
    }
}
