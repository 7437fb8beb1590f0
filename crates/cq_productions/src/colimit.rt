//! Colimits of schemas.
ghost use Rattle.cq_syntax.specs.Grammar as grammar;
ghost use Rattle.cq_productions.specs.Decided as decided;
ghost use Rattle.cq_productions.specs.Rules as rules;

use crate::cursor::Cursor;
use crate::halt::Halt;
use crate::item::{Item, Production, first_and_many};
use crate::names::{NameRule, SpotRule};
use crate::schema::{FromObservationsRule, PathEquationRule};
use crate::sequence::{around, behind, over, section_and};
use crate::step::{place_of, skip};
use cq_base::{Name, Seq};
use cq_rules::Class;
use cq_syntax::{ColimitLit, ObsSyn, Opt, PairSyn, PathEqSyn, Spot};
use std::alloc::Global;

/// A name behind a plus.
pub struct PlusSpotRule;

impl Production for PlusSpotRule {
    type Tree = Spot;

    ghost rule = { rules.plus_spot };

    fn read<'a>(alloc: Global, at: Cursor<'a>) -> Result<(Spot, Cursor<'a>), Halt<'a>> {
        behind::<SpotRule>(alloc, Class::Plus, at)
    }
}

impl Item for PlusSpotRule {
    ghost decided = { decided.plus_spots };

    fn begins(class: Class) -> bool {
        class.is(Class::Plus)
    }
}

/// Names with pluses between them.
pub struct SummandsRule;

impl Production for SummandsRule {
    type Tree = Seq<Spot>;

    ghost rule = { rules.summands };

    fn read<'a>(alloc: Global, at: Cursor<'a>) -> Result<(Seq<Spot>, Cursor<'a>), Halt<'a>> {
        first_and_many::<Spot, SpotRule, PlusSpotRule>(alloc, at)
    }
}

/// An entity of a part.
pub struct MemberRule;

impl Production for MemberRule {
    type Tree = (Name, Name);

    ghost rule = { grammar.member };

    #[tactic(auto, unfolding(cq_syntax::specs::Grammar::member))]
    fn read<'a>(alloc: Global, at: Cursor<'a>) -> Result<(Self::Tree, Cursor<'a>), Halt<'a>> {
        around::<NameRule, NameRule>(alloc, Class::Dot, at)
    }
}

/// Two entities that become one.
pub struct PairRule;

impl Production for PairRule {
    type Tree = PairSyn;

    ghost rule = { grammar.pair };

    #[tactic(auto, unfolding(cq_syntax::specs::Grammar::pair))]
    fn read<'a>(alloc: Global, at: Cursor<'a>) -> Result<(PairSyn, Cursor<'a>), Halt<'a>> {
        let place = place_of(at);
        let ((left, right), rest) = around::<MemberRule, MemberRule>(alloc, Class::Equals, at)?;
        Ok((PairSyn { place, left, right }, rest))
    }
}

impl Item for PairRule {
    ghost decided = { decided.pairs };

    fn begins(class: Class) -> bool {
        class.is_name()
    }
}

/// The sections from the path equations on.
pub struct ColimitFromPathsRule;

impl Production for ColimitFromPathsRule {
    type Tree = (Seq<PathEqSyn>, <FromObservationsRule as Production>::Tree);

    ghost rule = { rules.colimit_from_paths };

    fn read<'a>(alloc: Global, at: Cursor<'a>) -> Result<(Self::Tree, Cursor<'a>), Halt<'a>> {
        section_and::<PathEquationRule, FromObservationsRule>(alloc, Class::PathEquations, at)
    }
}

/// The sections from the pairs of entities on.
pub struct FromPairsRule;

impl Production for FromPairsRule {
    type Tree = (Seq<PairSyn>, <ColimitFromPathsRule as Production>::Tree);

    ghost rule = { rules.from_pairs };

    fn read<'a>(alloc: Global, at: Cursor<'a>) -> Result<(Self::Tree, Cursor<'a>), Halt<'a>> {
        section_and::<PairRule, ColimitFromPathsRule>(alloc, Class::EntityEquations, at)
    }
}

/// A colimit of schemas.
pub struct ColimitRule;

impl Production for ColimitRule {
    type Tree = ColimitLit;

    ghost rule = { grammar.colimit };

    #[tactic(auto, unfolding(cq_syntax::specs::Grammar::colimit))]
    fn read<'a>(alloc: Global, at: Cursor<'a>) -> Result<(ColimitLit, Cursor<'a>), Halt<'a>> {
        let rest = skip(at, Class::Quotient)?;
        let (parts, rest) = SummandsRule::read(alloc, rest)?;
        let ((typeside, sections), rest) = over::<FromPairsRule>(alloc, rest)?;
        let (pairs, (path_eqs, (obs_eqs, options))) = sections;
        let colimit = ColimitLit {
            parts,
            typeside,
            pairs,
            path_eqs,
            obs_eqs,
            options,
        };
        Ok((colimit, rest))
    }
}
