//! Queries.
ghost use Rattle.std.specs.Prelude.{◌≡◌};
ghost use Rattle.cq_rules.specs.Rule.{read};
ghost use Rattle.cq_syntax.specs.Grammar as grammar;
ghost use Rattle.cq_productions.specs.Decided as decided;
ghost use Rattle.cq_productions.specs.Gives.{Gives};
ghost use Rattle.cq_productions.specs.Rules as rules;

use crate::cursor::Cursor;
use crate::equation::{BindRule, EquationRule};
use crate::halt::Halt;
use crate::item::{Item, Production, many, section};
use crate::names::{GroupRule, NameRule, SpotRule, of_two};
use crate::sequence::{BracesRule, around, behind, between, many_and_options, section_and};
use crate::step::{is_next, place_of, skip};
use cq_base::{Name, Seq};
use cq_rules::Class;
use cq_syntax::{Bind, EqSyn, GroupSyn, Opt, QueryBlock, QueryExp, QueryKey, QueryLit};
use std::alloc::Global;

/// A name, an arrow, and a production in braces.
fn given<'a, P: Production>(
    alloc: Global,
    at: Cursor<'a>,
) -> Result<((Name, P::Tree), Cursor<'a>), Halt<'a>>
    ensures { Gives result (read (rules.given P.rule) at.entry.tokens.now) }
{
    around::<NameRule, BracesRule<P>>(alloc, Class::Arrow, at)
}

/// Terms that are given for names.
pub struct BindsRule;

impl Production for BindsRule {
    type Tree = Seq<Bind>;

    ghost rule = { rules.binds };

    fn read<'a>(alloc: Global, at: Cursor<'a>) -> Result<(Seq<Bind>, Cursor<'a>), Halt<'a>> {
        many::<BindRule>(alloc, at)
    }
}

/// A foreign key, with the terms that are given for it.
pub struct QueryKeyRule;

impl Production for QueryKeyRule {
    type Tree = QueryKey;

    ghost rule = { grammar.query_key };

    #[tactic(auto, unfolding(cq_syntax::specs::Grammar::query_key))]
    fn read<'a>(alloc: Global, at: Cursor<'a>) -> Result<(QueryKey, Cursor<'a>), Halt<'a>> {
        let place = place_of(at);
        let ((name, assigns), rest) = given::<BindsRule>(alloc, at)?;
        let key = QueryKey {
            place,
            name,
            assigns,
        };
        Ok((key, rest))
    }
}

impl Item for QueryKeyRule {
    ghost decided = { decided.query_keys };

    #[tactic(auto, unfolding(cq_syntax::specs::Grammar::query_key, cq_syntax::specs::Grammar::name))]
    fn begins(class: Class) -> bool {
        class.is_name()
    }
}

/// The foreign keys of a block.
pub struct QueryKeysRule;

impl Production for QueryKeysRule {
    type Tree = Seq<QueryKey>;

    ghost rule = { rules.from_query_keys };

    fn read<'a>(alloc: Global, at: Cursor<'a>) -> Result<(Seq<QueryKey>, Cursor<'a>), Halt<'a>> {
        section::<QueryKeyRule>(alloc, Class::ForeignKeys, at)
    }
}

/// The sections from the attributes on.
pub struct FromAttributesRule;

impl Production for FromAttributesRule {
    type Tree = (Seq<Bind>, Seq<QueryKey>);

    ghost rule = { rules.from_query_attributes };

    fn read<'a>(alloc: Global, at: Cursor<'a>) -> Result<(Self::Tree, Cursor<'a>), Halt<'a>> {
        section_and::<BindRule, QueryKeysRule>(alloc, Class::Attributes, at)
    }
}

/// The sections from the tests on.
pub struct FromTestsRule;

impl Production for FromTestsRule {
    type Tree = (Seq<EqSyn>, <FromAttributesRule as Production>::Tree);

    ghost rule = { rules.from_tests };

    fn read<'a>(alloc: Global, at: Cursor<'a>) -> Result<(Self::Tree, Cursor<'a>), Halt<'a>> {
        section_and::<EquationRule, FromAttributesRule>(alloc, Class::Where, at)
    }
}

/// The sections from the variables on.
pub struct FromVariablesRule;

impl Production for FromVariablesRule {
    type Tree = (Seq<GroupSyn>, <FromTestsRule as Production>::Tree);

    ghost rule = { rules.from_variables };

    fn read<'a>(alloc: Global, at: Cursor<'a>) -> Result<(Self::Tree, Cursor<'a>), Halt<'a>> {
        section_and::<GroupRule, FromTestsRule>(alloc, Class::From, at)
    }
}

/// What is given for an entity.
pub struct QueryBlockRule;

impl Production for QueryBlockRule {
    type Tree = QueryBlock;

    ghost rule = { grammar.query_block };

    #[tactic(auto, unfolding(cq_syntax::specs::Grammar::query_block))]
    fn read<'a>(alloc: Global, at: Cursor<'a>) -> Result<(QueryBlock, Cursor<'a>), Halt<'a>> {
        let place = place_of(at);
        let rest = skip(at, Class::Entity)?;
        let ((entity, (vars, (tests, (attributes, keys)))), rest) = given::<FromVariablesRule>(
            alloc, rest,
        )?;
        let block = QueryBlock {
            place,
            entity,
            vars,
            tests,
            attributes,
            keys,
        };
        Ok((block, rest))
    }
}

impl Item for QueryBlockRule {
    ghost decided = { decided.query_blocks };

    #[tactic(auto, unfolding(cq_syntax::specs::Grammar::query_block))]
    fn begins(class: Class) -> bool {
        class.is(Class::Entity)
    }
}

/// The blocks of a query, and its options.
pub struct QueryBlocksRule;

impl Production for QueryBlocksRule {
    type Tree = (Seq<QueryBlock>, Seq<Opt>);

    ghost rule = { rules.query_blocks };

    fn read<'a>(alloc: Global, at: Cursor<'a>) -> Result<(Self::Tree, Cursor<'a>), Halt<'a>> {
        many_and_options::<QueryBlockRule>(alloc, at)
    }
}

/// A query that is written out.
#[tactic(auto, unfolding(cq_syntax::specs::Grammar::query_literal))]
fn query_literal<'a>(alloc: Global, at: Cursor<'a>) -> Result<(QueryLit, Cursor<'a>), Halt<'a>>
    ensures { Gives result (read grammar.query_literal at.entry.tokens.now) }
{
    let rest = skip(at, Class::Literal)?;
    let ((source, (target, (blocks, options))), rest) = between::<QueryBlocksRule>(alloc, rest)?;
    let query = QueryLit {
        source,
        target,
        blocks,
        options,
    };
    Ok((query, rest))
}

/// A query.
pub struct QueryRule;

impl Production for QueryRule {
    type Tree = QueryExp;

    ghost rule = { grammar.query };

    #[tactic(auto, unfolding(cq_syntax::specs::Grammar::query, cq_syntax::specs::Grammar::query_literal))]
    fn read<'a>(alloc: Global, at: Cursor<'a>) -> Result<(QueryExp, Cursor<'a>), Halt<'a>> {
        if is_next(at, Class::Literal) {
            let (literal, rest) = query_literal(alloc, at)?;
            return Ok((QueryExp::Literal(literal), rest));
        }
        if is_next(at, Class::Compose) {
            let ((first, second), rest) = of_two(alloc, Class::Compose, at)?;
            return Ok((QueryExp::Compose(first, second), rest));
        }
        let (mapping, rest) = behind::<SpotRule>(alloc, Class::OfMapping, at)?;
        Ok((QueryExp::OfMapping(mapping), rest))
    }
}
