//! Names, texts, and names with the sort that they share.
ghost use Rattle.std.specs.Prelude.{◌≡◌, ◌-◌, ◌≤◌, length};
ghost use Rattle.cq_rules.specs.Class.{is};
ghost use Rattle.cq_rules.specs.Outcome.{name_of, read_chain, read_keep};
ghost use Rattle.cq_rules.specs.Rule.{path, read, set};
ghost use Rattle.cq_syntax.specs.Grammar as grammar;
ghost use Rattle.cq_productions.specs.Decided as decided;
ghost use Rattle.cq_productions.specs.Gives.{Gives, after_items};
ghost use Rattle.cq_productions.specs.Rules.{spots};

use crate::cursor::Cursor;
use crate::halt::Halt;
use crate::item::{Item, Production, some};
use crate::sequence::{around, both};
use crate::step::{is_next, name_in, place_of, skip, split};
use cq_base::{Name, Seq};
use cq_rules::{Class, Why};
use cq_syntax::{GroupSyn, PathSyn, Spot};
use std::alloc::Global;

/// A name.
pub struct NameRule;

impl Production for NameRule {
    type Tree = Name;

    ghost rule = { grammar.name };

    #[tactic(auto, unfolding(cq_syntax::specs::Grammar::name))]
    fn read<'a>(alloc: Global, at: Cursor<'a>) -> Result<(Name, Cursor<'a>), Halt<'a>> {
        match split(at) {
            Some(next) if next.class.is_name() => Ok((name_in(alloc, next.token)?, next.rest)),
            _ => Err(Halt::At(Why::Wanted, at)),
        }
    }
}

/// A text.
pub fn text<'a>(alloc: Global, at: Cursor<'a>) -> Result<(Name, Cursor<'a>), Halt<'a>>
    ensures { Gives result (read_keep name_of (set (is Class.Text)) at.entry.tokens.now) }
{
    match split(at) {
        Some(next) if next.class.is(Class::Text) => Ok((name_in(alloc, next.token)?, next.rest)),
        _ => Err(Halt::At(Why::Wanted, at)),
    }
}

/// A text.
pub struct TextRule;

impl Production for TextRule {
    type Tree = Name;

    ghost rule = { grammar.text };

    #[tactic(auto, unfolding(cq_syntax::specs::Grammar::text))]
    fn read<'a>(alloc: Global, at: Cursor<'a>) -> Result<(Name, Cursor<'a>), Halt<'a>> {
        text(alloc, at)
    }
}

/// A name with its place.
pub struct SpotRule;

impl Production for SpotRule {
    type Tree = Spot;

    ghost rule = { grammar.spot };

    #[tactic(auto, unfolding(cq_syntax::specs::Grammar::spot))]
    fn read<'a>(alloc: Global, at: Cursor<'a>) -> Result<(Spot, Cursor<'a>), Halt<'a>> {
        match split(at) {
            Some(next) if next.class.is_name() => {
                let place = next.token.place;
                let name = name_in(alloc, next.token)?;
                Ok((Spot { place, name }, next.rest))
            }
            _ => Err(Halt::At(Why::Wanted, at)),
        }
    }
}

impl Item for SpotRule {
    ghost decided = { decided.spots };

    #[tactic(auto, unfolding(cq_syntax::specs::Grammar::spot))]
    fn begins(class: Class) -> bool {
        class.is_name()
    }
}

/// One name or more.
pub struct SpotsRule;

impl Production for SpotsRule {
    type Tree = Seq<Spot>;

    ghost rule = { spots };

    fn read<'a>(alloc: Global, at: Cursor<'a>) -> Result<(Seq<Spot>, Cursor<'a>), Halt<'a>> {
        some::<SpotRule>(alloc, at)
    }
}

/// A word and two names.
pub fn of_two<'a>(
    alloc: Global,
    word: Class,
    at: Cursor<'a>,
) -> Result<((Spot, Spot), Cursor<'a>), Halt<'a>>
    ensures { Gives result (read (grammar.of_two word) at.entry.tokens.now) }
{
    let rest = skip(at, word)?;
    both::<SpotRule, SpotRule>(alloc, rest)
}

/// Names of one sort.
pub struct GroupRule;

impl Production for GroupRule {
    type Tree = GroupSyn;

    ghost rule = { grammar.group };

    #[tactic(auto, unfolding(cq_syntax::specs::Grammar::group))]
    fn read<'a>(alloc: Global, at: Cursor<'a>) -> Result<(GroupSyn, Cursor<'a>), Halt<'a>> {
        let ((names, sort), rest) = around::<SpotsRule, NameRule>(alloc, Class::Colon, at)?;
        Ok((GroupSyn { names, sort }, rest))
    }
}

impl Item for GroupRule {
    ghost decided = { decided.groups };

    #[tactic(auto, unfolding(cq_syntax::specs::Grammar::group, cq_syntax::specs::Grammar::spot))]
    fn begins(class: Class) -> bool {
        class.is_name()
    }
}

/// The most names of a path.
const MOST_NAMES: usize = 64;

/// These names and those behind dots that follow, as long as there are at most so many.
fn chain<'a>(
    alloc: Global,
    names: Vec<Name>,
    most: usize,
    at: Cursor<'a>,
) -> Result<(Seq<Name>, Cursor<'a>), Halt<'a>>
    requires { length names.items ≤ most }
    ensures { Gives result (after_items names.items (read_chain (most - length names.items) at.entry.tokens.now)) }
{
    let mut names = names;
    let mut rest = at;
    'names: while is_next(rest, Class::Dot) {
        let after = skip(rest, Class::Dot)?;
        let (next, behind) = NameRule::read(alloc, after)?;
        if names.len() == most {
            return Err(Halt::At(Why::Deep, after));
        }
        names.push(next)?;
        rest = behind;
    }
    Ok((Seq::from_vec(names), rest))
}

/// Names with dots between them.
fn path<'a>(alloc: Global, at: Cursor<'a>) -> Result<(Seq<Name>, Cursor<'a>), Halt<'a>>
    ensures { Gives result (read path at.entry.tokens.now) }
{
    let (first, rest) = NameRule::read(alloc, at)?;
    let mut names = Vec::new(alloc);
    names.push(first)?;
    chain(alloc, names, MOST_NAMES, rest)
}

/// A path with its place.
pub struct PathRule;

impl Production for PathRule {
    type Tree = PathSyn;

    ghost rule = { grammar.placed_path };

    #[tactic(auto, unfolding(cq_syntax::specs::Grammar::placed_path))]
    fn read<'a>(alloc: Global, at: Cursor<'a>) -> Result<(PathSyn, Cursor<'a>), Halt<'a>> {
        let place = place_of(at);
        let (names, rest) = path(alloc, at)?;
        Ok((PathSyn { place, names }, rest))
    }
}
