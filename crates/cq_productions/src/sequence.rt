//! Productions one behind another.
ghost use Rattle.std.specs.Prelude.{◌≡◌};
ghost use Rattle.cq_rules.specs.Class.{is};
ghost use Rattle.cq_rules.specs.Rule.{many, read, section, seq, skip};
ghost use Rattle.cq_syntax.specs.Grammar as grammar;
ghost use Rattle.cq_productions.specs.Gives.{Gives};
ghost use Rattle.cq_productions.specs.Parts as parts;
ghost use Rattle.cq_productions.specs.Rules.{between, over};

use crate::cursor::Cursor;
use crate::halt::Halt;
use crate::item::{Item, Production, many, section};
use crate::names::SpotRule;
use crate::options::options;
use crate::step::{ends, skip};
use crate::words::SectionWords;
use cq_base::Seq;
use cq_rules::Class;
use cq_syntax::{Opt, Spot};
use std::alloc::Global;
use std::marker::PhantomData;

/// The production behind a token of this class.
pub fn behind<'a, P: Production>(
    alloc: Global,
    class: Class,
    at: Cursor<'a>,
) -> Result<(P::Tree, Cursor<'a>), Halt<'a>>
    ensures { Gives result (read (skip (is class) P.rule) at.entry.tokens.now) }
{
    let rest = skip(at, class)?;
    P::read(alloc, rest)
}

/// Two productions.
pub fn both<'a, L: Production, R: Production>(
    alloc: Global,
    at: Cursor<'a>,
) -> Result<((L::Tree, R::Tree), Cursor<'a>), Halt<'a>>
    ensures { Gives result (read (seq L.rule R.rule) at.entry.tokens.now) }
{
    let (left, rest) = L::read(alloc, at)?;
    let (right, rest) = R::read(alloc, rest)?;
    Ok(((left, right), rest))
}

/// Two productions with a token of this class between them.
pub fn around<'a, L: Production, R: Production>(
    alloc: Global,
    class: Class,
    at: Cursor<'a>,
) -> Result<((L::Tree, R::Tree), Cursor<'a>), Halt<'a>>
    ensures { Gives result (read (seq L.rule (skip (is class) R.rule)) at.entry.tokens.now) }
{
    let (left, rest) = L::read(alloc, at)?;
    let (right, rest) = behind::<R>(alloc, class, rest)?;
    Ok(((left, right), rest))
}

/// A section with this word at its head, which may be left out, and what stands behind it.
pub fn section_and<'a, I: Item, R: Production>(
    alloc: Global,
    word: Class,
    at: Cursor<'a>,
) -> Result<((Seq<I::Tree>, R::Tree), Cursor<'a>), Halt<'a>>
    ensures { Gives result (read (seq (section (is word) I.rule) R.rule) at.entry.tokens.now) }
{
    let (items, rest) = section::<I>(alloc, word, at)?;
    let (tree, rest) = R::read(alloc, rest)?;
    Ok(((items, tree), rest))
}

/// Any number of items, and options.
#[tactic(auto, unfolding(cq_syntax::specs::Grammar::options))]
pub fn many_and_options<'a, I: Item>(
    alloc: Global,
    at: Cursor<'a>,
) -> Result<((Seq<I::Tree>, Seq<Opt>), Cursor<'a>), Halt<'a>>
    ensures { Gives result (read (seq (many I.rule) grammar.options) at.entry.tokens.now) }
{
    let (items, rest) = many::<I>(alloc, at)?;
    let (options, rest) = options(alloc, rest)?;
    Ok(((items, options), rest))
}

/// A production, and the brace that ends it.
pub struct EndedRule<P>(PhantomData<P>);

impl<P: Production> Production for EndedRule<P> {
    type Tree = P::Tree;

    ghost rule = { parts.ended P.rule };

    fn read<'a>(alloc: Global, at: Cursor<'a>) -> Result<(P::Tree, Cursor<'a>), Halt<'a>> {
        let (tree, rest) = P::read(alloc, at)?;
        let rest = ends::<SectionWords>(rest, Class::RightBrace)?;
        Ok((tree, rest))
    }
}

/// A production in braces.
pub struct BracesRule<P>(PhantomData<P>);

impl<P: Production> Production for BracesRule<P> {
    type Tree = P::Tree;

    ghost rule = { grammar.in_braces P.rule };

    fn read<'a>(alloc: Global, at: Cursor<'a>) -> Result<(P::Tree, Cursor<'a>), Halt<'a>> {
        behind::<EndedRule<P>>(alloc, Class::LeftBrace, at)
    }
}

/// A name, and a production in braces.
pub struct NamedRule<P>(PhantomData<P>);

impl<P: Production> Production for NamedRule<P> {
    type Tree = (Spot, P::Tree);

    ghost rule = { parts.named P.rule };

    fn read<'a>(alloc: Global, at: Cursor<'a>) -> Result<(Self::Tree, Cursor<'a>), Halt<'a>> {
        both::<SpotRule, BracesRule<P>>(alloc, at)
    }
}

/// Two names with an arrow between them, and a production in braces.
pub struct ToNamedRule<P>(PhantomData<P>);

impl<P: Production> Production for ToNamedRule<P> {
    type Tree = (Spot, (Spot, P::Tree));

    ghost rule = { parts.to_named P.rule };

    fn read<'a>(alloc: Global, at: Cursor<'a>) -> Result<(Self::Tree, Cursor<'a>), Halt<'a>> {
        around::<SpotRule, NamedRule<P>>(alloc, Class::Arrow, at)
    }
}

/// A colon, a name, and a production in braces.
pub fn over<'a, P: Production>(
    alloc: Global,
    at: Cursor<'a>,
) -> Result<((Spot, P::Tree), Cursor<'a>), Halt<'a>>
    ensures { Gives result (read (over P.rule) at.entry.tokens.now) }
{
    behind::<NamedRule<P>>(alloc, Class::Colon, at)
}

/// A colon, two names with an arrow between them, and a production in braces.
pub fn between<'a, P: Production>(
    alloc: Global,
    at: Cursor<'a>,
) -> Result<((Spot, (Spot, P::Tree)), Cursor<'a>), Halt<'a>>
    ensures { Gives result (read (between P.rule) at.entry.tokens.now) }
{
    behind::<ToNamedRule<P>>(alloc, Class::Colon, at)
}
