//! Productions of the grammar, and lists of them.
ghost use Rattle.std.specs.Prelude.{◌≡◌, true};
ghost use Rattle.cq_rules.specs.Class.{is};
ghost use Rattle.cq_rules.specs.Outcome.{leads, mapped, read_seq};
ghost use Rattle.cq_rules.specs.Rule.{Rule, decides, first, joined, many, or_left_out, read, section, set, some};
ghost use Rattle.cq_productions.specs.Gives.{Gives, after_items};

use crate::cursor::Cursor;
use crate::halt::Halt;
use crate::step::{is_next, left_out, skip, split};
use crate::words::Words;
use cq_base::Seq;
use cq_rules::{Class, Why};
use std::alloc::Global;

/// A production, which reads a tree.
pub trait Production {
    type Tree: Drop;

    ghost rule: { Rule Self.Tree };

    /// The tree at the cursor, and the cursor behind it; or where reading halts.
    fn read<'a>(alloc: Global, at: Cursor<'a>) -> Result<(Self::Tree, Cursor<'a>), Halt<'a>>
        ensures { Gives result (read rule at.entry.tokens.now) };
}

/// A production of which a list may stand: its first token says whether another one follows.
pub trait Item: Production {
    /// Whether a token of this class may be its first.
    fn begins(class: Class) -> bool
        ensures { result ≡ first Self.rule class };

    ghost decided: { decides (many Self.rule) ≡ true };
}

/// Whether an item follows.
pub fn item_follows<I: Item>(at: Cursor) -> bool
    ensures { result ≡ leads (set (first I.rule)) at.entry.tokens.now }
{
    match split(at) {
        Some(next) => I::begins(next.class),
        None => false,
    }
}

/// These items, and all that follow.
pub fn others<'a, I: Item>(
    alloc: Global,
    items: Vec<I::Tree>,
    at: Cursor<'a>,
) -> Result<(Seq<I::Tree>, Cursor<'a>), Halt<'a>>
    ensures { Gives result (after_items items.items (read (many I.rule) at.entry.tokens.now)) }
{
    let mut items = items;
    let mut rest = at;
    'items: while item_follows::<I>(rest) {
        let (item, behind) = I::read(alloc, rest)?;
        items.push(item)?;
        rest = behind;
    }
    Ok((Seq::from_vec(items), rest))
}

/// Any number of items.
pub fn many<'a, I: Item>(
    alloc: Global,
    at: Cursor<'a>,
) -> Result<(Seq<I::Tree>, Cursor<'a>), Halt<'a>>
    ensures { Gives result (read (many I.rule) at.entry.tokens.now) }
{
    others::<I>(alloc, Vec::new(alloc), at)
}

/// A first one, and any number of items behind it.
pub fn first_and_many<'a, T: Drop, F: Production<Tree = T>, I: Item<Tree = T>>(
    alloc: Global,
    at: Cursor<'a>,
) -> Result<(Seq<T>, Cursor<'a>), Halt<'a>>
    ensures { Gives result (mapped joined (read_seq (read F.rule) (read (many I.rule)) at.entry.tokens.now)) }
{
    let (first, rest) = F::read(alloc, at)?;
    let mut items = Vec::new(alloc);
    items.push(first)?;
    others::<I>(alloc, items, rest)
}

/// One item or more.
pub fn some<'a, I: Item>(
    alloc: Global,
    at: Cursor<'a>,
) -> Result<(Seq<I::Tree>, Cursor<'a>), Halt<'a>>
    ensures { Gives result (read (some I.rule) at.entry.tokens.now) }
{
    first_and_many::<I::Tree, I, I>(alloc, at)
}

/// Nothing, or a section with this word at its head and any number of items.
pub fn section<'a, I: Item>(
    alloc: Global,
    word: Class,
    at: Cursor<'a>,
) -> Result<(Seq<I::Tree>, Cursor<'a>), Halt<'a>>
    ensures { Gives result (read (section (is word) I.rule) at.entry.tokens.now) }
{
    if !is_next(at, word) {
        return Ok((Seq::from_vec(Vec::new(alloc)), at));
    }
    let rest = skip(at, word)?;
    many::<I>(alloc, rest)
}

/// The production, where words that are left out are refused as such.
pub fn or_left_out<'a, W: Words, P: Production>(
    alloc: Global,
    at: Cursor<'a>,
) -> Result<(P::Tree, Cursor<'a>), Halt<'a>>
    ensures { Gives result (read (or_left_out W.words P.rule) at.entry.tokens.now) }
{
    let number = left_out::<W>(at);
    if number > 0 {
        return Err(Halt::At(Why::LeftOut(number), at));
    }
    P::read(alloc, at)
}
