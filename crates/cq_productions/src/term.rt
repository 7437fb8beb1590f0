//! Terms, of at most 64 levels.
ghost use Rattle.std.specs.Prelude.{◌≡◌, ◌+◌, ◌-◌, ◌≤◌, IfOk, Err};
ghost use Rattle.cq_rules.specs.Class.{is};
ghost use Rattle.cq_rules.specs.Outcome.{leads, mapped, name_of, read_chain, read_keep};
ghost use Rattle.cq_rules.specs.Rule.{set};
ghost use Rattle.cq_rules.specs.Tree as tree;
ghost use Rattle.cq_rules.specs.Tree.{after_dots, args_tree, begins_term, deepest, end, levels, more, read_args};
ghost use Rattle.cq_rules.specs.Tree.{read_base, read_deep, read_term};
ghost use Rattle.cq_syntax.specs.Terms.{tree_of};
ghost use Rattle.cq_productions.specs.Gives.{Fails, GivesTerm, GivesTerms};
ghost use Rattle.cq_productions.specs.TermTrees.{trees_of};

use crate::cursor::Cursor;
use crate::halt::Halt;
use crate::item::Production;
use crate::names::{NameRule, text};
use crate::step::{is_next, skip, split};
use cq_base::{Name, Raw, Seq};
use cq_rules::{Class, Why};
use std::alloc::{AllocError, Global};

fn word(name: Name) -> Raw
    ensures { tree_of result ≡ tree.Word name }
{
    Raw::Word(name)
}

fn quoted(content: Name) -> Raw
    ensures { tree_of result ≡ tree.Text content }
{
    Raw::Text(content)
}

fn application(name: Name, args: Seq<Raw>) -> Raw
    ensures { tree_of result ≡ tree.App name (trees_of args) }
{
    Raw::App(name, args)
}

fn applied_to(alloc: Global, name: Name, arg: Raw) -> Result<Raw, AllocError>
    ensures { IfOk result (λ r. tree_of r ≡ tree.App name (more (tree_of arg) end)) }
{
    // Most symbols have one argument, and room for more would be kept for nothing.
    let mut args = Vec::with_capacity(alloc, 1)?;
    args.push(arg)?;
    Ok(application(name, Seq::from_vec(args)))
}

/// The term with the names behind dots that follow, as long as there are at most so many levels; and
/// how many it has.
fn dots<'a>(
    alloc: Global,
    first: Raw,
    first_levels: usize,
    most: usize,
    at: Cursor<'a>,
) -> Result<(Raw, usize, Cursor<'a>), Halt<'a>>
    requires known { first_levels ≡ levels (tree_of first) }
    requires in_range { first_levels ≤ most }
    ensures reads { GivesTerm result (after_dots (tree_of first)
        (read_chain (most - first_levels) at.entry.tokens.now)) }
    ensures levels { IfOk result (λ x. x.1 ≡ levels (tree_of x.0)) }
    ensures fits { IfOk result (λ x. x.1 ≤ most) }
{
    let mut raw = first;
    let mut levels = first_levels;
    let mut rest = at;
    'names: while is_next(rest, Class::Dot) {
        let after = skip(rest, Class::Dot)?;
        let (next, behind) = NameRule::read(alloc, after)?;
        if levels == most {
            return Err(Halt::At(Why::Deep, after));
        }
        raw = applied_to(alloc, next, raw)?;
        levels += 1;
        rest = behind;
    }
    Ok((raw, levels, rest))
}

/// Whether a term begins here.
pub fn is_term_next(at: Cursor) -> bool
    ensures { result ≡ leads begins_term at.entry.tokens.now }
{
    match split(at) {
        Some(next) => next.class.is(Class::Text) || next.class.is_name(),
        None => false,
    }
}

/// No level is left, so a term here is too deep.
fn no_level<'a>(at: Cursor<'a>) -> Halt<'a>
    ensures { Fails result (read_deep at.entry.tokens.now) }
{
    if is_term_next(at) {
        Halt::At(Why::Deep, at)
    } else {
        Halt::At(Why::Wanted, at)
    }
}

/// The arguments behind an open bracket, up to the one that closes it, and their deepest level.
#[cycle(terms)]
fn arguments<'a>(
    alloc: Global,
    budget: usize,
    at: Cursor<'a>,
) -> Result<(Seq<Raw>, usize, Cursor<'a>), Halt<'a>>
    requires { budget ≤ 64 }
    ensures reads { GivesTerms result (mapped args_tree (read_args (read_term budget) at.entry.tokens.now)) }
    ensures levels { IfOk result (λ x. x.1 ≡ deepest (trees_of x.0)) }
    ensures fits { IfOk result (λ x. x.1 ≤ budget) }
{
    let (first, first_levels, after) = term(alloc, budget, at)?;
    let mut args = Vec::with_capacity(alloc, 1)?;
    args.push(first)?;
    let mut levels = first_levels;
    let mut rest = after;
    'items: while is_next(rest, Class::Comma) {
        let behind = skip(rest, Class::Comma)?;
        let (next, next_levels, after) = term(alloc, budget, behind)?;
        args.push(next)?;
        levels = levels.max(next_levels);
        rest = after;
    }
    let rest = skip(rest, Class::RightParen)?;
    Ok((Seq::from_vec(args), levels, rest))
}

/// A name, a name with arguments, or a text; and how many levels it has.
#[cycle(terms)]
fn base<'a>(
    alloc: Global,
    budget: usize,
    at: Cursor<'a>,
) -> Result<(Raw, usize, Cursor<'a>), Halt<'a>>
    requires { budget ≤ 64 }
    ensures reads { GivesTerm result (read_base (read_term budget) at.entry.tokens.now) }
    ensures levels { IfOk result (λ x. x.1 ≡ levels (tree_of x.0)) }
    ensures fits { IfOk result (λ x. x.1 ≤ budget + 1) }
{
    if is_next(at, Class::Text) {
        let (content, rest) = text(alloc, at)?;
        return Ok((quoted(content), 1, rest));
    }
    let (head, rest) = NameRule::read(alloc, at)?;
    if !is_next(rest, Class::LeftParen) {
        return Ok((word(head), 1, rest));
    }
    let rest = skip(rest, Class::LeftParen)?;
    let (args, levels, rest) = arguments(alloc, budget, rest)?;
    Ok((application(head, args), levels + 1, rest))
}

/// A term of at most so many levels, and how many it has.
#[cycle(terms)]
pub fn term<'a>(
    alloc: Global,
    budget: usize,
    at: Cursor<'a>,
) -> Result<(Raw, usize, Cursor<'a>), Halt<'a>>
    requires { budget ≤ 64 }
    ensures reads { GivesTerm result (read_term budget at.entry.tokens.now) }
    ensures levels { IfOk result (λ x. x.1 ≡ levels (tree_of x.0)) }
    ensures fits { IfOk result (λ x. x.1 ≤ budget) }
{
    if budget == 0 {
        return Err(no_level(at));
    }
    let (first, levels, rest) = base(alloc, budget - 1, at)?;
    dots(alloc, first, levels, budget, rest)
}
