//! Options.
ghost use Rattle.std.specs.Prelude.{◌≡◌};
ghost use Rattle.cq_rules.specs.Rule.{read};
ghost use Rattle.cq_syntax.specs.Grammar as grammar;
ghost use Rattle.cq_syntax.specs.Grammar.{is_allowed, is_value};
ghost use Rattle.cq_productions.specs.Decided as decided;
ghost use Rattle.cq_productions.specs.Gives.{Gives};

use crate::cursor::Cursor;
use crate::halt::Halt;
use crate::item::{Item, Production, section};
use crate::names::SpotRule;
use crate::step::{ends, name_in, split};
use crate::words::NoWords;
use cq_base::Seq;
use cq_rules::{Class, Why};
use cq_syntax::{Opt, Spot};
use std::alloc::Global;

/// Whether a token of this class is a value: a name or a text.
pub fn is_value(class: Class) -> bool
    ensures { result ≡ is_value class }
{
    class.is_name() || class.is(Class::Text)
}

/// Whether the option is allowed, and with this value.
fn is_allowed(name: &Spot, value: &Spot) -> bool
    ensures { result ≡ is_allowed name.now value.now }
{
    let option = name.name.as_str();
    option == "prover"
        || option == "timeout"
        || (option == "require_consistency" && value.name.as_str() == "true")
}

/// `NAME = VALUE`.
pub struct SettingRule;

impl Production for SettingRule {
    type Tree = Opt;

    ghost rule = { grammar.setting };

    #[tactic(auto, unfolding(cq_syntax::specs::Grammar::setting, cq_syntax::specs::Grammar::spot))]
    fn read<'a>(alloc: Global, at: Cursor<'a>) -> Result<(Opt, Cursor<'a>), Halt<'a>> {
        let (name, rest) = SpotRule::read(alloc, at)?;
        let rest = ends::<NoWords>(rest, Class::Equals)?;
        match split(rest) {
            Some(next) if is_value(next.class) => {
                let place = next.token.place;
                let value = Spot {
                    place,
                    name: name_in(alloc, next.token)?,
                };
                if !is_allowed(&name, &value) {
                    return Err(Halt::At(Why::BadOption(name.place), rest));
                }
                Ok((Opt { name, value }, next.rest))
            }
            _ => Err(Halt::At(Why::Wanted, rest)),
        }
    }
}

impl Item for SettingRule {
    ghost decided = { decided.settings };

    #[tactic(auto, unfolding(cq_syntax::specs::Grammar::setting, cq_syntax::specs::Grammar::spot))]
    fn begins(class: Class) -> bool {
        class.is_name()
    }
}

/// Nothing, or `options` and any number of settings.
#[tactic(auto, unfolding(cq_syntax::specs::Grammar::options))]
pub fn options<'a>(alloc: Global, at: Cursor<'a>) -> Result<(Seq<Opt>, Cursor<'a>), Halt<'a>>
    ensures { Gives result (read grammar.options at.entry.tokens.now) }
{
    section::<SettingRule>(alloc, Class::Options, at)
}

/// The options of a declaration.
pub struct OptionsRule;

impl Production for OptionsRule {
    type Tree = Seq<Opt>;

    ghost rule = { grammar.options };

    fn read<'a>(alloc: Global, at: Cursor<'a>) -> Result<(Seq<Opt>, Cursor<'a>), Halt<'a>> {
        options(alloc, at)
    }
}
