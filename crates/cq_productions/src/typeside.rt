//! Typesides.
ghost use Rattle.std.specs.Prelude.{◌≡◌};
ghost use Rattle.cq_syntax.specs.Grammar as grammar;
ghost use Rattle.cq_productions.specs.Decided as decided;
ghost use Rattle.cq_productions.specs.Parts as parts;
ghost use Rattle.cq_productions.specs.Rules.{arguments, comma_name, signature, values};

use crate::cursor::Cursor;
use crate::halt::Halt;
use crate::item::{Item, Production, first_and_many, or_left_out, some};
use crate::names::{NameRule, SpotRule, SpotsRule};
use crate::options::{OptionsRule, is_value};
use crate::sequence::{EndedRule, around, behind, both, section_and};
use crate::step::{is_next, name_in, skip, split};
use crate::words::TypesideWords;
use cq_base::{Name, Seq};
use cq_rules::{Class, Why};
use cq_syntax::{FunSyn, GroupSyn, Opt, Spot, TypesideLit};
use std::alloc::Global;

/// A constant: a name or a text.
pub struct ValueRule;

impl Production for ValueRule {
    type Tree = Spot;

    ghost rule = { grammar.value };

    #[tactic(auto, unfolding(cq_syntax::specs::Grammar::value))]
    fn read<'a>(alloc: Global, at: Cursor<'a>) -> Result<(Spot, Cursor<'a>), Halt<'a>> {
        match split(at) {
            Some(next) if is_value(next.class) => {
                let place = next.token.place;
                let name = name_in(alloc, next.token)?;
                Ok((Spot { place, name }, next.rest))
            }
            _ => Err(Halt::At(Why::Wanted, at)),
        }
    }
}

impl Item for ValueRule {
    ghost decided = { decided.values };

    #[tactic(auto, unfolding(cq_syntax::specs::Grammar::value))]
    fn begins(class: Class) -> bool {
        is_value(class)
    }
}

/// One constant or more.
pub struct ValuesRule;

impl Production for ValuesRule {
    type Tree = Seq<Spot>;

    ghost rule = { values };

    fn read<'a>(alloc: Global, at: Cursor<'a>) -> Result<(Seq<Spot>, Cursor<'a>), Halt<'a>> {
        some::<ValueRule>(alloc, at)
    }
}

/// Constants of one type.
pub struct ConstantsRule;

impl Production for ConstantsRule {
    type Tree = GroupSyn;

    ghost rule = { grammar.constants };

    #[tactic(auto, unfolding(cq_syntax::specs::Grammar::constants))]
    fn read<'a>(alloc: Global, at: Cursor<'a>) -> Result<(GroupSyn, Cursor<'a>), Halt<'a>> {
        let ((names, sort), rest) = around::<ValuesRule, NameRule>(alloc, Class::Colon, at)?;
        Ok((GroupSyn { names, sort }, rest))
    }
}

impl Item for ConstantsRule {
    ghost decided = { decided.constants };

    #[tactic(auto, unfolding(cq_syntax::specs::Grammar::constants, cq_syntax::specs::Grammar::value))]
    fn begins(class: Class) -> bool {
        is_value(class)
    }
}

/// A name behind a comma.
pub struct CommaNameRule;

impl Production for CommaNameRule {
    type Tree = Name;

    ghost rule = { comma_name };

    fn read<'a>(alloc: Global, at: Cursor<'a>) -> Result<(Name, Cursor<'a>), Halt<'a>> {
        behind::<NameRule>(alloc, Class::Comma, at)
    }
}

impl Item for CommaNameRule {
    ghost decided = { decided.comma_names };

    fn begins(class: Class) -> bool {
        class.is(Class::Comma)
    }
}

/// The types of arguments, with commas between them.
pub struct ArgumentsRule;

impl Production for ArgumentsRule {
    type Tree = Seq<Name>;

    ghost rule = { arguments };

    fn read<'a>(alloc: Global, at: Cursor<'a>) -> Result<(Seq<Name>, Cursor<'a>), Halt<'a>> {
        first_and_many::<Name, NameRule, CommaNameRule>(alloc, at)
    }
}

/// The types of arguments and of the result.
pub struct SignatureRule;

impl Production for SignatureRule {
    type Tree = (Seq<Name>, Name);

    ghost rule = { signature };

    fn read<'a>(alloc: Global, at: Cursor<'a>) -> Result<(Self::Tree, Cursor<'a>), Halt<'a>> {
        around::<ArgumentsRule, NameRule>(alloc, Class::Arrow, at)
    }
}

/// Functions of the same types.
pub struct FunctionsRule;

impl Production for FunctionsRule {
    type Tree = FunSyn;

    ghost rule = { grammar.functions };

    #[tactic(auto, unfolding(cq_syntax::specs::Grammar::functions))]
    fn read<'a>(alloc: Global, at: Cursor<'a>) -> Result<(FunSyn, Cursor<'a>), Halt<'a>> {
        let ((names, (args, result)), rest) = around::<SpotsRule, SignatureRule>(
            alloc,
            Class::Colon,
            at,
        )?;
        Ok((
            FunSyn {
                names,
                args,
                result,
            },
            rest,
        ))
    }
}

impl Item for FunctionsRule {
    ghost decided = { decided.functions };

    #[tactic(auto, unfolding(cq_syntax::specs::Grammar::functions, cq_syntax::specs::Grammar::spot))]
    fn begins(class: Class) -> bool {
        class.is_name()
    }
}

/// Nothing, or `literals` and the open type.
pub struct OpenTypeRule;

impl Production for OpenTypeRule {
    type Tree = Option<Spot>;

    ghost rule = { grammar.open_type };

    #[tactic(auto, unfolding(cq_syntax::specs::Grammar::open_type))]
    fn read<'a>(alloc: Global, at: Cursor<'a>) -> Result<(Option<Spot>, Cursor<'a>), Halt<'a>> {
        if !is_next(at, Class::Literals) {
            return Ok((None, at));
        }
        let (name, rest) = behind::<SpotRule>(alloc, Class::Literals, at)?;
        Ok((Some(name), rest))
    }
}

/// The options of a typeside, and the brace that ends it.
pub struct FromOptionsRule;

impl Production for FromOptionsRule {
    type Tree = Seq<Opt>;

    ghost rule = { parts.from_options };

    fn read<'a>(alloc: Global, at: Cursor<'a>) -> Result<(Seq<Opt>, Cursor<'a>), Halt<'a>> {
        or_left_out::<TypesideWords, EndedRule<OptionsRule>>(alloc, at)
    }
}

/// The sections from the functions on.
pub struct FromFunctionsRule;

impl Production for FromFunctionsRule {
    type Tree = (Seq<FunSyn>, Seq<Opt>);

    ghost rule = { parts.from_functions };

    fn read<'a>(alloc: Global, at: Cursor<'a>) -> Result<(Self::Tree, Cursor<'a>), Halt<'a>> {
        section_and::<FunctionsRule, FromOptionsRule>(alloc, Class::Functions, at)
    }
}

/// The sections from the constants on.
pub struct FromConstantsRule;

impl Production for FromConstantsRule {
    type Tree = (Seq<GroupSyn>, <FromFunctionsRule as Production>::Tree);

    ghost rule = { parts.from_constants };

    fn read<'a>(alloc: Global, at: Cursor<'a>) -> Result<(Self::Tree, Cursor<'a>), Halt<'a>> {
        section_and::<ConstantsRule, FromFunctionsRule>(alloc, Class::Constants, at)
    }
}

/// The sections from the open type on.
pub struct FromOpenTypeRule;

impl Production for FromOpenTypeRule {
    type Tree = (Option<Spot>, <FromConstantsRule as Production>::Tree);

    ghost rule = { parts.from_open_type };

    fn read<'a>(alloc: Global, at: Cursor<'a>) -> Result<(Self::Tree, Cursor<'a>), Halt<'a>> {
        both::<OpenTypeRule, FromConstantsRule>(alloc, at)
    }
}

/// The sections from the types on.
pub struct FromTypesRule;

impl Production for FromTypesRule {
    type Tree = (Seq<Spot>, <FromOpenTypeRule as Production>::Tree);

    ghost rule = { parts.from_types };

    fn read<'a>(alloc: Global, at: Cursor<'a>) -> Result<(Self::Tree, Cursor<'a>), Halt<'a>> {
        section_and::<SpotRule, FromOpenTypeRule>(alloc, Class::Types, at)
    }
}

/// A typeside that is written out.
pub struct TypesideRule;

impl Production for TypesideRule {
    type Tree = TypesideLit;

    ghost rule = { grammar.typeside };

    #[tactic(auto, unfolding(cq_syntax::specs::Grammar::typeside))]
    fn read<'a>(alloc: Global, at: Cursor<'a>) -> Result<(TypesideLit, Cursor<'a>), Halt<'a>> {
        let rest = skip(at, Class::Literal)?;
        let ((types, (literals, (constants, (functions, options)))), rest) = behind::<
            FromTypesRule,
        >(alloc, Class::LeftBrace, rest)?;
        let typeside = TypesideLit {
            types,
            literals,
            constants,
            functions,
            options,
        };
        Ok((typeside, rest))
    }
}
