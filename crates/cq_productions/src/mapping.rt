//! Mappings.
ghost use Rattle.std.specs.Prelude.{◌≡◌};
ghost use Rattle.cq_rules.specs.Rule.{read};
ghost use Rattle.cq_syntax.specs.Grammar as grammar;
ghost use Rattle.cq_productions.specs.Decided as decided;
ghost use Rattle.cq_productions.specs.Gives.{Gives};
ghost use Rattle.cq_productions.specs.Rules as rules;

use crate::cursor::Cursor;
use crate::equation::TermRule;
use crate::halt::Halt;
use crate::item::{Item, Production, section};
use crate::names::{NameRule, PathRule, SpotRule, of_two};
use crate::schema::bound;
use crate::sequence::{around, behind, between, both, many_and_options, section_and};
use crate::step::{is_name_next, is_next, place_of, skip};
use cq_base::{Name, Seq};
use cq_rules::Class;
use cq_syntax::{AttImage, AttSyn, KeyImage, MapBlock, MappingExp, MappingLit, Opt};
use std::alloc::Global;

/// To what a foreign key goes.
pub struct KeyImageRule;

impl Production for KeyImageRule {
    type Tree = KeyImage;

    ghost rule = { grammar.key_image };

    #[tactic(auto, unfolding(cq_syntax::specs::Grammar::key_image))]
    fn read<'a>(alloc: Global, at: Cursor<'a>) -> Result<(KeyImage, Cursor<'a>), Halt<'a>> {
        let place = place_of(at);
        let ((name, image), rest) = around::<NameRule, PathRule>(alloc, Class::Arrow, at)?;
        Ok((KeyImage { place, name, image }, rest))
    }
}

impl Item for KeyImageRule {
    ghost decided = { decided.key_images };

    #[tactic(auto, unfolding(cq_syntax::specs::Grammar::key_image, cq_syntax::specs::Grammar::name))]
    fn begins(class: Class) -> bool {
        class.is_name()
    }
}

/// To what an attribute goes: a term in a variable, or a path.
pub struct AttValueRule;

impl Production for AttValueRule {
    type Tree = AttSyn;

    ghost rule = { grammar.att_value };

    #[tactic(auto, unfolding(cq_syntax::specs::Grammar::att_value, cq_syntax::specs::Grammar::placed_path))]
    fn read<'a>(alloc: Global, at: Cursor<'a>) -> Result<(AttSyn, Cursor<'a>), Halt<'a>> {
        if is_name_next(at) {
            let (path, rest) = PathRule::read(alloc, at)?;
            return Ok((AttSyn::Path(path), rest));
        }
        let rest = skip(at, Class::Lambda)?;
        let ((variable, (entity, term)), rest) = bound::<TermRule>(alloc, rest)?;
        Ok((AttSyn::Lambda(variable, entity, term), rest))
    }
}

/// To what an attribute goes, with its name.
pub struct AttImageRule;

impl Production for AttImageRule {
    type Tree = AttImage;

    ghost rule = { grammar.att_image };

    #[tactic(auto, unfolding(cq_syntax::specs::Grammar::att_image))]
    fn read<'a>(alloc: Global, at: Cursor<'a>) -> Result<(AttImage, Cursor<'a>), Halt<'a>> {
        let place = place_of(at);
        let ((name, image), rest) = around::<NameRule, AttValueRule>(alloc, Class::Arrow, at)?;
        Ok((AttImage { place, name, image }, rest))
    }
}

impl Item for AttImageRule {
    ghost decided = { decided.att_images };

    #[tactic(auto, unfolding(cq_syntax::specs::Grammar::att_image, cq_syntax::specs::Grammar::name))]
    fn begins(class: Class) -> bool {
        class.is_name()
    }
}

/// To what attributes go.
pub struct AttImagesRule;

impl Production for AttImagesRule {
    type Tree = Seq<AttImage>;

    ghost rule = { rules.attribute_images };

    fn read<'a>(alloc: Global, at: Cursor<'a>) -> Result<(Seq<AttImage>, Cursor<'a>), Halt<'a>> {
        section::<AttImageRule>(alloc, Class::Attributes, at)
    }
}

/// To what foreign keys and attributes go.
pub struct KeyImagesRule;

impl Production for KeyImagesRule {
    type Tree = (Seq<KeyImage>, Seq<AttImage>);

    ghost rule = { rules.key_images };

    fn read<'a>(alloc: Global, at: Cursor<'a>) -> Result<(Self::Tree, Cursor<'a>), Halt<'a>> {
        section_and::<KeyImageRule, AttImagesRule>(alloc, Class::ForeignKeys, at)
    }
}

/// To what an entity goes, and its foreign keys and attributes.
pub struct EntityImageRule;

impl Production for EntityImageRule {
    type Tree = (Name, <KeyImagesRule as Production>::Tree);

    ghost rule = { rules.entity_image };

    fn read<'a>(alloc: Global, at: Cursor<'a>) -> Result<(Self::Tree, Cursor<'a>), Halt<'a>> {
        both::<NameRule, KeyImagesRule>(alloc, at)
    }
}

/// To what an entity, its foreign keys and its attributes go.
pub struct MapBlockRule;

impl Production for MapBlockRule {
    type Tree = MapBlock;

    ghost rule = { grammar.map_block };

    #[tactic(auto, unfolding(cq_syntax::specs::Grammar::map_block))]
    fn read<'a>(alloc: Global, at: Cursor<'a>) -> Result<(MapBlock, Cursor<'a>), Halt<'a>> {
        let place = place_of(at);
        let rest = skip(at, Class::Entity)?;
        let ((entity, (image, (keys, attributes))), rest) = around::<NameRule, EntityImageRule>(
            alloc,
            Class::Arrow,
            rest,
        )?;
        let block = MapBlock {
            place,
            entity,
            image,
            keys,
            attributes,
        };
        Ok((block, rest))
    }
}

impl Item for MapBlockRule {
    ghost decided = { decided.map_blocks };

    #[tactic(auto, unfolding(cq_syntax::specs::Grammar::map_block))]
    fn begins(class: Class) -> bool {
        class.is(Class::Entity)
    }
}

/// The blocks of a mapping, and its options.
pub struct MapBlocksRule;

impl Production for MapBlocksRule {
    type Tree = (Seq<MapBlock>, Seq<Opt>);

    ghost rule = { rules.map_blocks };

    fn read<'a>(alloc: Global, at: Cursor<'a>) -> Result<(Self::Tree, Cursor<'a>), Halt<'a>> {
        many_and_options::<MapBlockRule>(alloc, at)
    }
}

/// A mapping that is written out.
#[tactic(auto, unfolding(cq_syntax::specs::Grammar::mapping_literal))]
fn mapping_literal<'a>(alloc: Global, at: Cursor<'a>) -> Result<(MappingLit, Cursor<'a>), Halt<'a>>
    ensures { Gives result (read grammar.mapping_literal at.entry.tokens.now) }
{
    let rest = skip(at, Class::Literal)?;
    let ((source, (target, (blocks, options))), rest) = between::<MapBlocksRule>(alloc, rest)?;
    let mapping = MappingLit {
        source,
        target,
        blocks,
        options,
    };
    Ok((mapping, rest))
}

/// A mapping.
pub struct MappingRule;

impl Production for MappingRule {
    type Tree = MappingExp;

    ghost rule = { grammar.mapping };

    #[tactic(auto, unfolding(cq_syntax::specs::Grammar::mapping, cq_syntax::specs::Grammar::mapping_literal))]
    fn read<'a>(alloc: Global, at: Cursor<'a>) -> Result<(MappingExp, Cursor<'a>), Halt<'a>> {
        if is_next(at, Class::Literal) {
            let (literal, rest) = mapping_literal(alloc, at)?;
            return Ok((MappingExp::Literal(literal), rest));
        }
        if is_next(at, Class::Identity) {
            let (schema, rest) = behind::<SpotRule>(alloc, Class::Identity, at)?;
            return Ok((MappingExp::Identity(schema), rest));
        }
        let ((colimit, part), rest) = of_two(alloc, Class::GetMapping, at)?;
        Ok((MappingExp::GetMapping(colimit, part), rest))
    }
}
