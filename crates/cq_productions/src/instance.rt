//! Instances.
ghost use Rattle.std.specs.Prelude.{◌≡◌};
ghost use Rattle.cq_rules.specs.Outcome.{mapped};
ghost use Rattle.cq_rules.specs.Rule.{read};
ghost use Rattle.cq_syntax.specs.Grammar as grammar;
ghost use Rattle.cq_syntax.specs.declared.program.InstanceExp.TheVariants as instances;
ghost use Rattle.cq_productions.specs.Gives.{Gives};
ghost use Rattle.cq_productions.specs.Parts as parts;
ghost use Rattle.cq_productions.specs.Parts.{coproduct_of};
ghost use Rattle.cq_productions.specs.Rules.{from_equations, from_generators};

use crate::colimit::SummandsRule;
use crate::cursor::Cursor;
use crate::equation::EquationRule;
use crate::halt::Halt;
use crate::item::Production;
use crate::names::{GroupRule, SpotRule, TextRule, of_two};
use crate::options::OptionsRule;
use crate::sequence::{EndedRule, around, behind, both, over, section_and};
use crate::step::{is_next, skip};
use cq_base::{Name, Seq};
use cq_rules::Class;
use cq_syntax::{EqSyn, GroupSyn, InstanceExp, InstanceLit, Opt, Spot};
use std::alloc::Global;

/// The sections from the equations on.
pub struct FromEquationsRule;

impl Production for FromEquationsRule {
    type Tree = (Seq<EqSyn>, Seq<Opt>);

    ghost rule = { from_equations };

    fn read<'a>(alloc: Global, at: Cursor<'a>) -> Result<(Self::Tree, Cursor<'a>), Halt<'a>> {
        section_and::<EquationRule, OptionsRule>(alloc, Class::Equations, at)
    }
}

/// The sections from the generators on.
pub struct FromGeneratorsRule;

impl Production for FromGeneratorsRule {
    type Tree = (Seq<GroupSyn>, <FromEquationsRule as Production>::Tree);

    ghost rule = { from_generators };

    fn read<'a>(alloc: Global, at: Cursor<'a>) -> Result<(Self::Tree, Cursor<'a>), Halt<'a>> {
        section_and::<GroupRule, FromEquationsRule>(alloc, Class::Generators, at)
    }
}

/// An instance that is written out.
#[tactic(auto, unfolding(cq_syntax::specs::Grammar::instance_literal))]
fn instance_literal<'a>(
    alloc: Global,
    at: Cursor<'a>,
) -> Result<(InstanceExp, Cursor<'a>), Halt<'a>>
    ensures { Gives result (mapped instances.Literal (read grammar.instance_literal at.entry.tokens.now)) }
{
    let rest = skip(at, Class::Literal)?;
    let ((schema, (generators, (equations, options))), rest) = over::<FromGeneratorsRule>(
        alloc, rest,
    )?;
    let instance = InstanceLit {
        schema,
        generators,
        equations,
        options,
    };
    Ok((InstanceExp::Literal(instance), rest))
}

/// A coproduct of instances over a schema.
#[tactic(auto, unfolding(cq_syntax::specs::Grammar::coproduct))]
fn coproduct<'a>(alloc: Global, at: Cursor<'a>) -> Result<(InstanceExp, Cursor<'a>), Halt<'a>>
    ensures { Gives result (mapped coproduct_of (read grammar.coproduct at.entry.tokens.now)) }
{
    let rest = skip(at, Class::Coproduct)?;
    let ((summands, schema), rest) = around::<SummandsRule, SpotRule>(alloc, Class::Colon, rest)?;
    Ok((InstanceExp::Coproduct(summands, schema), rest))
}

/// The instance of this word and two names.
fn of_names(word: Class, left: Spot, right: Spot) -> InstanceExp
    ensures { result ≡ parts.of_names word (left, right) }
{
    match word {
        Class::Delta => InstanceExp::Delta(left, right),
        Class::Sigma => InstanceExp::Sigma(left, right),
        Class::Eval => InstanceExp::Eval(left, right),
        Class::Coeval => InstanceExp::Coeval(left, right),
        _ => InstanceExp::Pushout(left, right),
    }
}

/// An instance that a word and two names make.
fn word_and_names<'a>(
    alloc: Global,
    word: Class,
    at: Cursor<'a>,
) -> Result<(InstanceExp, Cursor<'a>), Halt<'a>>
    ensures { Gives result (mapped (parts.of_names word) (read (grammar.of_two word) at.entry.tokens.now)) }
{
    let ((left, right), rest) = of_two(alloc, word, at)?;
    Ok((of_names(word, left, right), rest))
}

/// Nothing, or options in braces.
pub struct BracedOptionsRule;

impl Production for BracedOptionsRule {
    type Tree = Seq<Opt>;

    ghost rule = { parts.braced_options };

    #[tactic(auto, unfolding(cq_syntax::specs::Grammar::options))]
    fn read<'a>(alloc: Global, at: Cursor<'a>) -> Result<(Seq<Opt>, Cursor<'a>), Halt<'a>> {
        if !is_next(at, Class::LeftBrace) {
            return Ok((Seq::from_vec(Vec::new(alloc)), at));
        }
        behind::<EndedRule<OptionsRule>>(alloc, Class::LeftBrace, at)
    }
}

/// The schema of an import, and its options.
pub struct SchemaAndOptionsRule;

impl Production for SchemaAndOptionsRule {
    type Tree = (Spot, Seq<Opt>);

    ghost rule = { parts.schema_and_options };

    fn read<'a>(alloc: Global, at: Cursor<'a>) -> Result<(Self::Tree, Cursor<'a>), Halt<'a>> {
        both::<SpotRule, BracedOptionsRule>(alloc, at)
    }
}

/// The instance of this word and a folder.
fn of_folder(word: Class, folder: Name, schema: Spot, options: Seq<Opt>) -> InstanceExp
    ensures { result ≡ parts.of_folder word (folder, (schema, options)) }
{
    match word {
        Class::ImportCsv => InstanceExp::ImportCsv(folder, schema, options),
        _ => InstanceExp::ImportCsv2(folder, schema, options),
    }
}

/// A word, and the folder of files of comma-separated values that are imported.
#[tactic(auto, unfolding(cq_syntax::specs::Grammar::import))]
fn import<'a>(
    alloc: Global,
    word: Class,
    at: Cursor<'a>,
) -> Result<(InstanceExp, Cursor<'a>), Halt<'a>>
    ensures { Gives result (mapped (parts.of_folder word) (read (grammar.import word) at.entry.tokens.now)) }
{
    let rest = skip(at, word)?;
    let ((folder, (schema, options)), rest) = around::<TextRule, SchemaAndOptionsRule>(
        alloc,
        Class::Colon,
        rest,
    )?;
    Ok((of_folder(word, folder, schema, options), rest))
}

/// An instance.
pub struct InstanceRule;

impl Production for InstanceRule {
    type Tree = InstanceExp;

    ghost rule = { grammar.instance };

    fn read<'a>(alloc: Global, at: Cursor<'a>) -> Result<(InstanceExp, Cursor<'a>), Halt<'a>> {
        if is_next(at, Class::Literal) {
            return instance_literal(alloc, at);
        }
        if is_next(at, Class::Delta) {
            return word_and_names(alloc, Class::Delta, at);
        }
        if is_next(at, Class::Sigma) {
            return word_and_names(alloc, Class::Sigma, at);
        }
        if is_next(at, Class::Eval) {
            return word_and_names(alloc, Class::Eval, at);
        }
        if is_next(at, Class::Coeval) {
            return word_and_names(alloc, Class::Coeval, at);
        }
        if is_next(at, Class::Coproduct) {
            return coproduct(alloc, at);
        }
        if is_next(at, Class::Pushout) {
            return word_and_names(alloc, Class::Pushout, at);
        }
        if is_next(at, Class::ImportCsv) {
            return import(alloc, Class::ImportCsv, at);
        }
        import(alloc, Class::ImportCsv2, at)
    }
}
