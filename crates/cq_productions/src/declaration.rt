//! Declarations.
ghost use Rattle.std.specs.Prelude.{◌≡◌};
ghost use Rattle.cq_rules.specs.Outcome.{first_place, mapped};
ghost use Rattle.cq_rules.specs.Rule.{read};
ghost use Rattle.cq_syntax.specs.Expressions.{declared};
ghost use Rattle.cq_syntax.specs.declared.program.Body.TheVariants as bodies;
ghost use Rattle.cq_syntax.specs.declared.program.Body.{Body};
ghost use Rattle.cq_syntax.specs.Grammar as grammar;
ghost use Rattle.cq_productions.specs.Decided as decided;
ghost use Rattle.cq_productions.specs.Gives.{Gives};
ghost use Rattle.cq_productions.specs.Parts.{declared_by, operation};

use crate::colimit::ColimitRule;
use crate::cursor::Cursor;
use crate::halt::Halt;
use crate::instance::InstanceRule;
use crate::item::{Item, Production, or_left_out};
use crate::mapping::MappingRule;
use crate::names::SpotRule;
use crate::query::QueryRule;
use crate::schema::SchemaRule;
use crate::sequence::around;
use crate::step::{is_next, place_of, skip};
use crate::transform::TransformRule;
use crate::typeside::TypesideRule;
use crate::words::OperationWords;
use cq_base::Place;
use cq_rules::Class;
use cq_syntax::{
    Body, ColimitLit, Decl, InstanceExp, MappingExp, QueryExp, SchemaExp, Spot, TransformExp,
    TypesideLit,
};
use std::alloc::Global;
use std::marker::PhantomData;

/// What is declared, where operations that are left out are refused as such.
pub struct OperationRule<P>(PhantomData<P>);

impl<P: Production> Production for OperationRule<P> {
    type Tree = P::Tree;

    ghost rule = { operation P.rule };

    fn read<'a>(alloc: Global, at: Cursor<'a>) -> Result<(P::Tree, Cursor<'a>), Halt<'a>> {
        or_left_out::<OperationWords, P>(alloc, at)
    }
}

/// A declaration's word, its name, `=`, and what it declares.
fn kind<'a, P: Production>(
    alloc: Global,
    word: Class,
    at: Cursor<'a>,
) -> Result<((Spot, P::Tree), Cursor<'a>), Halt<'a>>
    ensures { Gives result (read (grammar.kind word P.rule) at.entry.tokens.now) }
{
    let rest = skip(at, word)?;
    around::<SpotRule, OperationRule<P>>(alloc, Class::Equals, rest)
}

fn declared(place: Place, name: Spot, body: Body) -> Decl
    ensures { result ≡ declared place name.name name.place body }
{
    let Spot {
        place: name_place,
        name,
    } = name;
    Decl {
        place,
        name,
        name_place,
        body,
    }
}

/// What a declaration may declare.
trait Declarable: Production {
    ghost body_of: { Self.Tree → Body };

    /// The body of a declaration of it.
    fn body(tree: Self::Tree) -> Body
        ensures { result ≡ body_of tree };
}

impl Declarable for TypesideRule {
    ghost body_of = { bodies.Typeside };

    fn body(tree: TypesideLit) -> Body {
        Body::Typeside(tree)
    }
}

impl Declarable for SchemaRule {
    ghost body_of = { bodies.Schema };

    fn body(tree: SchemaExp) -> Body {
        Body::Schema(tree)
    }
}

impl Declarable for ColimitRule {
    ghost body_of = { bodies.Colimit };

    fn body(tree: ColimitLit) -> Body {
        Body::Colimit(tree)
    }
}

impl Declarable for MappingRule {
    ghost body_of = { bodies.Mapping };

    fn body(tree: MappingExp) -> Body {
        Body::Mapping(tree)
    }
}

impl Declarable for QueryRule {
    ghost body_of = { bodies.Query };

    fn body(tree: QueryExp) -> Body {
        Body::Query(tree)
    }
}

impl Declarable for InstanceRule {
    ghost body_of = { bodies.Instance };

    fn body(tree: InstanceExp) -> Body {
        Body::Instance(tree)
    }
}

impl Declarable for TransformRule {
    ghost body_of = { bodies.Transform };

    fn body(tree: TransformExp) -> Body {
        Body::Transform(tree)
    }
}

/// A declaration that begins with this word.
fn declaration<'a, D: Declarable>(
    alloc: Global,
    word: Class,
    at: Cursor<'a>,
) -> Result<(Decl, Cursor<'a>), Halt<'a>>
    ensures { Gives result (mapped (declared_by D.body_of (first_place at.entry.tokens.now))
        (read (grammar.kind word D.rule) at.entry.tokens.now)) }
{
    let place = place_of(at);
    let ((name, tree), rest) = kind::<D>(alloc, word, at)?;
    Ok((declared(place, name, D::body(tree)), rest))
}

/// A declaration.
pub struct DeclarationRule;

impl Production for DeclarationRule {
    type Tree = Decl;

    ghost rule = { grammar.declaration };

    fn read<'a>(alloc: Global, at: Cursor<'a>) -> Result<(Decl, Cursor<'a>), Halt<'a>> {
        if is_next(at, Class::Typeside) {
            return declaration::<TypesideRule>(alloc, Class::Typeside, at);
        }
        if is_next(at, Class::Schema) {
            return declaration::<SchemaRule>(alloc, Class::Schema, at);
        }
        if is_next(at, Class::SchemaColimit) {
            return declaration::<ColimitRule>(alloc, Class::SchemaColimit, at);
        }
        if is_next(at, Class::Mapping) {
            return declaration::<MappingRule>(alloc, Class::Mapping, at);
        }
        if is_next(at, Class::Query) {
            return declaration::<QueryRule>(alloc, Class::Query, at);
        }
        if is_next(at, Class::Instance) {
            return declaration::<InstanceRule>(alloc, Class::Instance, at);
        }
        declaration::<TransformRule>(alloc, Class::Transform, at)
    }
}

impl Item for DeclarationRule {
    ghost decided = { decided.declarations };

    #[tactic(auto, unfolding(cq_syntax::specs::Grammar::declaration))]
    fn begins(class: Class) -> bool {
        class.is(Class::Typeside)
            || class.is(Class::Schema)
            || class.is(Class::SchemaColimit)
            || class.is(Class::Mapping)
            || class.is(Class::Query)
            || class.is(Class::Instance)
            || class.is(Class::Transform)
    }
}
