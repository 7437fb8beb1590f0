//! What the grammar sees of a token.
ghost use Rattle.std.specs.Prelude.{◌≡◌};
ghost use Rattle.cq_rules.specs.Class.{class_of, mark_class, is_name, same};

use crate::word::word_class;
use cq_lex::{Kind, Mark, Token};

/// The class of a token: each word that the grammar names has one of its own. First come the
/// reserved words, then the words that are names wherever the grammar does not name them.
#[derive(Clone, Copy, Debug, PartialEq, Eq)]
pub enum Class {
    Typeside,
    Schema,
    Instance,
    Mapping,
    Transform,
    Query,
    SchemaColimit,
    Types,
    Literals,
    Constants,
    Functions,
    Entities,
    ForeignKeys,
    PathEquations,
    Attributes,
    ObservationEquations,
    Generators,
    Equations,
    EntityEquations,
    Entity,
    From,
    Where,
    Options,
    Forall,
    Lambda,
    ExternalTypes,
    ExternalParsers,
    ExternalFunctions,
    Imports,
    Literal,
    Delta,
    Sigma,
    Eval,
    Coeval,
    Coproduct,
    Pushout,
    ImportCsv,
    ImportCsv2,
    Identity,
    GetSchema,
    GetMapping,
    Quotient,
    Compose,
    OfMapping,
    Unit,
    Counit,
    UnitQuery,
    CounitQuery,
    Constraints,
    Command,
    Graph,
    Html,
    Md,
    Chase,
    Pi,
    Except,
    Distinct,
    Anonymize,
    Pivot,
    Coequalize,
    Colimit,
    Simple,
    Sql,
    Name,
    Text,
    LeftBrace,
    RightBrace,
    LeftParen,
    RightParen,
    LeftBracket,
    RightBracket,
    Colon,
    Semicolon,
    Comma,
    Dot,
    Equals,
    Plus,
    Arrow,
    End,
}

impl Class {
    /// Whether it is that class.
    pub fn is(self, other: Class) -> bool
        ensures { result ≡ same self other }
    {
        self as u8 == other as u8
    }

    /// Whether it is a name, that is a word that is not reserved.
    pub fn is_name(self) -> bool
        ensures { result ≡ is_name self }
    {
        match self {
            Class::Literal
            | Class::Delta
            | Class::Sigma
            | Class::Eval
            | Class::Coeval
            | Class::Coproduct
            | Class::Pushout
            | Class::ImportCsv
            | Class::ImportCsv2
            | Class::Identity
            | Class::GetSchema
            | Class::GetMapping
            | Class::Quotient
            | Class::Compose
            | Class::OfMapping
            | Class::Unit
            | Class::Counit
            | Class::UnitQuery
            | Class::CounitQuery
            | Class::Constraints
            | Class::Command
            | Class::Graph
            | Class::Html
            | Class::Md
            | Class::Chase
            | Class::Pi
            | Class::Except
            | Class::Distinct
            | Class::Anonymize
            | Class::Pivot
            | Class::Coequalize
            | Class::Colimit
            | Class::Simple
            | Class::Sql
            | Class::Name => true,
            _ => false,
        }
    }
}

fn mark_class(mark: Mark) -> Class
    ensures { result ≡ mark_class mark }
{
    match mark {
        Mark::LeftBrace => Class::LeftBrace,
        Mark::RightBrace => Class::RightBrace,
        Mark::LeftParen => Class::LeftParen,
        Mark::RightParen => Class::RightParen,
        Mark::LeftBracket => Class::LeftBracket,
        Mark::RightBracket => Class::RightBracket,
        Mark::Colon => Class::Colon,
        Mark::Semicolon => Class::Semicolon,
        Mark::Comma => Class::Comma,
        Mark::Dot => Class::Dot,
        Mark::Equals => Class::Equals,
        Mark::Plus => Class::Plus,
        Mark::Arrow => Class::Arrow,
    }
}

/// The class of a token.
pub fn classify(token: &Token) -> Class
    ensures { result ≡ class_of token.now }
{
    match &token.kind {
        Kind::Word(word) => word_class(word.as_str()),
        Kind::Text(_) => Class::Text,
        Kind::Mark(mark) => mark_class(*mark),
        Kind::End => Class::End,
    }
}
