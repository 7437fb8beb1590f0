//! The classes of words. Only words of one length are compared.
ghost use Rattle.std.specs.Prelude.{◌≡◌, length};
ghost use Rattle.cq_rules.specs.Class.{class_in, word_class};
ghost use Rattle.cq_rules.specs.Words.{words_of};

use crate::class::Class;

/// The class of a word.
pub(crate) fn word_class(word: &str) -> Class
    ensures { result ≡ word_class word.now }
{
    match word.len() {
        2 => of_two(word),
        3 => of_three(word),
        4 => of_four(word),
        5 => of_five(word),
        6 => of_six(word),
        7 => of_seven(word),
        8 => of_eight(word),
        9 => of_nine(word),
        10 => of_ten(word),
        11 => of_eleven(word),
        12 => of_twelve(word),
        14 => of_fourteen(word),
        16 => of_sixteen(word),
        18 => of_eighteen(word),
        21 => of_twenty_one(word),
        _ => Class::Name,
    }
}

fn of_two(word: &str) -> Class
    ensures { result ≡ class_in word.now (words_of 2) }
{
    if word == "md" {
        Class::Md
    } else if word == "pi" {
        Class::Pi
    } else {
        Class::Name
    }
}

fn of_three(word: &str) -> Class
    ensures { result ≡ class_in word.now (words_of 3) }
{
    if word == "sql" {
        Class::Sql
    } else {
        Class::Name
    }
}

fn of_four(word: &str) -> Class
    ensures { result ≡ class_in word.now (words_of 4) }
{
    if word == "from" {
        Class::From
    } else if word == "eval" {
        Class::Eval
    } else if word == "unit" {
        Class::Unit
    } else if word == "html" {
        Class::Html
    } else {
        Class::Name
    }
}

fn of_five(word: &str) -> Class
    ensures { result ≡ class_in word.now (words_of 5) }
{
    if word == "query" {
        Class::Query
    } else if word == "types" {
        Class::Types
    } else if word == "where" {
        Class::Where
    } else if word == "delta" {
        Class::Delta
    } else if word == "sigma" {
        Class::Sigma
    } else if word == "graph" {
        Class::Graph
    } else if word == "chase" {
        Class::Chase
    } else if word == "pivot" {
        Class::Pivot
    } else {
        Class::Name
    }
}

fn of_six(word: &str) -> Class
    ensures { result ≡ class_in word.now (words_of 6) }
{
    if word == "schema" {
        Class::Schema
    } else if word == "entity" {
        Class::Entity
    } else if word == "forall" {
        Class::Forall
    } else if word == "lambda" {
        Class::Lambda
    } else if word == "coeval" {
        Class::Coeval
    } else if word == "counit" {
        Class::Counit
    } else if word == "except" {
        Class::Except
    } else if word == "simple" {
        Class::Simple
    } else {
        Class::Name
    }
}

fn of_seven(word: &str) -> Class
    ensures { result ≡ class_in word.now (words_of 7) }
{
    if word == "mapping" {
        Class::Mapping
    } else if word == "options" {
        Class::Options
    } else if word == "imports" {
        Class::Imports
    } else if word == "literal" {
        Class::Literal
    } else if word == "pushout" {
        Class::Pushout
    } else if word == "compose" {
        Class::Compose
    } else if word == "command" {
        Class::Command
    } else if word == "colimit" {
        Class::Colimit
    } else {
        Class::Name
    }
}

fn of_eight(word: &str) -> Class
    ensures { result ≡ class_in word.now (words_of 8) }
{
    if word == "typeside" {
        Class::Typeside
    } else if word == "instance" {
        Class::Instance
    } else if word == "literals" {
        Class::Literals
    } else if word == "entities" {
        Class::Entities
    } else if word == "identity" {
        Class::Identity
    } else if word == "quotient" {
        Class::Quotient
    } else if word == "distinct" {
        Class::Distinct
    } else {
        Class::Name
    }
}

fn of_nine(word: &str) -> Class
    ensures { result ≡ class_in word.now (words_of 9) }
{
    if word == "transform" {
        Class::Transform
    } else if word == "constants" {
        Class::Constants
    } else if word == "functions" {
        Class::Functions
    } else if word == "equations" {
        Class::Equations
    } else if word == "coproduct" {
        Class::Coproduct
    } else if word == "getSchema" {
        Class::GetSchema
    } else if word == "anonymize" {
        Class::Anonymize
    } else {
        Class::Name
    }
}

fn of_ten(word: &str) -> Class
    ensures { result ≡ class_in word.now (words_of 10) }
{
    if word == "attributes" {
        Class::Attributes
    } else if word == "generators" {
        Class::Generators
    } else if word == "import_csv" {
        Class::ImportCsv
    } else if word == "getMapping" {
        Class::GetMapping
    } else if word == "of_mapping" {
        Class::OfMapping
    } else if word == "unit_query" {
        Class::UnitQuery
    } else if word == "coequalize" {
        Class::Coequalize
    } else {
        Class::Name
    }
}

fn of_eleven(word: &str) -> Class
    ensures { result ≡ class_in word.now (words_of 11) }
{
    if word == "import_csv2" {
        Class::ImportCsv2
    } else if word == "constraints" {
        Class::Constraints
    } else {
        Class::Name
    }
}

fn of_twelve(word: &str) -> Class
    ensures { result ≡ class_in word.now (words_of 12) }
{
    if word == "foreign_keys" {
        Class::ForeignKeys
    } else if word == "counit_query" {
        Class::CounitQuery
    } else {
        Class::Name
    }
}

fn of_fourteen(word: &str) -> Class
    ensures { result ≡ class_in word.now (words_of 14) }
{
    if word == "schema_colimit" {
        Class::SchemaColimit
    } else if word == "path_equations" {
        Class::PathEquations
    } else if word == "external_types" {
        Class::ExternalTypes
    } else {
        Class::Name
    }
}

fn of_sixteen(word: &str) -> Class
    ensures { result ≡ class_in word.now (words_of 16) }
{
    if word == "entity_equations" {
        Class::EntityEquations
    } else if word == "external_parsers" {
        Class::ExternalParsers
    } else {
        Class::Name
    }
}

fn of_eighteen(word: &str) -> Class
    ensures { result ≡ class_in word.now (words_of 18) }
{
    if word == "external_functions" {
        Class::ExternalFunctions
    } else {
        Class::Name
    }
}

fn of_twenty_one(word: &str) -> Class
    ensures { result ≡ class_in word.now (words_of 21) }
{
    if word == "observation_equations" {
        Class::ObservationEquations
    } else {
        Class::Name
    }
}
