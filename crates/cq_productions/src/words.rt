//! The words that are left out of the language, by the position in which they stand.
ghost use Rattle.std.specs.Prelude.{◌≡◌};
ghost use Rattle.cq_rules.specs.Rule.{Left, none_left};
ghost use Rattle.cq_syntax.specs.LeftOut.{head_words, operation_words, section_words, typeside_words};

use cq_rules::Class;

/// The words that are left out at one position.
pub trait Words {
    ghost words: { Left };

    /// The number of a word that is left out, and 0 for any other class.
    fn number(class: Class) -> u32
        ensures { result ≡ words class };
}

/// Where no word is left out.
pub struct NoWords;

impl Words for NoWords {
    ghost words = { none_left };

    fn number(_class: Class) -> u32 {
        0
    }
}

/// At the head of a declaration.
pub struct HeadWords;

impl Words for HeadWords {
    ghost words = { head_words };

    fn number(class: Class) -> u32 {
        match class {
            Class::Constraints => 1,
            Class::Command => 2,
            Class::Graph => 3,
            Class::Html => 4,
            Class::Md => 5,
            _ => 0,
        }
    }
}

/// At the head of an operation, behind the `=` of a declaration.
pub struct OperationWords;

impl Words for OperationWords {
    ghost words = { operation_words };

    fn number(class: Class) -> u32 {
        match class {
            Class::Chase => 6,
            Class::Pi => 7,
            Class::Except => 8,
            Class::Distinct => 9,
            Class::Anonymize => 10,
            Class::Pivot => 11,
            Class::Coequalize => 12,
            Class::Colimit => 13,
            Class::Simple => 14,
            Class::Sql => 15,
            _ => 0,
        }
    }
}

/// Where a section of a typeside may begin.
pub struct TypesideWords;

impl Words for TypesideWords {
    ghost words = { typeside_words };

    fn number(class: Class) -> u32 {
        match class {
            Class::Equations => 16,
            _ => 0,
        }
    }
}

/// Where a section or a closing brace may stand.
pub struct SectionWords;

impl Words for SectionWords {
    ghost words = { section_words };

    fn number(class: Class) -> u32 {
        match class {
            Class::ExternalTypes => 17,
            Class::ExternalParsers => 18,
            Class::ExternalFunctions => 19,
            Class::Imports => 20,
            _ => 0,
        }
    }
}
