//! The sides of equations, and whether two sides are one term.
ghost use Rattle.std.specs.Prelude.{◌≡◌, ◌↔◌, ◌++◌, IsTrue};
ghost use Rattle.cq_theory.specs.Derivation.{left_of, right_of};
ghost use Rattle.cq_theory.specs.EntTerm.{extended};
ghost use Rattle.cq_theory.specs.declared.presentation.Equation.TheVariants.{Typ as TypEquation};
ghost use Rattle.cq_steps.specs.Sides.{term_of};

use cq_terms::{is_same_entity_term, is_same_type_term};
use cq_theory::{EntTerm, Equation, TypeTerm};

/// One side of an equation.
#[derive(Clone, Copy, Drop)]
pub enum Side<'a> {
    Ent(&'a EntTerm),
    Typ(&'a TypeTerm),
}

/// The left side.
pub(crate) fn left(equation: &Equation) -> Side<'_>
    ensures { term_of result ≡ left_of equation.now }
{
    match equation {
        Equation::Ent(term, _) => Side::Ent(term),
        Equation::Typ(term, _) => Side::Typ(term),
    }
}

/// The right side.
pub(crate) fn right(equation: &Equation) -> Side<'_>
    ensures { term_of result ≡ right_of equation.now }
{
    match equation {
        Equation::Ent(_, term) => Side::Ent(term),
        Equation::Typ(_, term) => Side::Typ(term),
    }
}

/// Whether both are the same term.
pub(crate) fn is_same(left: Side, right: Side) -> bool
    ensures { IsTrue result ↔ (term_of left.entry ≡ term_of right.entry) }
{
    match left {
        Side::Ent(term) => match right {
            Side::Ent(other) => is_same_entity_term(term, other),
            Side::Typ(_) => false,
        },
        Side::Typ(term) => match right {
            Side::Ent(_) => false,
            Side::Typ(other) => is_same_type_term(term, other),
        },
    }
}

/// Whether the equation has these sides.
pub(crate) fn has_sides(equation: &Equation, left: &TypeTerm, right: &TypeTerm) -> bool
    ensures { IsTrue result ↔ (equation.now ≡ TypEquation left.now right.now) }
{
    match equation {
        Equation::Ent(_, _) => false,
        Equation::Typ(first, second) => {
            is_same_type_term(first, left) && is_same_type_term(second, right)
        }
    }
}

/// Whether the term is `at`, and then each foreign key of the path.
pub(crate) fn is_extended(term: &EntTerm, at: &EntTerm, path: &[u32]) -> bool
    ensures { IsTrue result ↔ (term.now ≡ extended at.now path.now) }
{
    term.generator == at.generator && are_joined(term.path.as_slice(), at.path.as_slice(), path)
}

/// Whether the keys are the first ones and then the second ones.
fn are_joined(keys: &[u32], first: &[u32], second: &[u32]) -> bool
    ensures { IsTrue result ↔ (keys.now ≡ first.now ++ second.now) }
{
    match keys.strip_prefix(first) {
        Some(rest) => rest == second,
        None => false,
    }
}
