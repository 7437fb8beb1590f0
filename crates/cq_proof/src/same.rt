//! Whether two equations are the same.
ghost use Rattle.std.specs.Prelude.{◌≡◌, ◌↔◌, IsTrue};

use cq_terms::{is_same_entity_term, is_same_type_term};
use cq_theory::Equation;

/// Whether both are the same equation.
pub(crate) fn is_same(left: &Equation, right: &Equation) -> bool
    ensures { IsTrue result ↔ (left.now ≡ right.now) }
{
    match left {
        Equation::Ent(first, second) => match right {
            Equation::Ent(third, fourth) => {
                is_same_entity_term(first, third) && is_same_entity_term(second, fourth)
            }
            Equation::Typ(_, _) => false,
        },
        Equation::Typ(first, second) => match right {
            Equation::Ent(_, _) => false,
            Equation::Typ(third, fourth) => {
                is_same_type_term(first, third) && is_same_type_term(second, fourth)
            }
        },
    }
}
