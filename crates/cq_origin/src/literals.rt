//! The places of equations of literals.
ghost use Rattle.std.specs.Prelude.{◌≡◌, ◌+◌, length, map, option_copied, slice_get};
ghost use Rattle.std.specs.List.{flat_map};
ghost use Rattle.cq_parts.specs.Parts.{equation_place as place_of_equation, group_places, instance_places};
ghost use Rattle.cq_parts.specs.Parts.{path_eq_place};

use cq_base::Place;
use cq_syntax::{EqSyn, InstanceLit, SchemaLit};

/// The equation of an instance's literal that has this number.
fn equation_at(literal: &InstanceLit, number: u64) -> Option<&EqSyn>
    ensures { option_copied result ≡ slice_get literal.now.equations number }
{
    literal.equations.as_slice().get(number as usize)
}

/// The place of an equation of an instance's literal, by its number from 0: it stands behind the places of the
/// generators.
pub fn equation_place(literal: &InstanceLit, number: u64) -> Option<Place>
    ensures place { result ≡ slice_get (map place_of_equation literal.now.equations) number }
    ensures among { result ≡ slice_get (instance_places literal.now)
        (length (flat_map group_places literal.now.generators) + number) }
{
    match equation_at(literal, number) {
        Some(equation) => Some(equation.left.place),
        None => None,
    }
}

/// The place of a path equation of a schema's literal, by its number from 0.
pub fn path_equation_place(literal: &SchemaLit, number: u32) -> Option<Place>
    ensures place { result ≡ slice_get (map path_eq_place literal.now.path_eqs) number }
{
    let equation = literal.path_eqs.as_slice().get(number as usize)?;
    Some(equation.left.place)
}

/// The place of an observation equation of a schema's literal, by its number from 0.
pub fn observation_place(literal: &SchemaLit, number: u32) -> Option<Place>
    ensures place { result ≡ slice_get (map (λ e. e.place) literal.now.obs_eqs) number }
{
    let equation = literal.obs_eqs.as_slice().get(number as usize)?;
    Some(equation.place)
}
