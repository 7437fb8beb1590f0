//! The parts of a typeside.
ghost use Rattle.std.specs.Prelude.{◌≡◌, ◌+◌, ◌-◌, ◌<◌, ◌^◌, ◌⊎◌, ◌++◌, ◌∷◌, [], true, false, IfOk, IfErr, Some, None};
ghost use Rattle.std.specs.Prelude.{length, map, is_none};
ghost use Rattle.cq_base.specs.Names.{number_of};
ghost use Rattle.cq_theory.specs.TypesideParts.{literals_fault, literals_count, open_number, constant_fault};
ghost use Rattle.cq_theory.specs.TypesideParts.{function_fault, types_fault, constants_fault, functions_fault};
ghost use Rattle.cq_theory.specs.TypesideParts.{has_unknown_type, type_number, made_constant, made_function};

use crate::constant::is_reserved;
use crate::lookup::declares::declare;
use crate::refusal::TheoryRefusal;
use crate::typeside::Fun;
use cq_base::{Name, Names, Seq};
use std::alloc::Global;

/// The table of the types.
pub(crate) fn add_types(alloc: Global, parts: &[Name]) -> Result<Names, TheoryRefusal>
    requires { length parts.now < 2 ^ 32 }
    ensures ok { IfOk result (λ table. (types_fault parts.now ≡ None) × (table ≡ parts.now)) }
    ensures refused { IfErr result (λ refusal. (refusal ≡ TheoryRefusal.Memory)
        ⊎ (types_fault parts.now ≡ Some refusal)) }
{
    let mut table = Names::new(alloc);
    let mut part = 0;
    for name in parts {
        declare(&mut table, part, name)?;
        part += 1;
    }
    Ok(table)
}

/// The open type, whose name is part `part` where there is one, and the number of the part that comes next.
pub(crate) fn find_open_type(
    types: &Names,
    part: u32,
    literals: &Option<Name>,
) -> Result<(Option<u32>, u32), TheoryRefusal>
    requires { part + literals_count literals.now < 2 ^ 32 }
    ensures ok { IfOk result (λ found. (literals_fault types.now part literals.now ≡ None)
        × (found.0 ≡ open_number types.now literals.now) × (found.1 ≡ part + literals_count literals.now)) }
    ensures refused { IfErr result (λ refusal. literals_fault types.now part literals.now ≡ Some refusal) }
{
    match literals {
        Some(name) => match types.find(name) {
            Some(number) => Ok((Some(number), part + 1)),
            None => Err(TheoryRefusal::Unknown(part)),
        },
        None => Ok((None, part)),
    }
}

/// The type of the constant that a part declares.
fn add_constant(
    types: &Names,
    table: &mut Names,
    part: u32,
    constant: &(Name, Name),
) -> Result<(Name, u32), TheoryRefusal>
    requires { length table.old < 2 ^ 32 - 1 }
    ensures ok { IfOk result (λ made. (constant_fault types.now table.old part constant.now ≡ None)
        × (table.new ≡ table.old ++ constant.now.0 ∷ []) × (made ≡ made_constant types.now constant.now)) }
    ensures refused { IfErr result (λ refusal. (refusal ≡ TheoryRefusal.Memory)
        ⊎ (constant_fault types.now table.old part constant.now ≡ Some refusal)) }
{
    declare(table, part, &constant.0)?;
    let Some(number) = types.find(&constant.1) else {
        return Err(TheoryRefusal::Unknown(part));
    };
    if is_reserved(&constant.0) {
        return Err(TheoryRefusal::Reserved(part));
    }
    let name = constant.0.clone()?;
    Ok((name, number))
}

/// The constants, the first of which is part `first`, and the table of their names.
pub(crate) fn add_constants(
    alloc: Global,
    types: &Names,
    first: u32,
    parts: &[(Name, Name)],
) -> Result<(Names, Vec<(Name, u32)>), TheoryRefusal>
    requires { first + length parts.now < 2 ^ 32 }
    ensures accepted { IfOk result (λ _. constants_fault types.now first parts.now ≡ None) }
    ensures made { IfOk result (λ made. (made.0 ≡ map (λ part. part.0) parts.now)
        × (made.1.items ≡ map (made_constant types.now) parts.now)) }
    ensures refused { IfErr result (λ refusal. (refusal ≡ TheoryRefusal.Memory)
        ⊎ (constants_fault types.now first parts.now ≡ Some refusal)) }
{
    let mut table = Names::new(alloc);
    let mut constants = Vec::new(alloc);
    let mut part = first;
    for constant in parts {
        let made = add_constant(types, &mut table, part, constant)?;
        constants.push(made)?;
        part += 1;
    }
    Ok((table, constants))
}

/// The numbers of types by their names.
fn find_types(
    alloc: Global,
    types: &Names,
    part: u32,
    names: &[Name],
) -> Result<Vec<u32>, TheoryRefusal>
    ensures ok { IfOk result (λ found. (has_unknown_type types.now names.now ≡ false)
        × (found.items ≡ map (type_number types.now) names.now)) }
    ensures refused { IfErr result (λ refusal. (refusal ≡ TheoryRefusal.Memory)
        ⊎ ((refusal ≡ TheoryRefusal.Unknown part) × (has_unknown_type types.now names.now ≡ true))) }
{
    let mut found = Vec::new(alloc);
    for name in names {
        let Some(number) = types.find(name) else {
            return Err(TheoryRefusal::Unknown(part));
        };
        found.push(number)?;
    }
    Ok(found)
}

/// The function that a part declares.
fn add_function(
    alloc: Global,
    types: &Names,
    table: &mut Names,
    part: u32,
    function: &(Name, Seq<Name>, Name),
) -> Result<Fun, TheoryRefusal>
    requires { length table.old < 2 ^ 32 - 1 }
    ensures ok { IfOk result (λ made. (function_fault types.now table.old part function.now ≡ None)
        × (table.new ≡ table.old ++ function.now.0 ∷ []) × (made ≡ made_function types.now function.now)) }
    ensures refused { IfErr result (λ refusal. (refusal ≡ TheoryRefusal.Memory)
        ⊎ (function_fault types.now table.old part function.now ≡ Some refusal)) }
{
    declare(table, part, &function.0)?;
    let args = find_types(alloc, types, part, function.1.as_slice())?;
    let Some(result) = types.find(&function.2) else {
        return Err(TheoryRefusal::Unknown(part));
    };
    let name = function.0.clone()?;
    Ok(Fun {
        name,
        args: Seq::from_vec(args),
        result,
    })
}

/// The functions, the first of which is part `first`, and the table of their names.
pub(crate) fn add_functions(
    alloc: Global,
    types: &Names,
    first: u32,
    parts: &[(Name, Seq<Name>, Name)],
) -> Result<(Names, Vec<Fun>), TheoryRefusal>
    requires { first + length parts.now < 2 ^ 32 }
    ensures accepted { IfOk result (λ _. functions_fault types.now first parts.now ≡ None) }
    ensures made { IfOk result (λ made. (made.0 ≡ map (λ part. part.0) parts.now)
        × (made.1.items ≡ map (made_function types.now) parts.now)) }
    ensures refused { IfErr result (λ refusal. (refusal ≡ TheoryRefusal.Memory)
        ⊎ (functions_fault types.now first parts.now ≡ Some refusal)) }
{
    let mut table = Names::new(alloc);
    let mut functions = Vec::new(alloc);
    let mut part = first;
    for function in parts {
        let made = add_function(alloc, types, &mut table, part, function)?;
        functions.push(made)?;
        part += 1;
    }
    Ok((table, functions))
}
