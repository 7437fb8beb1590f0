//! Typesides: types, constants and functions.
ghost use Rattle.std.specs.Prelude.{◌≡◌, ◌+◌, ◌<◌, ◌^◌, ◌⊎◌, length, slice_get, option_map, IfOk, IfErr, Some, None};
ghost use Rattle.cq_theory.specs.ValueText.{constant_name};
ghost use Rattle.cq_theory.specs.TypesideParts.{typeside_fault, typeside_made, literals_count};
ghost use Rattle.cq_base.specs.Names.{number_of};
ghost use Rattle.cq_theory.specs.Typeside.{IsTypeside, constant_names, function_names, constant_type};

use crate::constant::{Con, is_reserved};
use crate::lookup::typeside_parts::{add_constants, add_functions, add_types, find_open_type};
use crate::parts::TypesideParts;
use crate::refusal::TheoryRefusal;
use cq_base::{Name, Names, Seq};
use std::alloc::Global;
use std::marker::Model;

/// A function from types to a type.
#[derive(Drop)]
pub struct Fun {
    pub name: Name,
    pub args: Seq<u32>,
    pub result: u32,
}

/// Types, constants with their types, and functions, all free, and at most one open type, of which every text is a
/// constant. Contracts see these four, which are well sorted, and in whose lists no name stands twice.
pub struct Typeside {
    pub types: Seq<Name>,
    pub constants: Seq<(Name, u32)>,
    pub functions: Seq<Fun>,
    pub open_type: Option<u32>,
    type_table: Names,
    constant_table: Names,
    function_table: Names,
}

impl Model for Typeside {
    ghost use Rattle.std.specs.Prelude.{◌≡◌};
    ghost use Rattle.cq_theory.specs.TypesideData.{TypesideData};

    ghost Value = { TypesideData };

    ghost use Rattle.cq_theory.specs.Typeside.{IsTypeside, constant_names, function_names};

    ghost view = { λ t. record {
      types = t.types;
      constants = t.constants;
      functions = t.functions;
      open_type = t.open_type;
    } };

    // Each table has the names of its list.
    ghost invariant = { λ t.
        let typeside : TypesideData =
        record { types = t.types; constants = t.constants; functions = t.functions; open_type = t.open_type } in
        IsTypeside typeside
        × (t.type_table ≡ t.types)
        × (t.constant_table ≡ constant_names typeside)
        × (t.function_table ≡ function_names typeside) };
}

impl Drop for Typeside {
    fn drop(self) {
        let Self {
            types: _,
            constants: _,
            functions: _,
            open_type: _,
            type_table: _,
            constant_table: _,
            function_table: _,
        } = self;
    }
}

impl Typeside {
    /// The typeside that the parts give. Where parts break rules, the answer is the first such part with the least
    /// rule that it breaks, or want of memory.
    pub fn new(alloc: Global, parts: TypesideParts) -> Result<Typeside, TheoryRefusal>
        requires { length parts.types + literals_count parts.literals + length parts.constants + length
            parts.functions < 2 ^ 32 }
        ensures accepted { IfOk result (λ _. typeside_fault parts ≡ None) }
        ensures made { IfOk result (λ made. made ≡ typeside_made parts) }
        ensures refused { IfErr result (λ refusal. (refusal ≡ TheoryRefusal.Memory)
            ⊎ (typeside_fault parts ≡ Some refusal)) }
    {
        let TypesideParts {
            types,
            literals,
            constants,
            functions,
        } = parts;
        let type_table = add_types(alloc, types.as_slice())?;
        let (open_type, first_constant) = find_open_type(
            &type_table,
            types.len() as u32,
            &literals,
        )?;
        let first_function = first_constant + constants.len() as u32;
        let (constant_table, constants) = add_constants(
            alloc,
            &type_table,
            first_constant,
            constants.as_slice(),
        )?;
        match add_functions(alloc, &type_table, first_function, functions.as_slice()) {
            Ok((function_table, functions)) => Ok(Typeside {
                types,
                constants: Seq::from_vec(constants),
                functions: Seq::from_vec(functions),
                open_type,
                type_table,
                constant_table,
                function_table,
            }),
            Err(refusal) => Err(refusal),
        }
    }

    /// Every typeside is well sorted. The call does nothing.
    pub fn is_well_sorted(&self)
        ensures { IsTypeside self.now }
    {
        let _types = self.types.len();
    }

    /// The number of a type.
    pub fn find_type(&self, name: &Name) -> Option<u32>
        ensures { result ≡ number_of self.now.types name.now }
    {
        self.type_table.find(name)
    }

    /// The number of a declared constant.
    pub fn find_constant(&self, name: &Name) -> Option<u32>
        ensures { result ≡ number_of (constant_names self.now) name.now }
    {
        self.constant_table.find(name)
    }

    /// The name of a declared constant.
    pub fn name_of_constant(&self, constant: u32) -> &Name
        requires { constant < length self.now.constants }
        ensures { result.now ≡ constant_name (slice_get self.now.constants constant) }
    {
        &self.constants.as_slice()[constant as usize].0
    }

    /// The type of a constant. A text has the open type, unless it is reserved or a declared constant has it.
    pub fn type_of_constant(&self, constant: &Con) -> Option<u32>
        ensures { result ≡ constant_type self.now constant.now }
    {
        match constant {
            Con::Named(number) => self.type_of_declared(*number),
            Con::Open(text) => {
                if is_reserved(text) || self.constant_table.find(text).is_some() {
                    None
                } else {
                    self.open_type
                }
            }
        }
    }

    /// The type of a declared constant.
    fn type_of_declared(&self, number: u32) -> Option<u32>
        ensures { result ≡ option_map (λ constant. constant.1) (slice_get self.now.constants number) }
    {
        match self.constants.as_slice().get(number as usize) {
            Some(constant) => Some(constant.1),
            None => None,
        }
    }

    /// The number of a function.
    pub fn find_function(&self, name: &Name) -> Option<u32>
        ensures { result ≡ number_of (function_names self.now) name.now }
    {
        self.function_table.find(name)
    }
}
