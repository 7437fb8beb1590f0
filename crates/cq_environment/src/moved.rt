//! By what an instance is declared that an operation makes of another one.
ghost use Rattle.std.specs.Prelude.{◌≡◌, IfOk};
ghost use Rattle.cq_syntax.specs.declared.program.Body.TheVariants.{Instance as Instanced};
ghost use Rattle.cq_environment.specs.Moves.{back, moved_of as declared_by, same_operation};

use cq_base::Name;
use cq_syntax::{Body, InstanceExp, Spot};
use std::alloc::AllocError;

/// An operation that moves instances: `Sigma` and `Delta` along a mapping, `Eval` and `Coeval` along a query.
#[derive(Clone, Copy)]
pub enum Operation {
    Sigma,
    Delta,
    Eval,
    Coeval,
}

impl Operation {
    /// The operation that goes the other way along the same mapping or query.
    pub fn back(self) -> Operation
        ensures { result ≡ back self }
    {
        match self {
            Operation::Sigma => Operation::Delta,
            Operation::Delta => Operation::Sigma,
            Operation::Eval => Operation::Coeval,
            Operation::Coeval => Operation::Eval,
        }
    }

    /// Whether this is the other operation.
    pub fn is(self, other: Operation) -> bool
        ensures { result ≡ same_operation self other }
    {
        match self {
            Operation::Sigma => matches!(other, Operation::Sigma),
            Operation::Delta => matches!(other, Operation::Delta),
            Operation::Eval => matches!(other, Operation::Eval),
            Operation::Coeval => matches!(other, Operation::Coeval),
        }
    }
}

/// By which operation an instance is declared, along which mapping or query, and of which instance, by declared names.
#[derive(Drop)]
pub struct Moved {
    pub operation: Operation,
    pub along: Name,
    pub operand: Name,
}

/// By what a body moves an instance, if it does.
pub fn moved_of(body: &Body) -> Result<Option<Moved>, AllocError>
    ensures { IfOk result (λ moved. moved ≡ declared_by body.now) }
{
    match body {
        Body::Instance(expression) => moved_of_instance(expression),
        _ => Ok(None),
    }
}

fn moved_of_instance(expression: &InstanceExp) -> Result<Option<Moved>, AllocError>
    ensures { IfOk result (λ moved. moved ≡ declared_by (Instanced expression.now)) }
{
    match expression {
        InstanceExp::Delta(along, used) => name_moved(Operation::Delta, along, used),
        InstanceExp::Sigma(along, used) => name_moved(Operation::Sigma, along, used),
        InstanceExp::Eval(along, used) => name_moved(Operation::Eval, along, used),
        InstanceExp::Coeval(along, used) => name_moved(Operation::Coeval, along, used),
        _ => Ok(None),
    }
}

fn name_moved(operation: Operation, along: &Spot, used: &Spot) -> Result<Option<Moved>, AllocError>
    ensures { IfOk result (λ moved. moved ≡ Some
        (record { operation = operation; along = along.now.name; operand = used.now.name })) }
{
    Ok(Some(Moved {
        operation,
        along: along.name.clone()?,
        operand: used.name.clone()?,
    }))
}
