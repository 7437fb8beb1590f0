//! The sort of a generator, by name.
ghost use Rattle.std.specs.Prelude.{◌≡◌};
ghost use Rattle.cq_transform.specs.Images.{sort_in};

use cq_base::Name;
use cq_scope::Scope;
use cq_theory::Sort;

/// The sort of the generator with a name.
pub(crate) fn sort_of(scope: &Scope, name: &Name) -> Option<Sort>
    ensures { result ≡ sort_in scope.now name.now }
{
    match scope.names.find(name) {
        Some(number) => scope.sorts.as_slice().get(number as usize).copied(),
        None => None,
    }
}
