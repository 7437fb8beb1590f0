//! Constants: declared ones, and texts.
ghost use Rattle.std.specs.Prelude.{◌≡◌};
ghost use Rattle.cq_theory.specs.Typeside.{is_reserved as reserved};
ghost use Rattle.cq_theory.specs.Constant.{same_con, con_cmp, con_equal, con_total, con_order, con_ties};
ghost use Rattle.std.specs.Prelude.{Some};
ghost use Rattle.std.proofs.Common.{refl};
ghost use Rattle.std.specs.Cmp.{partial_equiv_from_equiv};

use cq_base::Name;
use std::alloc::AllocError;
use std::cmp::Ordering;

/// A constant: a declared one by its number, or a text, which is a constant of the open type.
pub enum Con {
    Named(u32),
    Open(Name),
}

impl Drop for Con {
    fn drop(self) {
        match self {
            Self::Named(_) => (),
            Self::Open(_) => (),
        }
    }
}

/// Whether no constant can have this text: it is empty or begins with `?` or `=`.
pub fn is_reserved(text: &Name) -> bool
    ensures { result ≡ reserved text.now }
{
    match text.as_str().as_bytes().first() {
        Some(byte) => *byte == b'?' || *byte == b'=',
        None => true,
    }
}

impl Clone for Con {
    ghost is_clone = { λ constant copy. copy ≡ constant };

    fn clone(&self) -> Result<Con, AllocError> {
        match self {
            Con::Named(number) => Ok(Con::Named(*number)),
            Con::Open(text) => Ok(Con::Open(text.clone()?)),
        }
    }
}

impl PartialEq for Con {
    ghost eq = { same_con };

    ghost laws = { partial_equiv_from_equiv con_equal };

    fn eq(&self, other: &Con) -> bool {
        match self {
            Con::Named(number) => match other {
                Con::Named(second) => number == second,
                Con::Open(_) => false,
            },
            Con::Open(text) => match other {
                Con::Named(_) => false,
                Con::Open(second) => text == second,
            },
        }
    }
}

impl Eq for Con {
    ghost laws = { con_equal };
}

impl PartialOrd for Con {
    ghost partial_cmp = { λ c d. Some (con_cmp c d) };

    ghost laws = { con_order };

    fn partial_cmp(&self, other: &Con) -> Option<Ordering> {
        Some(self.cmp(other))
    }
}

impl Ord for Con {
    ghost cmp = { con_cmp };

    ghost total = { con_total };

    ghost matches_partial_cmp = { λ c d. refl };

    ghost matches_eq = { λ c d. con_ties c d };

    fn cmp(&self, other: &Con) -> Ordering {
        match self {
            Con::Named(number) => match other {
                Con::Named(second) => number.cmp(second),
                Con::Open(_) => Ordering::Less,
            },
            Con::Open(text) => match other {
                Con::Named(_) => Ordering::Greater,
                Con::Open(second) => text.cmp(second),
            },
        }
    }
}
