//! Texts of any length.
ghost use Rattle.std.specs.Prelude.{◌≡◌, ◌<◌, IfOk, nat_lt, length, nat_eq};
ghost use Rattle.std.specs.Hash as fed;
ghost use Rattle.std.specs.Cmp.Lexicographic.{pointwise, nat_list_eq_equiv};
ghost use Rattle.std.specs.Cmp.{partial_equiv_from_equiv};
ghost use Rattle.std.specs.Cmp.Rules.{hashing};
ghost use Rattle.std.proofs.Common.{rules};
ghost use Rattle.cq_colimit.specs.Clashes.{joined_name};

use cq_base::name::LONGEST;
use cq_base::{Hashing, Name};
use std::alloc::{AllocError, Global};
use std::hash::{Hash, Hasher};
use std::marker::Model;

/// A joined name, which may be longer than a `Name`. Contracts see its bytes.
pub struct Text {
    text: String,
    // The name from which it was made, by the key of which tables hash.
    origin: Name,
}

impl Model for Text {
    ghost use Rattle.std.specs.Prelude.{ℕ, List, string_bytes};

    ghost Value = { List ℕ };

    ghost view = { λ t. string_bytes t.text };
}

impl Drop for Text {
    fn drop(self) {
        let Self { text: _, origin: _ } = self;
    }
}

impl Text {
    /// The joined name of a symbol of a part.
    pub(crate) fn join(alloc: Global, part: &Name, name: &Name) -> Result<Text, AllocError>
        ensures { IfOk result (λ made. made ≡ joined_name part.now name.now) }
    {
        let mut text = String::from_str(alloc, part.as_str())?;
        text.push_str("_")?;
        text.push_str(name.as_str())?;
        Ok(Text {
            text,
            origin: name.clone()?,
        })
    }

    /// The text of a name.
    pub(crate) fn of_name(alloc: Global, name: &Name) -> Result<Text, AllocError>
        ensures { IfOk result (λ made. made ≡ name.now) }
    {
        Ok(Text {
            text: String::from_str(alloc, name.as_str())?,
            origin: name.clone()?,
        })
    }

    /// The text.
    pub(crate) fn as_str(&self) -> &str
        ensures { result.now ≡ self.now }
    {
        self.text.as_str()
    }

    /// How tables of this text and others are to hash.
    pub(crate) fn hashing(&self) -> Hashing {
        self.origin.hashing()
    }

    /// Whether the text is too long for a name.
    pub(crate) fn is_long(&self) -> bool
        ensures { result ≡ nat_lt 255 (length self.now) }
    {
        self.text.len() > LONGEST
    }

    /// The name with this text.
    pub(crate) fn to_name(&self, alloc: Global) -> Result<Name, AllocError>
        ensures { IfOk result (λ name. name ≡ self.now) }
    {
        match Name::made_of(alloc, &self.origin, self.as_str()) {
            Ok(name) => Ok(name),
            Err(_) => Err(AllocError),
        }
    }
}

impl Clone for Text {
    ghost is_clone = { λ text copy. copy ≡ text };

    fn clone(&self) -> Result<Text, AllocError> {
        Ok(Text {
            text: self.text.clone()?,
            origin: self.origin.clone()?,
        })
    }
}

impl PartialEq for Text {
    ghost eq = { pointwise nat_eq };

    ghost laws = { partial_equiv_from_equiv nat_list_eq_equiv };

    fn eq(&self, other: &Text) -> bool {
        self.as_str() == other.as_str()
    }
}

impl Eq for Text {
    ghost laws = { nat_list_eq_equiv };
}

impl Hash for Text {
    ghost hash_input = { λ text. fed.str text };

    ghost respects_eq = { Prim.search (hashing, rules) };

    fn hash<H: Hasher>(&self, state: &mut H) {
        self.as_str().hash(state);
    }
}
