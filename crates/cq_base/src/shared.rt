//! Texts of which equal ones share their memory.
ghost use Rattle.std.specs.Prelude.{◌≡◌, ◌<◌, ◌↔◌, IfOk, length};
ghost use Rattle.std.proofs.Common.{ap};
ghost use Rattle.std.specs.Cmp.Lexicographic.{bytes_decides, nat_list_eq_equiv};
ghost use Rattle.std.specs.Hash as fed;
ghost use Rattle.std.specs.Str.{bytes_eq};

use crate::hashing::Hashing;
use crate::name::{LONGEST, Name};
use crate::refusal::NameRefusal;
use indexmap::{Equivalent, IndexSet};
use std::alloc::Global;

impl Equivalent<Name> for &str {
    ghost equivalent = { λ text name. bytes_eq text.now name };

    ghost respects_hash = { λ text name same. ap fed.str ((bytes_decides text.now name).0 same) };

    ghost respects_eq = { λ text x y. nat_list_eq_equiv.congr text.now x y };

    fn equivalent(&self, name: &Name) -> bool {
        *self == name.as_str()
    }
}

/// Texts that were made names, each of which stands once in memory. No clause says which they are, since a name is the
/// same whether it shares its memory or not.
pub struct SharedTexts {
    texts: IndexSet<Name, Hashing>,
    alloc: Global,
    key: u64,
}

impl Drop for SharedTexts {
    fn drop(self) {
        let Self {
            texts: _,
            alloc: _,
            key: _,
        } = self;
    }
}

impl SharedTexts {
    /// No texts.
    pub fn new(alloc: Global) -> SharedTexts {
        SharedTexts::with_key(alloc, 0)
    }

    /// No texts. Those that come are hashed by this key.
    pub(crate) fn with_key(alloc: Global, key: u64) -> SharedTexts {
        SharedTexts {
            texts: IndexSet::with_hasher(alloc, Hashing::with_key(key)),
            alloc,
            key,
        }
    }

    /// The name that this text is, as `Name::new` makes it. Names of equal texts share their memory.
    pub fn name(&mut self, text: &str) -> Result<Name, NameRefusal>
        ensures ok { IfOk result (λ name. name ≡ text.now) }
        ensures long { (result ≡ Err NameRefusal.Long) ↔ (LONGEST < length text.now) }
    {
        if text.len() > LONGEST {
            return Err(NameRefusal::Long);
        }
        if let Some(shared) = self.texts.get(text) {
            return Ok(shared.clone()?);
        }
        let name = Name::with_key(self.alloc, text, self.key)?;
        self.texts.insert(name.clone()?)?;
        Ok(name)
    }
}
