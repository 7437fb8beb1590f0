//! Names.
ghost use Rattle.std.specs.Prelude.{◌≡◌, ◌<◌, ◌≤◌, ◌↔◌, IfOk, IfSome, length, nat_eq, []};
ghost use Rattle.std.specs.Hash as fed;
ghost use Rattle.std.specs.Cmp.Lexicographic.{pointwise, nat_list_eq_equiv, slice_cmp, nat_list_cmp_total, texts_ties};
ghost use Rattle.std.specs.Cmp.Lexicographic.{texts_po};
ghost use Rattle.std.specs.Ordering.{nat_cmp};
ghost use Rattle.std.specs.Prelude.{Some};
ghost use Rattle.std.proofs.Common.{refl};
ghost use Rattle.std.specs.Cmp.{partial_equiv_from_equiv};
ghost use Rattle.std.specs.Cmp.Rules.{hashing};
ghost use Rattle.std.proofs.Common.{rules};

use crate::hashing::Hashing;
use crate::refusal::NameRefusal;
use std::alloc::{AllocError, Global};
use std::cmp::Ordering;
use std::hash::{Hash, Hasher};
use std::marker::Model;
use std::rc::Rc;

/// The most bytes of a name.
pub const LONGEST: usize = 255;

/// A text of its own, or that of a whole file, with the key by which tables of its names hash.
#[derive(Drop)]
pub(crate) struct Text {
    pub(crate) bytes: Vec<u8>,
    pub(crate) key: u64,
}

/// A text of at most 255 bytes of UTF-8, which copies share. Contracts see it as its bytes.
#[derive(Drop)]
pub struct Name {
    // The name begins at `from`.
    shared: Rc<Text>,
    from: u32,
    len: u8,
}

impl Model for Name {
    ghost use Rattle.std.specs.Prelude.{ℕ, List, length, take, drop, ◌≤◌, ◌+◌};
    ghost use Rattle.std.specs.Str.{IsUtf8};

    ghost Value = { List ℕ };

    ghost view = { λ name. take name.len (drop name.from name.shared.value.bytes.items) };

    ghost invariant = { λ name. (name.from + name.len ≤ length name.shared.value.bytes.items)
        × IsUtf8 (take name.len (drop name.from name.shared.value.bytes.items)) };
}

impl Name {
    /// The name that this text is.
    pub fn new(alloc: Global, text: &str) -> Result<Name, NameRefusal>
        ensures ok { IfOk result (λ name. name ≡ text.now) }
        ensures long { (result ≡ Err NameRefusal.Long) ↔ (LONGEST < length text.now) }
    {
        Name::with_key(alloc, text, 0)
    }

    /// The name that this text is, for tables that hash by the key of another name, from which it was made.
    pub fn made_of(alloc: Global, other: &Name, text: &str) -> Result<Name, NameRefusal>
        ensures ok { IfOk result (λ name. name ≡ text.now) }
        ensures long { (result ≡ Err NameRefusal.Long) ↔ (LONGEST < length text.now) }
    {
        Name::with_key(alloc, text, other.shared.key)
    }

    /// The name that this text is, in memory of its own, for tables that hash by this key.
    pub(crate) fn with_key(alloc: Global, text: &str, key: u64) -> Result<Name, NameRefusal>
        ensures ok { IfOk result (λ name. name ≡ text.now) }
        ensures long { (result ≡ Err NameRefusal.Long) ↔ (LONGEST < length text.now) }
    {
        if text.len() > LONGEST {
            return Err(NameRefusal::Long);
        }
        let bytes = text.as_bytes().to_vec(alloc)?;
        let len = bytes.len() as u8;
        let shared = Rc::new(alloc, Text { bytes, key })?;
        Ok(Name {
            shared,
            from: 0,
            len,
        })
    }

    /// How tables of this name and others are to hash.
    pub fn hashing(&self) -> Hashing {
        Hashing::with_key(self.shared.key)
    }

    /// The key by which they hash.
    pub(crate) fn key(&self) -> u64 {
        self.shared.key
    }

    /// The name that this text is, in the memory of `shared`, if it stands there at `from`.
    pub(crate) fn standing_in(
        shared: &Rc<Text>,
        from: usize,
        text: &str,
    ) -> Result<Option<Name>, AllocError>
        requires { length text.now ≤ LONGEST }
        ensures { IfOk result (λ found. IfSome found (λ name. name ≡ text.now)) }
    {
        let bytes = text.as_bytes();
        let len = bytes.len();
        let Ok(start) = u32::try_from(from) else {
            return Ok(None);
        };
        match shared.bytes.as_slice().get(from..from + len) {
            Some(found) if found == bytes => Ok(Some(Name {
                shared: shared.clone()?,
                from: start,
                len: len as u8,
            })),
            _ => Ok(None),
        }
    }

    /// The empty name.
    pub fn empty(alloc: Global) -> Result<Name, AllocError>
        ensures { IfOk result (λ name. name ≡ []) }
    {
        Name::new(alloc, "").map_err(|_| AllocError)
    }

    /// The text of the name.
    pub fn as_str(&self) -> &str
        ensures text { result.now ≡ self.now }
        ensures short { length self.now ≤ LONGEST }
    {
        let from = self.from as usize;
        let bytes = &self.shared.bytes.as_slice()[from..from + self.len as usize];
        // The invariant of a name says that these bytes are UTF-8.
        unsafe { std::str::from_utf8_unchecked(bytes) }
    }
}

impl Clone for Name {
    ghost is_clone = { λ name copy. copy ≡ name };

    fn clone(&self) -> Result<Name, AllocError> {
        Ok(Name {
            shared: self.shared.clone()?,
            from: self.from,
            len: self.len,
        })
    }
}

impl PartialEq for Name {
    ghost eq = { pointwise nat_eq };

    ghost laws = { partial_equiv_from_equiv nat_list_eq_equiv };

    fn eq(&self, other: &Name) -> bool {
        self.as_str() == other.as_str()
    }
}

impl Eq for Name {
    ghost laws = { nat_list_eq_equiv };
}

impl Hash for Name {
    ghost hash_input = { λ name. fed.str name };

    ghost respects_eq = { Prim.search (hashing, rules) };

    fn hash<H: Hasher>(&self, state: &mut H) {
        self.as_str().hash(state);
    }
}

impl PartialOrd for Name {
    ghost partial_cmp = { λ x y. Some (slice_cmp nat_cmp x y) };

    ghost laws = { texts_po };

    fn partial_cmp(&self, other: &Name) -> Option<Ordering> {
        Some(self.cmp(other))
    }
}

impl Ord for Name {
    ghost cmp = { slice_cmp nat_cmp };

    ghost total = { nat_list_cmp_total };

    ghost matches_partial_cmp = { λ x y. refl };

    ghost matches_eq = { λ x y. texts_ties x y };

    fn cmp(&self, other: &Name) -> Ordering {
        self.as_str().cmp(other.as_str())
    }
}
