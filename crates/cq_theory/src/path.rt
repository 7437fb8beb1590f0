//! Paths of foreign keys.
ghost use Rattle.std.specs.Prelude.{◌≡◌, ◌++◌, [], length, IfOk};

use std::alloc::{AllocError, Global};
use std::marker::Model;
use std::rc::RcSlice;
use std::slice;

/// Nearly all terms follow no key or one. Those take no memory of their own, and copies of longer paths share it.
#[derive(Drop)]
enum Keys {
    Empty,
    One(u32),
    More(RcSlice<u32>),
}

/// The foreign keys that a term follows. Contracts see them as a list.
pub struct Path {
    keys: Keys,
}

impl Model for Path {
    ghost use Rattle.std.specs.Prelude.{ℕ, List};
    ghost use Rattle.cq_theory.specs.FollowedKeys.{followed_keys};

    ghost Value = { List ℕ };

    ghost view = { λ path. followed_keys path.keys };
}

impl Drop for Path {
    fn drop(self) {
        let Self { keys: _ } = self;
    }
}

impl Path {
    /// The path that follows no key.
    pub fn empty() -> Path
        ensures { result ≡ [] }
    {
        Path { keys: Keys::Empty }
    }

    /// The path of these keys.
    pub fn from_slice(alloc: Global, keys: &[u32]) -> Result<Path, AllocError>
        ensures { IfOk result (λ path. path ≡ keys.now) }
    {
        let keys = match keys {
            [] => Keys::Empty,
            [key] => Keys::One(*key),
            _ => Keys::More(RcSlice::from_slice(alloc, keys)?),
        };
        Ok(Path { keys })
    }

    /// The path of these keys, which takes no more memory where there is none or one.
    pub fn from_vec(keys: Vec<u32>) -> Result<Path, AllocError>
        ensures { IfOk result (λ path. path ≡ keys.items) }
    {
        let keys = match keys.as_slice() {
            [] => Keys::Empty,
            [key] => Keys::One(*key),
            _ => Keys::More(RcSlice::from_vec(keys)?),
        };
        Ok(Path { keys })
    }

    /// The keys.
    pub fn as_slice(&self) -> &[u32]
        ensures { result.now ≡ self.now }
    {
        match &self.keys {
            Keys::Empty => &[],
            Keys::One(key) => slice::from_ref(key),
            Keys::More(keys) => keys.as_slice(),
        }
    }

    /// How many keys there are.
    pub fn len(&self) -> usize
        ensures { result ≡ length self.now }
    {
        self.as_slice().len()
    }

    /// The path, and then these keys.
    pub fn followed_by(&self, alloc: Global, keys: &[u32]) -> Result<Path, AllocError>
        ensures { IfOk result (λ path. path ≡ self.now ++ keys.now) }
    {
        if keys.is_empty() {
            return self.clone();
        }
        if self.len() == 0 {
            return Path::from_slice(alloc, keys);
        }
        let mut all = Vec::from_slice(alloc, self.as_slice())?;
        all.extend_from_slice(keys)?;
        Path::from_vec(all)
    }
}

impl Clone for Path {
    ghost is_clone = { λ path copy. copy ≡ path };

    fn clone(&self) -> Result<Path, AllocError> {
        let keys = match &self.keys {
            Keys::Empty => Keys::Empty,
            Keys::One(key) => Keys::One(*key),
            Keys::More(keys) => Keys::More(keys.clone()?),
        };
        Ok(Path { keys })
    }
}
