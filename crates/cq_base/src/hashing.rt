//! How keys that a file chooses are hashed.
use std::hash::{BuildHasher, DefaultHasher, Hasher};

/// How tables hash the names, texts and numbers of a file: by SipHash-1-3 (Aumasson and Bernstein, SipHash: a fast
/// short-input PRF, 2012), which is fed with a key first. The key is a hash of all that the table's keys come from: so
/// who looks for keys that hash alike changes the hash by each one that he puts in. No output depends on it.
#[derive(Clone, Copy)]
pub struct Hashing {
    initial: DefaultHasher,
}

impl Hashing {
    /// Without a key, for what no file chooses.
    pub fn new() -> Hashing {
        Hashing::with_key(0)
    }

    /// With the key of this text.
    pub fn of_text(text: &[u8]) -> Hashing {
        Hashing::with_key(key_of(text))
    }

    /// With the key that this hash of many things gives.
    pub fn of_state(state: &DefaultHasher) -> Hashing {
        Hashing::with_key(state.finish())
    }

    /// With this key.
    pub(crate) fn with_key(key: u64) -> Hashing {
        let mut initial = DefaultHasher::new();
        initial.write_u64(key);
        Hashing { initial }
    }
}

impl BuildHasher for Hashing {
    type Hasher = DefaultHasher;

    ghost build_hasher = { λ hashing. hashing.initial };

    fn build_hasher(&self) -> DefaultHasher {
        self.initial
    }
}

/// The key of a text.
pub(crate) fn key_of(text: &[u8]) -> u64 {
    let mut state = DefaultHasher::new();
    state.write(text);
    state.finish()
}
