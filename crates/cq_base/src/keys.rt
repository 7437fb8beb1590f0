//! Keys of what comes from several files.
use crate::hashing::Hashing;
use crate::name::Name;
use std::hash::{DefaultHasher, Hasher};

/// Of what the key of a table is made whose own keys come from several files: the keys of these files' texts, as names
/// carry them. Each is fed where it isn't the one before, so names of one file cost next to nothing.
#[derive(Clone, Copy)]
pub struct Keys {
    state: DefaultHasher,
    last: u64,
}

impl Keys {
    pub fn new() -> Keys {
        Keys {
            state: DefaultHasher::new(),
            last: 0,
        }
    }

    /// Adds the key of the file from which a name comes.
    pub fn add(&mut self, name: &Name) {
        let key = name.key();
        if key != self.last {
            self.last = key;
            self.add_number(key);
        }
    }

    /// Adds a number that comes from no name.
    pub fn add_number(&mut self, number: u64) {
        self.state.write_u64(number);
    }

    /// How the table is to hash.
    pub fn hashing(&self) -> Hashing {
        Hashing::of_state(&self.state)
    }
}
