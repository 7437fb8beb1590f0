//! Files of entities that were read.
ghost use Rattle.std.specs.Prelude.{◌≡◌};
ghost use Rattle.cq_import.specs.Rows.{ids_of, rows_of};

use crate::ids::Ids;
use cq_base::Hashing;
use std::hash::{BuildHasher, DefaultHasher, Hasher};

/// A file of an entity, with the ids of its records.
pub struct EntityFile {
    pub name: String,
    pub text: Vec<u8>,
    pub ids: Ids,
    ghost ids_are: { ids ≡ ids_of (rows_of text.items) },
}

impl Drop for EntityFile {
    fn drop(self) {
        let Self {
            name: _,
            text: _,
            ids: _,
        } = self;
    }
}

/// How a table of what stands in all of these files is to hash: by a key of them all, since one of them can be written
/// for the key of the others.
pub fn hashing_of(files: &[EntityFile]) -> Hashing {
    let mut keys = DefaultHasher::new();
    for file in files {
        keys.write_u64(file.ids.hashing().build_hasher().finish());
    }
    Hashing::of_state(&keys)
}
