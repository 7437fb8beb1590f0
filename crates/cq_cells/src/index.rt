//! The tables of ids of the files of a folder.
ghost use Rattle.std.specs.Prelude.{◌≡◌, ◌≤◌, ◌<◌, MatchOption, map, sum};

use crate::ids::Places;
use cq_base::Hashing;
use cq_theory::MOST_GENERATORS;
use std::hash::{BuildHasher, DefaultHasher, Hasher};

/// The ids of a file, and how many records it has.
pub struct Indexed {
    pub places: Places,
    pub count: u32,
}

impl Drop for Indexed {
    fn drop(self) {
        let Self {
            places: _,
            count: _,
        } = self;
    }
}

/// How many records all files have; None where they are over 16,000,000.
pub fn find_total(indexed: &[Indexed]) -> Option<u32>
    ensures { MatchOption result (16000000 < sum (map (λ i. i.count) indexed.now))
        (λ total. (total ≡ sum (map (λ i. i.count) indexed.now)) × (total ≤ 16000000)) }
{
    let mut total = 0;
    for one in indexed {
        let count = one.count;
        if count > MOST_GENERATORS - total {
            return None;
        }
        total += count;
    }
    Some(total)
}

/// How a table of what stands in all of these files is to hash: by a key of them all, since one of them can be written
/// for the key of the others.
pub fn hashing_of(indexed: &[Indexed]) -> Hashing {
    let mut keys = DefaultHasher::new();
    for one in indexed {
        keys.write_u64(one.places.hashing().build_hasher().finish());
    }
    Hashing::of_state(&keys)
}
