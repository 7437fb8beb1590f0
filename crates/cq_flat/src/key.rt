//! What a node is looked up by, and the table of nodes by their keys.
ghost use Rattle.std.specs.Prelude.{◌≡◌, ℕ, List, [], ◌∷◌, Some, IfOk, OnOk, nat_eq, if◌then◌else◌};
ghost use Rattle.std.specs.Cmp.Lexicographic.{pointwise, nat_list_eq_equiv};
ghost use Rattle.std.specs.Cmp.{partial_equiv_from_equiv};
ghost use Rattle.cq_flat.specs.Keys.{found};

use cq_base::{Hashing, Name};
use smallvec::SmallVec;
use std::alloc::{AllocError, Global};
use std::collections::HashMap;
use std::hash::{Hash, Hasher};
use std::marker::Model;

/// By which nodes are looked up: a list of numbers, or a text. Contracts see a list, whose first number tells which
/// of the two it is. The key of a constant, or of a function of one argument, needs no allocation.
#[derive(Drop)]
pub struct Key {
    content: Content,
}

#[derive(Drop)]
enum Content {
    Numbers(Numbers),
    Text(Name),
}

impl Model for Key {
    ghost use Rattle.std.specs.Prelude.{ℕ, List, ◌∷◌};
    ghost use Rattle.cq_flat.specs.declared.key.Content.TheVariants.{Numbers, Text};

    ghost Value = { List ℕ };

    ghost view = { λ key. elim key.content [ Numbers numbers ↦ 0 ∷ numbers | Text text ↦ 1 ∷ text ] };
}

impl Key {
    /// The key of these numbers.
    pub fn of_numbers(numbers: SmallVec<u64, 3>) -> Key
        ensures { result ≡ 0 ∷ numbers.items }
    {
        Key {
            content: Content::Numbers(Numbers { numbers }),
        }
    }

    /// The key of this text.
    pub fn of_text(text: Name) -> Key
        ensures { result ≡ 1 ∷ text }
    {
        Key {
            content: Content::Text(text),
        }
    }
}

/// A list of numbers.
#[derive(Drop)]
struct Numbers {
    numbers: SmallVec<u64, 3>,
}

impl Model for Numbers {
    ghost use Rattle.std.specs.Prelude.{ℕ, List};

    ghost Value = { List ℕ };

    ghost view = { λ list. list.numbers.items };
}

impl PartialEq for Numbers {
    ghost eq = { pointwise nat_eq };

    ghost laws = { partial_equiv_from_equiv nat_list_eq_equiv };

    fn eq(&self, other: &Numbers) -> bool {
        self.numbers.as_slice() == other.numbers.as_slice()
    }
}

impl Eq for Numbers {
    ghost laws = { nat_list_eq_equiv };
}

impl Hash for Numbers {
    ghost use Rattle.cq_flat.specs.Keys.{fed_numbers, fed_alike};

    ghost hash_input = { fed_numbers };

    ghost respects_eq = { fed_alike };

    fn hash<H: Hasher>(&self, state: &mut H) {
        self.numbers.as_slice().hash(state);
    }
}

/// A node for each key. Contracts see the pairs. Texts, of which there may be as many as nodes, have a table of their
/// own, where a key takes no more room than a text.
pub struct Table {
    numbers: HashMap<Numbers, u32, Hashing>,
    texts: HashMap<Name, u32, Hashing>,
    // How many texts there may be, as far as is known.
    most: usize,
}

impl Model for Table {
    ghost use Rattle.std.specs.Prelude.{ℕ, List, ◌++◌};
    ghost use Rattle.cq_flat.specs.Keys.{tagged};

    ghost Value = { List (List ℕ × ℕ) };

    ghost view = { λ table. tagged 0 table.numbers.entries ++ tagged 1 table.texts.entries };
}

impl Drop for Table {
    fn drop(self) {
        let Self {
            numbers: _,
            texts: _,
            most: _,
        } = self;
    }
}

impl Table {
    ghost use Rattle.cq_flat.specs.Keys.{found, same_key};

    /// No nodes. A table grows with its keys, of which there may be far fewer than nodes; `most` texts are expected
    /// at most.
    pub fn new(alloc: Global, hashing: Hashing, most: usize) -> Table
        ensures { result ≡ [] }
    {
        Table {
            numbers: HashMap::with_hasher(alloc, hashing),
            texts: HashMap::with_hasher(alloc, hashing),
            most,
        }
    }

    /// Puts a node at a key, and gives the node that was there.
    pub fn put(&mut self, key: Key, node: u32) -> Result<Option<u32>, AllocError>
        ensures earlier { IfOk result (λ earlier. earlier ≡ found self.old key) }
        ensures put { OnOk result ((q : List ℕ) → found self.new q
            ≡ (if same_key key q then Some node else found self.old q)) }
    {
        match key.content {
            Content::Numbers(numbers) => Ok(self.numbers.insert(numbers, node)?),
            Content::Text(text) => {
                make_room(&mut self.texts, self.most)?;
                Ok(self.texts.insert(text, node)?)
            }
        }
    }
}

// Where one in eight texts was another one, the rest are taken to be so too: room for all of them at once leaves fewer
// holes in the memory than a table that doubles.
fn make_room(texts: &mut HashMap<Name, u32, Hashing>, most: usize) -> Result<(), AllocError>
    ensures { OnOk result ((text : List ℕ) → found texts.new.entries text ≡ found texts.old.entries text) }
{
    if texts.len() == most / 8 {
        texts.reserve(most - texts.len())?;
    }
    Ok(())
}
