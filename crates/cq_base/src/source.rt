//! The text of a file, in whose memory its names stand.
ghost use Rattle.std.specs.Prelude.{◌≡◌, ◌<◌, ◌↔◌, IfOk, length};

use crate::hashing::key_of;
use crate::name::{LONGEST, Name, Text};
use crate::refusal::NameRefusal;
use crate::shared::SharedTexts;
use std::alloc::{AllocError, Global};
use std::rc::Rc;

/// The bytes of a file. A name that is written in the file as it is stands in the file's memory, and takes none of its
/// own; the file is given back once no name of it is left. No clause says where a name stands, since it is the same
/// everywhere.
pub struct Source {
    text: Rc<Text>,
    others: SharedTexts,
}

impl Drop for Source {
    fn drop(self) {
        let Self { text: _, others: _ } = self;
    }
}

impl Source {
    /// The file of these bytes, which are copied.
    pub fn new(alloc: Global, bytes: &[u8]) -> Result<Source, AllocError> {
        let key = key_of(bytes);
        let bytes = bytes.to_vec(alloc)?;
        let text = Rc::new(alloc, Text { bytes, key }).map_err(|_| AllocError)?;
        Ok(Source {
            text,
            others: SharedTexts::with_key(alloc, key),
        })
    }

    /// The name that this text is, as `Name::new` makes it. A text that the file has where its last `rest` bytes begin
    /// stands in the file's memory. Any other, as one that is written with escapes, takes memory of its own, but equal
    /// ones the same.
    pub fn name(&mut self, rest: usize, text: &str) -> Result<Name, NameRefusal>
        ensures ok { IfOk result (λ name. name ≡ text.now) }
        ensures long { (result ≡ Err NameRefusal.Long) ↔ (LONGEST < length text.now) }
    {
        if text.len() > LONGEST {
            return Err(NameRefusal::Long);
        }
        let from = self.text.bytes.len().saturating_sub(rest);
        match Name::standing_in(&self.text, from, text)? {
            Some(name) => Ok(name),
            None => self.others.name(text),
        }
    }
}
