//! Files that are to be handed over.

ghost use Rattle.std.specs.Prelude.{◌≡◌, map, []};
ghost use Rattle.cq_export.specs.Files.{files_in};
ghost use Rattle.cq_export.specs.Held.{files_held};
ghost use Rattle.cq_io.specs.Content.{file_of};

use cq_io::Format;
use std::alloc::Global;

/// The files of each format with their names, in the order in which they are handed over.
pub struct FileLists {
    pub csv: Vec<(String, Vec<u8>)>,
    pub cql: Vec<(String, Vec<u8>)>,
}

impl Drop for FileLists {
    fn drop(self) {
        let Self { csv: _, cql: _ } = self;
    }
}

impl FileLists {
    /// No files.
    pub fn new(alloc: Global) -> FileLists
        ensures { files_held result ≡ record { csv = []; cql = [] } }
    {
        FileLists {
            csv: Vec::new(alloc),
            cql: Vec::new(alloc),
        }
    }

    /// The files of a format.
    pub fn of(&self, format: Format) -> &[(String, Vec<u8>)]
        ensures { map file_of result.now ≡ files_in (files_held self.now) format }
    {
        match format {
            Format::Csv => self.csv.as_slice(),
            Format::Cql => self.cql.as_slice(),
        }
    }
}
