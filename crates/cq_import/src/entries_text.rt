//! Files of nulls and entries that were read.
ghost use Rattle.std.specs.Prelude.{◌≡◌, filter, length};
ghost use Rattle.cq_import.specs.Entries.{is_null};
ghost use Rattle.cq_import.specs.Rows.{rows_of};

/// The file of the nulls and the entries, with the number of its nulls.
pub struct EntriesFile {
    pub name: String,
    pub text: Vec<u8>,
    pub nulls: u32,
    ghost nulls_are: { nulls ≡ length (filter is_null (rows_of text.items)) },
}

impl Drop for EntriesFile {
    fn drop(self) {
        let Self {
            name: _,
            text: _,
            nulls: _,
        } = self;
    }
}
