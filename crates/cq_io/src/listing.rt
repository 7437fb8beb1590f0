//! Which files stand where one was looked for.

ghost use Rattle.std.specs.Prelude.{◌≡◌, List, Option, map, string_bytes, IfOk, IfSome};
ghost use Rattle.cq_io.specs.Content.{File};

use std::alloc::AllocError;

/// A folder that tells which files it has.
pub trait Listing {
    ghost listed: { Self → Option (List File) };

    /// The paths of what stands in the folder of this path, in no order, each as `Folder::read` takes it; where the
    /// files are told, the paths of all. A folder that can't be read has none.
    fn paths_beside(&self, path: &str) -> Result<Vec<String>, AllocError>
        ensures { IfSome (listed self.now)
            (λ files. IfOk result (λ paths. map string_bytes paths.items ≡ map (λ file. file.0) files)) };
}
