//! A file that isn't there, and the nearest of those that stand beside it.
use crate::texts::append_name;
use cq_base::{Name, NameRefusal};
use cq_io::Listing;
use cq_near::nearest;
use std::alloc::{AllocError, Global};

/// Appends the nearest of the paths beside this one, if one is near.
pub fn append_beside<F: Listing>(
    alloc: Global,
    file: &str,
    folder: &F,
    out: &mut Vec<u8>,
) -> Result<(), AllocError> {
    let paths = folder.paths_beside(file)?;
    append_nearest(alloc, file, paths.as_slice(), out)
}

/// Appends the nearest of some paths, if one is near.
fn append_nearest(
    alloc: Global,
    file: &str,
    paths: &[String],
    out: &mut Vec<u8>,
) -> Result<(), AllocError> {
    let names = names_of(alloc, paths)?;
    let found = match Name::new(alloc, file) {
        Ok(name) => nearest(alloc, &name, names.as_slice())?,
        Err(NameRefusal::Long) => None,
        Err(NameRefusal::Memory) => return Err(AllocError),
    };
    match found {
        Some(number) => append_meant(names.as_slice().get(number), out),
        None => Ok(()),
    }
}

/// The paths that are no longer than a name may be.
fn names_of(alloc: Global, paths: &[String]) -> Result<Vec<Name>, AllocError> {
    let mut names = Vec::new(alloc);
    for path in paths {
        match Name::new(alloc, path.as_str()) {
            Ok(name) => names.push(name)?,
            Err(NameRefusal::Long) => {}
            Err(NameRefusal::Memory) => return Err(AllocError),
        }
    }
    Ok(names)
}

/// Appends a name that may have been meant, if there is one.
pub fn append_meant(near: Option<&Name>, out: &mut Vec<u8>) -> Result<(), AllocError> {
    match near {
        Some(name) => {
            out.extend_from_slice(b"  Is ")?;
            append_name(name, out)?;
            out.extend_from_slice(b" meant?\n")?;
            Ok(())
        }
        None => Ok(()),
    }
}
