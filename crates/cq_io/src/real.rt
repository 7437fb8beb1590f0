//! The real folder, sink and exporter: the working directory, standard output, and folders of files.

ghost use Rattle.std.specs.Prelude.{◌≡◌, ◌≤◌, ◌<◌, ◌++◌, [], ℕ, List, None, map, codes, string_bytes, IfOk, IsErrOf};
ghost use Rattle.std.specs.Prelude.{vec_len, Bool, IfSome, false};
ghost use Rattle.std.specs.declared.option.Option.{Option};
ghost use Rattle.cq_io.specs.Counts.{Rose};
ghost use Rattle.cq_io.specs.Content.{file_of, path_of};
ghost use Rattle.cq_io.specs.Reads.{IsReadUpTo};

use crate::exporter::Exporter;
use crate::folder::Folder;
use crate::format::Format;
use crate::keep::copy_of;
use crate::listing::Listing;
use crate::overruns::Overruns;
use crate::refusal::{PutRefusal, ReadRefusal};
use crate::sink::{Failed, Sink};
use std::alloc::{AllocError, Global};
use std::io::{ErrorKind, Read, Write};
use std::rt::Files;
use std::{fs, io};

/// The working directory. It tells no content. A name that isn't found is absent; every other
/// fault of the system, such as a folder under the name, is a failed read.
#[derive(Drop)]
pub struct DirFolder<R> {
    rt: R,
    alloc: Global,
    faults: u64,
    absences: u64,
    overruns: Overruns,
}

impl<R: Files> DirFolder<R> {
    /// The working directory, of which nothing was read yet.
    pub fn new(rt: R, alloc: Global) -> DirFolder<R>
        ensures faults { (⟦<DirFolder<R> as Folder>⟧.state result).faults ≡ 0 }
        ensures absences { (⟦<DirFolder<R> as Folder>⟧.state result).absences ≡ 0 }
        ensures overruns { (⟦<DirFolder<R> as Folder>⟧.state result).overruns ≡ 0 }
    {
        DirFolder {
            rt,
            alloc,
            faults: 0,
            absences: 0,
            overruns: Overruns::new(),
        }
    }
}

impl<R: Files> Folder for DirFolder<R> {
    ghost state = { λ s. record {
      files = None;
      absences = s.absences;
      faults = s.faults;
      overruns = s.overruns.count;
      steady = false;
    } };

    fn read(&mut self, name: &str, limit: u64) -> Result<Vec<u8>, ReadRefusal> {
        let answer = read_file(&self.rt, self.alloc, name, limit, &mut self.overruns);
        match answer {
            Err(ReadRefusal::Absent) => self.absences = self.absences.saturating_add(1),
            Err(ReadRefusal::Failed) => self.faults = self.faults.saturating_add(1),
            Ok(_) | Err(ReadRefusal::TooLong | ReadRefusal::Memory) => {}
        }
        answer
    }
}

impl<R: Files + Alloc + Clone + Drop> Listing for DirFolder<R> {
    ghost listed = { λ s. None };

    fn paths_beside(&self, path: &str) -> Result<Vec<String>, AllocError> {
        paths_in(&self.rt, self.alloc, folder_of(path))
    }
}

/// What of a path stands before its last name: nothing, or a folder and a slash.
fn folder_of(path: &str) -> &str {
    match path.rfind('/') {
        Some(slash) => path.get(..slash + 1).unwrap_or(""),
        None => "",
    }
}

/// The most paths of a folder that are told.
const MOST_LISTED: usize = 10000;

/// The paths of what stands in a folder, which is that of `folder_of`.
fn paths_in<R: Files + Alloc + Clone + Drop>(
    rt: &R,
    alloc: Global,
    folder: &str,
) -> Result<Vec<String>, AllocError> {
    let mut paths = Vec::new(alloc);
    let shown = if folder.is_empty() { "." } else { folder };
    let Ok(entries) = fs::read_dir(rt, shown) else {
        return Ok(paths);
    };
    for entry in entries.take(MOST_LISTED) {
        let Ok(entry) = entry else { continue };
        let mut path = String::from_str(alloc, folder)?;
        path.push_str(entry.file_name())?;
        paths.push(path)?;
    }
    Ok(paths)
}

/// The bytes of a file, at most `limit`. An overrun is counted.
fn read_file<R: Files>(
    rt: &R,
    alloc: Global,
    name: &str,
    limit: u64,
    overruns: &mut Overruns,
) -> Result<Vec<u8>, ReadRefusal>
    ensures limit { IfOk result (λ bytes. vec_len bytes ≤ limit) }
    ensures later { overruns.old.count ≤ overruns.new.count }
    ensures too_long { IsErrOf result ReadRefusal.TooLong → Rose overruns.old.count overruns.new.count }
{
    match fs::open(rt, name) {
        Ok(file) => read_up_to(alloc, file, limit, overruns),
        Err(error) if error.kind() == ErrorKind::NotFound => Err(ReadRefusal::Absent),
        Err(_) => Err(ReadRefusal::Failed),
    }
}

/// Reads to the end, and no more than one byte past the limit. A read that a signal interrupts is tried
/// again. Where the bytes of the source are told, Ok gives all of them, and TooLong comes only where they
/// are more than the limit. An overrun is counted.
fn read_up_to<S: Read + Drop>(
    alloc: Global,
    source: S,
    limit: u64,
    overruns: &mut Overruns,
) -> Result<Vec<u8>, ReadRefusal>
    ensures limit { IfOk result (λ bytes. vec_len bytes ≤ limit) }
    ensures told { IfSome (S.remaining source) (IsReadUpTo limit result) }
    ensures later { overruns.old.count ≤ overruns.new.count }
    ensures too_long { IsErrOf result ReadRefusal.TooLong → Rose overruns.old.count overruns.new.count }
{
    let mut bytes = Vec::new(alloc);
    let mut source = source.take(limit.saturating_add(1));
    match source.read_to_end(&mut bytes) {
        Ok(_) if bytes.len() as u64 <= limit => Ok(bytes),
        Ok(_) => {
            overruns.add(bytes.as_slice(), limit);
            Err(ReadRefusal::TooLong)
        }
        Err(error) if error.kind() == ErrorKind::OutOfMemory => Err(ReadRefusal::Memory),
        Err(_) => Err(ReadRefusal::Failed),
    }
}

/// Standard output. It tells no content.
#[derive(Drop)]
pub struct StdSink<R> {
    rt: R,
    faults: u64,
}

impl<R: Print> StdSink<R> {
    /// Standard output, to which nothing was written yet.
    pub fn new(rt: R) -> StdSink<R>
        ensures { ⟦<StdSink<R> as Sink>⟧.faults result ≡ 0 }
    {
        StdSink { rt, faults: 0 }
    }
}

impl<R: Print> Sink for StdSink<R> {
    ghost held = { λ _. None };

    ghost spare = { λ _. None };

    ghost faults = { λ s. s.faults };

    fn write_all(&mut self, bytes: &[u8]) -> Result<(), Failed> {
        match io::writer(&self.rt).write_all(bytes) {
            Ok(()) => Ok(()),
            Err(_) => {
                self.faults = self.faults.saturating_add(1);
                Err(Failed)
            }
        }
    }
}

/// A folder into which files are written. It keeps a copy of each file whose write succeeded, for which it
/// takes the memory before it writes; what the disk holds is not told.
#[derive(Drop)]
pub struct DirExporter<R> {
    rt: R,
    alloc: Global,
    format: Format,
    dir: String,
    kept: Vec<(String, Vec<u8>)>,
    faults: u64,
}

impl<R: Files + Drop> DirExporter<R> {
    /// An exporter that took no file yet, for files below the folder `dir`. An empty `dir` is the working directory.
    pub fn new(
        rt: R,
        alloc: Global,
        format: Format,
        dir: &str,
    ) -> Result<DirExporter<R>, AllocError>
        ensures { IfOk result (λ exporter. ⟦<DirExporter<R> as Exporter>⟧.account exporter
            ≡ record { format = format; held = []; steady = false; faults = 0 }) }
    {
        Ok(DirExporter {
            rt,
            alloc,
            format,
            dir: String::from_str(alloc, dir)?,
            kept: Vec::new(alloc),
            faults: 0,
        })
    }
}

impl<R: Files + Drop> Exporter for DirExporter<R> {
    ghost account = { λ s. record {
      format = s.format;
      held = map file_of s.kept.items;
      steady = false;
      faults = s.faults;
    } };

    fn format(&self) -> Format {
        self.format
    }

    fn kept(&self) -> &[(String, Vec<u8>)] {
        self.kept.as_slice()
    }

    /// Makes the folders that the file needs, and writes it; `Failed` where either fails.
    fn put(&mut self, name: &str, bytes: &[u8]) -> Result<(), PutRefusal> {
        let Ok(path) = path_in(self.alloc, self.dir.as_str(), name) else {
            return Err(PutRefusal::Memory);
        };
        let copy = copy_of(self.alloc, &mut self.kept, name, bytes)?;
        if write_file(&self.rt, path.as_str(), bytes).is_err() {
            self.faults = self.faults.saturating_add(1);
            return Err(PutRefusal::Failed);
        }
        self.kept.push(copy).unwrap();
        Ok(())
    }
}

/// The path of a file below a folder.
fn path_in(alloc: Global, dir: &str, name: &str) -> Result<String, AllocError>
    ensures { IfOk result (λ path. string_bytes path ≡ path_of dir.now name.now) }
{
    if dir.is_empty() {
        return String::from_str(alloc, name);
    }
    let mut path = String::from_str(alloc, dir)?;
    path.push_str("/")?;
    path.push_str(name)?;
    Ok(path)
}

/// Makes the folders that the file needs, and writes it.
fn write_file<R: Files>(rt: &R, path: &str, bytes: &[u8]) -> io::Result<()> {
    if let Some((folder, _)) = path.rsplit_once('/') {
        make_folder(rt, folder)?;
    }
    fs::write(rt, path, bytes)
}

/// Makes a folder and those above it, where they aren't there. It is tried again where a signal interrupts it, as
/// opening, reading and writing are.
fn make_folder<R: Files>(rt: &R, folder: &str) -> io::Result<()> {
    for _ in 0..u64::MAX {
        match fs::create_dir_all(rt, folder) {
            Err(error) if error.kind() == ErrorKind::Interrupted => {}
            answer => return answer,
        }
    }
    Err(io::Error::from(ErrorKind::Interrupted))
}
