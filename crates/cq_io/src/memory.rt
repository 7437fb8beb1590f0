//! A folder, a sink and exporters in memory, for tests. Each is told which of its calls fail.

ghost use Rattle.std.specs.Prelude.{◌≡◌, ◌++◌, ◌∷◌, [], ◌≤◌, ℕ, List, map, IfOk, OnOk, OnErr, IfErr, Some, vec_len};
ghost use Rattle.std.specs.Prelude.{vec_capacity, ◌↔◌, ◌-◌, IsTrue, IsOk, IsErrOf, IfSome, length, true, false};
ghost use Rattle.cq_io.specs.Counts.{Rose};
ghost use Rattle.cq_io.specs.Failing.{first_call, is_to_fail, after_call};
ghost use Rattle.cq_io.specs.Reads.{IsReadOf};
ghost use Rattle.cq_io.specs.Writes.{Appends, AppendsSome, FillsRoom};
ghost use Rattle.cq_io.specs.Content.{file_of, find_file};
ghost use Rattle.cq_io.specs.Failing.{is_empty, spare_room};
ghost use Rattle.std.specs.Option.{option_copied};

use crate::exporter::Exporter;
use crate::failing::Failing;
use crate::folder::Folder;
use crate::format::Format;
use crate::keep::keep;
use crate::listing::Listing;
use crate::overruns::Overruns;
use crate::refusal::{PutRefusal, ReadRefusal};
use crate::sink::{Failed, Sink};
use std::alloc::{AllocError, Global};

/// Files in memory. `failing` are the numbers, from 0, of the reads that fail.
#[derive(Drop)]
pub struct MemFolder {
    alloc: Global,
    files: Vec<(String, Vec<u8>)>,
    failing: Failing,
    faults: u64,
    absences: u64,
    overruns: Overruns,
}

impl MemFolder {
    /// These files; of two with one name the first counts.
    pub fn new(
        alloc: Global,
        files: Vec<(String, Vec<u8>)>,
        failing: Vec<u64>,
    ) -> Result<MemFolder, AllocError>
        ensures files { IfOk result (λ folder. (⟦<MemFolder as Folder>⟧.state folder).files
            ≡ Some (map file_of files.items)) }
        ensures steady { IfOk result (λ folder. (⟦<MemFolder as Folder>⟧.state folder).steady
            ≡ is_empty failing.items) }
        ensures faults { IfOk result (λ folder. (⟦<MemFolder as Folder>⟧.state folder).faults ≡ 0) }
        ensures calls { IfOk result (λ folder. folder.failing ≡ first_call failing) }
    {
        Ok(MemFolder {
            alloc,
            files,
            failing: Failing::new(failing),
            faults: 0,
            absences: 0,
            overruns: Overruns::new(),
        })
    }
}

impl Folder for MemFolder {
    ghost state = { λ s. record {
      files = Some (map file_of s.files.items);
      absences = s.absences;
      faults = s.faults;
      overruns = s.overruns.count;
      steady = is_empty s.failing.numbers.items;
    } };

    fn read(&mut self, name: &str, limit: u64) -> Result<Vec<u8>, ReadRefusal>
        ensures exact { IsErrOf result ReadRefusal.Failed ↔ IsTrue (is_to_fail self.old.failing) }
        ensures calls { self.new.failing ≡ after_call self.old.failing }

        // What each folder promises.
        ensures files { (⟦<MemFolder as Folder>⟧.state self.new).files
            ≡ (⟦<MemFolder as Folder>⟧.state self.old).files }
        ensures limit { IfOk result (λ bytes. vec_len bytes ≤ limit) }
        ensures told { IsReadOf name.now limit result (map file_of self.old.files.items) }
        ensures faults { self.old.faults ≤ self.new.faults }
        ensures absences { self.old.absences ≤ self.new.absences }
        ensures overruns { self.old.overruns.count ≤ self.new.overruns.count }
        ensures failed { IsErrOf result ReadRefusal.Failed → Rose self.old.faults self.new.faults }
        ensures steady { is_empty self.new.failing.numbers.items ≡ is_empty self.old.failing.numbers.items }
        ensures fails { IsErrOf result ReadRefusal.Failed → is_empty self.old.failing.numbers.items ≡ false }
        ensures calm { is_empty self.old.failing.numbers.items ≡ true → self.new.faults ≡ self.old.faults }
        ensures absent { IsErrOf result ReadRefusal.Absent → Rose self.old.absences self.new.absences }
        ensures too_long { IsErrOf result ReadRefusal.TooLong
            → Rose self.old.overruns.count self.new.overruns.count }
    {
        if self.failing.fails() {
            self.faults = self.faults.saturating_add(1);
            return Err(ReadRefusal::Failed);
        }
        let Some(bytes) = find(self.files.as_slice(), name) else {
            self.absences = self.absences.saturating_add(1);
            return Err(ReadRefusal::Absent);
        };
        if bytes.len() as u64 > limit {
            self.overruns.add(bytes, limit);
            return Err(ReadRefusal::TooLong);
        }
        match Vec::from_slice(self.alloc, bytes) {
            Ok(copy) => Ok(copy),
            Err(_) => Err(ReadRefusal::Memory),
        }
    }
}

impl Listing for MemFolder {
    ghost listed = { λ s. Some (map file_of s.files.items) };

    fn paths_beside(&self, _path: &str) -> Result<Vec<String>, AllocError> {
        let mut paths = Vec::new(self.alloc);
        for file in self.files.as_slice() {
            let path = String::from_str(self.alloc, file.0.as_str())?;
            paths.push(path)?;
        }
        Ok(paths)
    }
}

/// The bytes of the first file with this name.
fn find<'a>(files: &'a [(String, Vec<u8>)], name: &str) -> Option<&'a [u8]>
    ensures { option_copied result ≡ find_file name.now (map file_of files.now) }
{
    for file in files {
        if file.0.as_str() == name {
            return Some(file.1.as_slice());
        }
    }
    None
}

/// Bytes in memory, at most as many as there is room for. `failing` are the numbers, from 0, of the writes that fail.
#[derive(Drop)]
pub struct MemSink {
    held: Vec<u8>,
    room: usize,
    failing: Failing,
    faults: u64,
    ghost reserved: { room ≤ vec_capacity held },
}

impl MemSink {
    /// An empty sink that takes the memory for `room` bytes at once. A write past the room fails after it
    /// has appended what fits.
    pub fn new(alloc: Global, failing: Vec<u64>, room: u64) -> Result<MemSink, AllocError>
        ensures held { IfOk result (λ sink. ⟦<MemSink as Sink>⟧.held sink ≡ Some []) }
        ensures spare { IfOk result (λ sink. ⟦<MemSink as Sink>⟧.spare sink ≡ spare_room failing.items room []) }
        ensures faults { IfOk result (λ sink. ⟦<MemSink as Sink>⟧.faults sink ≡ 0) }
        ensures calls { IfOk result (λ sink. sink.failing ≡ first_call failing) }
        ensures room { IfOk result (λ sink. sink.room ≡ room) }
    {
        let room = room as usize;
        Ok(MemSink {
            held: Vec::with_capacity(alloc, room)?,
            room,
            failing: Failing::new(failing),
            faults: 0,
        })
    }

    /// What was written.
    pub fn bytes(&self) -> &[u8]
        ensures { ⟦<MemSink as Sink>⟧.held self.now ≡ Some result.now }
    {
        self.held.as_slice()
    }
}

impl Sink for MemSink {
    ghost held = { λ s. Some s.held.items };

    ghost spare = { λ s. spare_room s.failing.numbers.items s.room s.held.items };

    ghost faults = { λ s. s.faults };

    fn write_all(&mut self, bytes: &[u8]) -> Result<(), Failed>
        ensures exact { FillsRoom (is_to_fail self.old.failing) (self.old.room - vec_len self.old.held)
            self.old.held.items self.new.held.items bytes.now result }
        ensures room { self.new.room ≡ self.old.room }
        ensures calls { self.new.failing ≡ after_call self.old.failing }

        // What each sink promises.
        ensures ok { OnOk result (Appends (Some self.old.held.items) (Some self.new.held.items) bytes.now) }
        ensures err { OnErr result (AppendsSome (Some self.old.held.items) (Some self.new.held.items) bytes.now) }
        ensures later { self.old.faults ≤ self.new.faults }
        ensures spare { IfSome (spare_room self.old.failing.numbers.items self.old.room self.old.held.items)
            (λ room. length bytes.now ≤ room → IsOk result
            × (spare_room self.new.failing.numbers.items self.new.room self.new.held.items
            ≡ Some (room - length bytes.now)) × (self.new.faults ≡ self.old.faults)) }
        ensures failed { OnErr result (Rose self.old.faults self.new.faults) }
    {
        if self.failing.fails() {
            self.faults = self.faults.saturating_add(1);
            return Err(Failed);
        }
        let left = self.room.saturating_sub(self.held.len());
        let fits = bytes.len().min(left);
        self.held.extend_from_slice(&bytes[..fits]).unwrap();
        if fits < bytes.len() {
            self.faults = self.faults.saturating_add(1);
            return Err(Failed);
        }
        Ok(())
    }
}

/// Files of one format in memory. `failing` are the numbers, from 0, of the puts that fail.
#[derive(Drop)]
pub struct MemExporter {
    alloc: Global,
    format: Format,
    kept: Vec<(String, Vec<u8>)>,
    failing: Failing,
    faults: u64,
}

impl MemExporter {
    /// An exporter that took no file yet.
    pub fn new(alloc: Global, format: Format, failing: Vec<u64>) -> Result<MemExporter, AllocError>
        ensures account { IfOk result (λ exporter. ⟦<MemExporter as Exporter>⟧.account exporter
            ≡ record { format = format; held = []; steady = is_empty failing.items; faults = 0 }) }
        ensures calls { IfOk result (λ exporter. exporter.failing ≡ first_call failing) }
    {
        Ok(MemExporter {
            alloc,
            format,
            kept: Vec::new(alloc),
            failing: Failing::new(failing),
            faults: 0,
        })
    }
}

impl Exporter for MemExporter {
    ghost account = { λ s. record {
      format = s.format;
      held = map file_of s.kept.items;
      steady = is_empty s.failing.numbers.items;
      faults = s.faults;
    } };

    fn format(&self) -> Format {
        self.format
    }

    fn kept(&self) -> &[(String, Vec<u8>)] {
        self.kept.as_slice()
    }

    fn put(&mut self, name: &str, bytes: &[u8]) -> Result<(), PutRefusal>
        ensures exact { IsErrOf result PutRefusal.Failed ↔ IsTrue (is_to_fail self.old.failing) }
        ensures calls { self.new.failing ≡ after_call self.old.failing }

        // What each exporter promises.
        ensures format { self.new.format ≡ self.old.format }
        ensures ok { OnOk result (map file_of self.new.kept.items
            ≡ map file_of self.old.kept.items ++ (name.now, bytes.now) ∷ []) }
        ensures err { OnErr result (map file_of self.new.kept.items ≡ map file_of self.old.kept.items) }
        ensures later { self.old.faults ≤ self.new.faults }
        ensures failed { IsErrOf result PutRefusal.Failed → Rose self.old.faults self.new.faults }
        ensures memory { IsErrOf result PutRefusal.Memory → self.new.faults ≡ self.old.faults }
        ensures steady { is_empty self.new.failing.numbers.items ≡ is_empty self.old.failing.numbers.items }
        ensures fails { IsErrOf result PutRefusal.Failed → is_empty self.old.failing.numbers.items ≡ false }
        ensures calm { is_empty self.old.failing.numbers.items ≡ true → self.new.faults ≡ self.old.faults }
    {
        if self.failing.fails() {
            self.faults = self.faults.saturating_add(1);
            return Err(PutRefusal::Failed);
        }
        keep(self.alloc, &mut self.kept, name, bytes)
    }
}
