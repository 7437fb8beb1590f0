//! Exporters that fail.

use cq_export::{FileLists, Handed, hand_over};
use cq_io::{Exporter, Format, MemExporter};
use std::alloc::Global;
use std::process::Abort;

fn file(rt: &impl Abort, alloc: Global, name: &str) -> (String, Vec<u8>) {
    let bytes = Vec::from_slice(alloc, name.as_bytes()).expect(rt, "memory");
    (String::from_str(alloc, name).expect(rt, "memory"), bytes)
}

/// Two files of one format and one of the other.
fn files(rt: &impl Abort, alloc: Global) -> FileLists {
    let mut files = FileLists::new(alloc);
    files
        .csv
        .push(file(rt, alloc, "I/E.csv"))
        .expect(rt, "memory");
    files
        .csv
        .push(file(rt, alloc, "I/F.csv"))
        .expect(rt, "memory");
    files
        .cql
        .push(file(rt, alloc, "I.cql"))
        .expect(rt, "memory");
    files
}

/// An exporter of a format, whose puts with these numbers fail.
fn exporter(rt: &impl Abort, alloc: Global, format: Format, failing: &[u64]) -> Box<dyn Exporter> {
    let failing = Vec::from_slice(alloc, failing).expect(rt, "memory");
    let made = MemExporter::new(alloc, format, failing).expect(rt, "memory");
    Box::new(alloc, made).expect(rt, "memory")
}

/// An exporter's format, and its puts that fail.
type Given = (Format, &'static [u64]);

fn exporters(rt: &impl Abort, alloc: Global, given: &[Given]) -> Vec<Box<dyn Exporter>> {
    let mut exporters = Vec::new(alloc);
    for (format, failing) in given {
        exporters
            .push(exporter(rt, alloc, *format, failing))
            .expect(rt, "memory");
    }
    exporters
}

/// Whether each exporter has so many files, in order, and no others are there.
fn hold(exporters: &[Box<dyn Exporter>], counts: &[usize]) -> bool {
    exporters.len() == counts.len()
        && exporters
            .iter()
            .zip(counts)
            .all(|(exporter, count)| exporter.kept().len() == *count)
}

/// Exporters, and those of them that were moved.
struct Parties {
    exporters: Vec<Box<dyn Exporter>>,
    spoiled: Vec<Box<dyn Exporter>>,
}

impl Drop for Parties {
    fn drop(self) {
        let Self {
            exporters: _,
            spoiled: _,
        } = self;
    }
}

impl Parties {
    /// How the files are handed over.
    fn take(&mut self, rt: &impl Abort, files: &FileLists) -> Handed {
        self.spoiled
            .reserve(self.exporters.len())
            .expect(rt, "memory");
        hand_over(&mut self.exporters, &mut self.spoiled, files)
    }

    /// Whether those that are left and those that were moved have so many files.
    fn hold(&self, left: &[usize], moved: &[usize]) -> bool {
        hold(self.exporters.as_slice(), left) && hold(self.spoiled.as_slice(), moved)
    }
}

/// What these exporters have once the files are handed over, which ends so.
fn handed(rt: &impl Abort, alloc: Global, given: &[Given], ended: Handed) -> Parties {
    let mut parties = Parties {
        exporters: exporters(rt, alloc, given),
        spoiled: Vec::new(alloc),
    };
    assert!(rt; parties.take(rt, &files(rt, alloc)) == ended);
    parties
}

/// The last exporter would fail at a third file.
static SOUND: [Given; 3] = [(Format::Csv, &[]), (Format::Cql, &[]), (Format::Csv, &[2])];

#[test]
fn each_exporter_takes_the_files_of_its_format(rt: HostRuntime) {
    let parties = handed(&rt, rt.alloc(), &SOUND, Handed::Whole);
    assert!(rt; parties.hold(&[2, 1, 2], &[]));
}

/// The first exporter fails at its second file, and the last one at its first.
static FAILING: [Given; 3] = [(Format::Csv, &[1]), (Format::Cql, &[]), (Format::Csv, &[0])];

#[test]
fn those_that_fail_are_moved(rt: HostRuntime) {
    let parties = handed(&rt, rt.alloc(), &FAILING, Handed::Spoiled);
    assert!(rt; parties.hold(&[1], &[1, 0]));
}
