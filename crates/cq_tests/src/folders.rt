//! The working directory, standard output and folders of files.

use cq_io::{
    DirExporter, DirFolder, Exporter, Folder, Format, PutRefusal, ReadRefusal, Sink, StdSink,
};
use std::alloc::Global;
use std::fs;
use std::process::Abort;
use std::rt::Files;

/// Whether a read of at most so many bytes gives this.
pub(crate) fn reads<F: Folder>(
    folder: &mut F,
    name: &str,
    limit: u64,
    wanted: Result<&str, ReadRefusal>,
) -> bool {
    match (folder.read(name, limit), wanted) {
        (Ok(found), Ok(wanted)) => found.as_slice() == wanted.as_bytes(),
        (Err(found), Err(wanted)) => found == wanted,
        _ => false,
    }
}

/// Whether a file has this name and this content.
pub(crate) fn is_file(file: &(String, Vec<u8>), name: &str, content: &[u8]) -> bool {
    file.0.as_str() == name && file.1.as_slice() == content
}

/// A folder, and a file of five bytes beside it.
fn make_files<R: Abort + Files>(rt: &R) {
    fs::create_dir_all(rt, "out/read/folder").expect(rt, "a folder");
    fs::write(rt, "out/read/five", b"12345").expect(rt, "a file");
}

#[test]
fn the_working_directory_is_read_up_to_a_limit(rt: HostRuntime) {
    make_files(&rt);
    let mut folder = DirFolder::new(rt, rt.alloc());
    assert!(rt;
        reads(&mut folder, "out/read/five", 5, Ok("12345"))
            && reads(&mut folder, "out/read/five", 4, Err(ReadRefusal::TooLong))
            && reads(&mut folder, "out/read/none", 4, Err(ReadRefusal::Absent))
            && reads(&mut folder, "out/read/folder", 4, Err(ReadRefusal::Failed))
    );
}

#[test]
fn standard_output_takes_bytes(rt: HostRuntime) {
    let mut out = StdSink::new(rt);
    assert_eq!(rt; out.write_all(b"written\n"), Ok(()));
    assert_eq!(rt; out.write_all(b""), Ok(()));
}

/// Whether an exporter takes two files, and refuses one between them below the first, which is no folder.
fn takes<E: Exporter>(exporter: &mut E) -> bool {
    exporter.put("I/E.csv", b"id\n1\n") == Ok(())
        && exporter.put("I/E.csv/F.csv", b"id\n") == Err(PutRefusal::Failed)
        && exporter.put("J/E.csv", b"id\n") == Ok(())
        && exporter.kept().len() == 2
}

/// Whether a new exporter into the folder of exports takes its files.
fn exports<R: Abort + Files + Copy>(rt: R, alloc: Global) -> bool {
    let mut exporter = DirExporter::new(rt, alloc, Format::Csv, "out/exported/csv").expect(
        &rt, "memory",
    );
    takes(&mut exporter)
}

#[test]
fn exported_files_are_read_back(rt: HostRuntime) {
    assert!(rt; exports(rt, rt.alloc()));
    let mut folder = DirFolder::new(rt, rt.alloc());
    assert!(rt;
        reads(&mut folder, "out/exported/csv/I/E.csv", 100, Ok("id\n1\n"))
            && reads(&mut folder, "out/exported/csv/J/E.csv", 100, Ok("id\n"))
    );
}
