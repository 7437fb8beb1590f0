//! A folder, a sink and an exporter in memory.

use crate::folders::{is_file, reads};
use cq_io::{
    Exporter, Failed, Format, MemExporter, MemFolder, MemSink, PutRefusal, ReadRefusal, Sink,
};
use std::alloc::Global;
use std::process::Abort;

/// A file of this content under the one name.
fn file(rt: &impl Abort, alloc: Global, content: &str) -> (String, Vec<u8>) {
    let name = String::from_str(alloc, "name").expect(rt, "memory");
    let bytes = Vec::from_slice(alloc, content.as_bytes()).expect(rt, "memory");
    (name, bytes)
}

/// The number of the second call, in a list.
fn second(rt: &impl Abort, alloc: Global) -> Vec<u64> {
    Vec::from_slice(alloc, &[1]).expect(rt, "memory")
}

/// Two files of one name, in a folder whose second read fails.
fn folder(rt: &impl Abort, alloc: Global) -> MemFolder {
    let mut files = Vec::new(alloc);
    for content in ["first", "second"] {
        files.push(file(rt, alloc, content)).expect(rt, "memory");
    }
    MemFolder::new(alloc, files, second(rt, alloc)).expect(rt, "memory")
}

#[test]
fn reads_fail_where_they_are_told_to(rt: HostRuntime) {
    let mut folder = folder(&rt, rt.alloc());
    assert!(rt;
        reads(&mut folder, "name", 5, Ok("first"))
            && reads(&mut folder, "name", 5, Err(ReadRefusal::Failed))
            && reads(&mut folder, "name", 4, Err(ReadRefusal::TooLong))
            && reads(&mut folder, "other", 4, Err(ReadRefusal::Absent))
    );
}

/// A sink with room for four bytes, whose second write fails.
fn sink(rt: &impl Abort, alloc: Global) -> MemSink {
    MemSink::new(alloc, second(rt, alloc), 4).expect(rt, "memory")
}

/// Whether it takes the other writes, as far as there is room.
fn writes(sink: &mut MemSink) -> bool {
    sink.write_all(b"ab") == Ok(())
        && sink.write_all(b"cd") == Err(Failed)
        && sink.write_all(b"efg") == Err(Failed)
        && sink.bytes() == b"abef".as_slice()
}

#[test]
fn writes_fail_where_they_are_told_to(rt: HostRuntime) {
    let mut sink = sink(&rt, rt.alloc());
    assert!(rt; writes(&mut sink));
}

/// An exporter of literals, whose second put fails.
fn exporter(rt: &impl Abort, alloc: Global) -> MemExporter {
    MemExporter::new(alloc, Format::Cql, second(rt, alloc)).expect(rt, "memory")
}

/// Whether it refuses that put alone.
fn puts(exporter: &mut MemExporter) -> bool {
    exporter.put("I.cql", b"first") == Ok(())
        && exporter.put("J.cql", b"lost") == Err(PutRefusal::Failed)
        && exporter.put("K.cql", b"") == Ok(())
        && exporter.format() == Format::Cql
}

/// Whether these are the files that it takes.
fn are_taken(kept: &[(String, Vec<u8>)]) -> bool {
    match kept {
        [first, last] => is_file(first, "I.cql", b"first") && is_file(last, "K.cql", b""),
        _ => false,
    }
}

#[test]
fn an_exporter_keeps_what_it_takes(rt: HostRuntime) {
    let mut exporter = exporter(&rt, rt.alloc());
    assert!(rt; puts(&mut exporter) && are_taken(exporter.kept()));
}
