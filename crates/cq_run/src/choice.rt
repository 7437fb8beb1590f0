//! The exporters that a choice of format keeps.

ghost use Rattle.std.specs.Prelude.{◌≡◌, map, filter};
ghost use Rattle.cq_run.specs.Ask.{only_asked};
ghost use Rattle.cq_run.specs.Choice.{is_of, kept_by};
ghost use Rattle.cq_words.specs.Ask.{ask_of};

use cq_io::{Exporter, Format};
use cq_words::Request;

/// The one format in which instances are exported, if there is a choice.
pub fn only_of(request: Request<'_>) -> Option<Format>
    ensures { result ≡ only_asked (ask_of request.entry) }
{
    match request {
        Request::Run { only, .. } => only,
        Request::Example(_) => None,
        Request::Explain { .. } => None,
    }
}

/// Drops the exporters of the other format, where one is chosen. The others keep their order.
pub fn keep_format(exporters: &mut Vec<Box<dyn Exporter>>, only: Option<Format>)
    ensures { map account exporters.new.items ≡ kept_by only (map account exporters.old.items) }
{
    match only {
        Some(format) => keep_only(exporters, format),
        None => {}
    }
}

/// Drops the exporters that aren't of the format.
fn keep_only(exporters: &mut Vec<Box<dyn Exporter>>, format: Format)
    ensures { map account exporters.new.items ≡ filter (is_of format) (map account exporters.old.items) }
{
    let mut at = 0;
    while at < exporters.len() {
        if is_of(&exporters[at], format) {
            at += 1;
        } else {
            let _excluded = exporters.remove(at);
        }
    }
}

/// Whether an exporter is of a format.
fn is_of(exporter: &Box<dyn Exporter>, format: Format) -> bool
    ensures { result ≡ is_of format (account exporter.now) }
{
    match (format, exporter.format()) {
        (Format::Csv, Format::Csv) | (Format::Cql, Format::Cql) => true,
        _ => false,
    }
}
