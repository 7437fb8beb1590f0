//! The lines of nulls and of entries.
ghost use Rattle.std.specs.Prelude.{◌≡◌, ◌++◌, ◌<◌, All, OnOk, length, slice_index};
ghost use Rattle.std.specs.List.{flat_map};
ghost use Rattle.cq_theory.specs.Canonical.{below};
ghost use Rattle.cq_text.specs.Transcript.{null_line, null_lines, entry_line, entry_lines, IsNamedEntry};

use crate::pieces::{push_entry_line, push_heading, push_null_line};
use cq_instance::Instance;
use cq_theory::{Entry, Typeside};
use std::alloc::AllocError;

/// Appends how many nulls there are, and the line of each.
pub fn push_nulls(instance: &Instance, text: &mut Vec<u8>) -> Result<(), AllocError>
    ensures { OnOk result (text.new.items ≡ text.old.items ++ null_lines instance.now) }
{
    let sorts = instance.algebra().nulls.as_slice();
    push_heading(b"nulls", sorts.len() as u64, text)?;
    push_null_lines(&instance.schema().typeside, sorts, text)?;
    Ok(())
}

fn push_null_lines(typeside: &Typeside, sorts: &[u32], text: &mut Vec<u8>) -> Result<(), AllocError>
    requires { All (λ sort. sort < length typeside.now.types) sorts.now }
    ensures { OnOk result (text.new.items ≡ text.old.items
        ++ flat_map (λ label. null_line typeside.now label (slice_index sorts.now label)) (below (length sorts.now))) }
{
    for label in 0..sorts.len() {
        push_null_line(typeside, label as u64, sorts[label], text)?;
    }
    Ok(())
}

/// Appends how many entries there are, and the line of each.
pub fn push_entries(instance: &Instance, text: &mut Vec<u8>) -> Result<(), AllocError>
    ensures { OnOk result (text.new.items ≡ text.old.items ++ entry_lines instance.now) }
{
    let entries = instance.algebra().entries.as_slice();
    push_heading(b"entries", entries.len() as u64, text)?;
    push_entry_lines(&instance.schema().typeside, entries, text)?;
    Ok(())
}

fn push_entry_lines(
    typeside: &Typeside,
    entries: &[Entry],
    text: &mut Vec<u8>,
) -> Result<(), AllocError>
    requires { All (IsNamedEntry typeside.now) entries.now }
    ensures { OnOk result (text.new.items ≡ text.old.items ++ flat_map (entry_line typeside.now) entries.now) }
{
    for entry in entries {
        push_entry_line(typeside, entry, text)?;
    }
    Ok(())
}
