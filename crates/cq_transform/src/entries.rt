//! Nulls that are values of functions at constants and nulls.
ghost use Rattle.std.specs.Prelude.{◌≡◌, ◌<◌, ◌||◌, IfOk, OnOk, true, false};
ghost use Rattle.cq_theory.specs.Tables.{Assignment};
ghost use Rattle.cq_instance.specs.InstanceData.{InstanceData};
ghost use Rattle.cq_transform.specs.Nulls.{Keeps, IsInitial, AreSpelled, IsEntryOf, IsEntryClosed, AreEntriesClosed};
ghost use Rattle.cq_transform.specs.Nulls.{count_open};

use crate::found::{has_open, open_label, plain_images, put};
use cq_instance::Instance;
use cq_theory::{Entry, Value};
use std::alloc::{AllocError, Global};

/// Finds the value of the null that an entry of the source has, if it has one, from the images of the arguments.
/// Whether a value was found.
fn find_entry(
    alloc: Global,
    target: &Instance,
    entry: &Entry,
    found: &mut Vec<Option<Value>>,
) -> Result<bool, AllocError>
    ensures keeps { OnOk result (Keeps found.old.items found.new.items) }
    ensures spelled { (i : InstanceData) (B : Assignment) → IsInitial i → IsEntryOf i entry.now
        → AreSpelled i target.now B found.old.items → OnOk result (AreSpelled i target.now B found.new.items) }
    ensures more { IfOk result (λ changed. changed ≡ true → count_open found.new.items < count_open found.old.items) }
    ensures closed { IfOk result (λ changed. changed ≡ false → (found.new.items ≡ found.old.items)
        × IsEntryClosed found.old.items entry.now) }
{
    let Some(label) = open_label(found.as_slice(), &entry.value) else {
        return Ok(false);
    };
    let args = entry.args.as_slice();
    if has_open(found.as_slice(), args) {
        return Ok(false);
    }
    let images = plain_images(alloc, found.as_slice(), args)?;
    put(found, label, target.applied(alloc, entry.function, images)?);
    Ok(true)
}

/// Whether one of the two is so.
fn either(first: bool, second: bool) -> bool
    ensures { result ≡ (first || second) }
{
    first || second
}

/// Finds values by each entry of the source, in order. Whether a value was found.
fn find_once(
    alloc: Global,
    here: &[Entry],
    target: &Instance,
    found: &mut Vec<Option<Value>>,
) -> Result<bool, AllocError>
    ensures keeps { OnOk result (Keeps found.old.items found.new.items) }
    ensures spelled { (i : InstanceData) (B : Assignment) → IsInitial i → i.tables.algebra.entries ≡ here.now
        → AreSpelled i target.now B found.old.items → OnOk result (AreSpelled i target.now B found.new.items) }
    ensures more { IfOk result (λ changed. changed ≡ true → count_open found.new.items < count_open found.old.items) }
    ensures closed { IfOk result (λ changed. changed ≡ false → (found.new.items ≡ found.old.items)
        × AreEntriesClosed found.old.items here.now) }
{
    let mut changed = false;
    for entry in here {
        changed = either(changed, find_entry(alloc, target, entry, found)?);
    }
    Ok(changed)
}

/// Finds values by the entries of the source, until no entry tells a further one.
pub(crate) fn find_entries(
    alloc: Global,
    here: &[Entry],
    target: &Instance,
    found: &mut Vec<Option<Value>>,
) -> Result<(), AllocError>
    ensures keeps { OnOk result (Keeps found.old.items found.new.items) }
    ensures spelled { (i : InstanceData) (B : Assignment) → IsInitial i → i.tables.algebra.entries ≡ here.now
        → AreSpelled i target.now B found.old.items → OnOk result (AreSpelled i target.now B found.new.items) }
    ensures closed { OnOk result (AreEntriesClosed found.new.items here.now) }
{
    let mut changed = true;
    while changed {
        changed = find_once(alloc, here, target, found)?;
    }
    Ok(())
}
