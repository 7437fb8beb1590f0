//! The summary of instances: a line for each.
ghost use Rattle.std.specs.Prelude.{◌≡◌, ◌++◌, ◌≤◌, ◌^◌, decimal, length, map, sum, IfOk, OnOk};
ghost use Rattle.cq_program.specs.Named.{listed_as};
ghost use Rattle.cq_run.specs.Summary.{line_of, row_count, summary_line, summary_of};

use cq_base::Name;
use cq_instance::Instance;
use cq_program::Named;
use cq_text::push_number;
use std::alloc::{AllocError, Global};

/// A line for each instance, in order: its name, and how many rows, nulls and entries it has.
#[tactic(auto, unfolding(crate::specs::Summary::summary_of))]
pub fn summary(alloc: Global, instances: &[Named]) -> Result<Vec<u8>, AllocError>
    ensures { IfOk result (λ text. text.items ≡ summary_of (map listed_as instances.now)) }
{
    let mut text = Vec::new(alloc);
    for named in instances {
        push_summary(named, &mut text)?;
    }
    Ok(text)
}

/// Appends the line of a named instance.
fn push_summary(named: &Named, text: &mut Vec<u8>) -> Result<(), AllocError>
    ensures { OnOk result (text.new.items ≡ text.old.items ++ summary_line (listed_as named.now)) }
{
    push_line(&named.name, &named.instance, text)?;
    Ok(())
}

/// Appends the line of an instance under a name.
fn push_line(name: &Name, instance: &Instance, text: &mut Vec<u8>) -> Result<(), AllocError>
    ensures { OnOk result (text.new.items ≡ text.old.items ++ line_of name.now instance.now) }
{
    let algebra = instance.algebra();
    text.extend_from_slice(b"instance ")?;
    text.extend_from_slice(name.as_str().as_bytes())?;
    push_count(b" rows ", row_count(instance), text)?;
    push_count(b" nulls ", algebra.nulls.len() as u64, text)?;
    push_count(b" entries ", algebra.entries.len() as u64, text)?;
    text.extend_from_slice(b"\n")?;
    Ok(())
}

/// Appends a word and a number.
fn push_count(word: &[u8], count: u64, text: &mut Vec<u8>) -> Result<(), AllocError>
    ensures { OnOk result (text.new.items ≡ text.old.items ++ word.now ++ decimal count) }
{
    text.extend_from_slice(word)?;
    push_number(count, text)?;
    Ok(())
}

/// How many rows an instance has, of all entities.
fn row_count(instance: &Instance) -> u64
    ensures { result ≡ row_count instance.now }
{
    instance.schema().is_well_sorted();
    sum_of(instance.sheet().counts.as_slice())
}

fn sum_of(counts: &[u32]) -> u64
    requires { length counts.now ≤ 2 ^ 32 }
    ensures { result ≡ sum counts.now }
{
    let mut sum = 0;
    for count in counts {
        sum += u64::from(*count);
    }
    sum
}
