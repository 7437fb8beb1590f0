//! Keys that no equation reads.
ghost use Rattle.std.specs.Prelude.{◌≡◌, ℕ, false, length, map, IfOk};
ghost use Rattle.cq_rows.specs.Plain.{theory_of, entity_sides};
ghost use Rattle.cq_rows.specs.Unread.{is_free, HasNone, RulesReadNone, GivenReadNone, AreUnread};

use cq_theory::{Equation, Presentation, Schema};
use std::alloc::{AllocError, Global};

// The keys of a path are read.
fn read_path(free: &mut [bool], path: &[u32])
    ensures none { HasNone free.new path.now }
    ensures kept { (k : ℕ) → is_free free.old k ≡ false → is_free free.new k ≡ false }
    ensures len { length free.new ≡ length free.old }
{
    for key in path {
        if *key as usize >= free.len() {
            continue;
        }
        free[*key as usize] = false;
    }
}

// The keys of the path equations are read.
fn read_rules(free: &mut [bool], schema: &Schema)
    ensures none { RulesReadNone schema.now.path_eqs free.new }
    ensures kept { (k : ℕ) → is_free free.old k ≡ false → is_free free.new k ≡ false }
    ensures len { length free.new ≡ length free.old }
{
    for rule in schema.path_eqs.as_slice() {
        read_path(free, rule.left.as_slice());
        read_path(free, rule.right.as_slice());
    }
}

// The keys of the equations between entity terms are read.
fn read_given(free: &mut [bool], presentation: &Presentation)
    ensures none { GivenReadNone (map entity_sides presentation.now.equations) free.new }
    ensures kept { (k : ℕ) → is_free free.old k ≡ false → is_free free.new k ≡ false }
    ensures len { length free.new ≡ length free.old }
{
    for equation in presentation.equations.as_slice() {
        let Equation::Ent(left, right) = equation else {
            continue;
        };
        read_path(free, left.path.as_slice());
        read_path(free, right.path.as_slice());
    }
}

/// Of each key, whether no equation reads it.
pub fn unread_keys(
    alloc: Global,
    schema: &Schema,
    presentation: &Presentation,
) -> Result<Vec<bool>, AllocError>
    ensures unread { IfOk result (λ free. AreUnread (theory_of schema.now presentation.now) free.items) }
    ensures len { IfOk result (λ free. length free.items ≡ length schema.now.keys) }
{
    let mut free = vec![in alloc; true; schema.keys.len() as usize]?;
    read_rules(&mut free, schema);
    read_given(&mut free, presentation);
    Ok(free)
}
