//! Clashes of joined names.
ghost use Rattle.std.specs.Prelude.{◌≡◌, ◌⊎◌, IfOk, OnOk, IfErr, Some, None, [], min, max};
ghost use Rattle.cq_theory.specs.Paths.{is_among};
ghost use Rattle.cq_colimit.specs.Clashes.{lesser as lesser_of, lesser_pair as lesser_pair_of, ordered as in_order};
ghost use Rattle.cq_colimit.specs.Clashes.{is_before as comes_before, least_giver, least_clash as clash_of};
ghost use Rattle.cq_colimit.specs.Clashes.{with_owner};
ghost use Rattle.cq_colimit.specs.Faults.{is_long, given_fault};
ghost use Rattle.std.specs.Prelude.{if◌then◌else◌};
ghost use Rattle.cq_base.specs.Names.{same_name};
ghost use Rattle.cq_base.specs.declared.name.Name.{Name as AnyName};
ghost use Rattle.indexmap.specs.IndexMap.{get};

use crate::refusal::ColimitRefusal;
use crate::text::Text;
use crate::texts::Texts;
use cq_base::Hashing;
use cq_theory::Typeside;
use indexmap::IndexMap;
use std::alloc::{AllocError, Global};

/// The lesser of a part and of one that may be there.
fn lesser(least: Option<u32>, part: u32) -> u32
    ensures { result ≡ lesser_of least part }
{
    match least {
        Some(least) => least.min(part),
        None => part,
    }
}

/// Whether a pair comes before another one: pairs are compared by their first part and then by their second.
fn is_before(pair: (u32, u32), other: (u32, u32)) -> bool
    ensures { result ≡ comes_before pair other }
{
    pair.0 < other.0 || pair.0 == other.0 && pair.1 < other.1
}

/// The lesser of a pair and of one that may be there.
fn lesser_pair(least: Option<(u32, u32)>, pair: (u32, u32)) -> (u32, u32)
    ensures { result ≡ lesser_pair_of least pair }
{
    match least {
        Some(least) => { if is_before(pair, least) { pair } else { least } }
        None => pair,
    }
}

/// Two parts, the lesser first.
fn ordered(left: u32, right: u32) -> (u32, u32)
    ensures { result ≡ in_order left right }
{
    (left.min(right), left.max(right))
}

/// Notes that a part gives a name, where the least part that has given it so far is known. The answer is the least of a
/// pair so far and of that of this part with it.
fn note(
    givers: &mut IndexMap<Text, u32, Hashing>,
    name: &(Text, u32),
    least: Option<(u32, u32)>,
) -> Result<Option<(u32, u32)>, AllocError>
    ensures least { IfOk result (λ after. after ≡ with_owner least name.now.1 (get same_name givers.old name.now.0)) }
    ensures noted { (text : AnyName) → OnOk result (get same_name givers.new text ≡ (if same_name name.now.0 text
        then Some (lesser_of (get same_name givers.old name.now.0) name.now.1) else get same_name givers.old text)) }
{
    let owner = givers.get(&name.0).copied();
    let part = lesser(owner, name.1);
    let after = match owner {
        Some(owner) => Some(lesser_pair(least, ordered(owner, name.1))),
        None => least,
    };
    let text = name.0.clone()?;
    match givers.insert(text, part) {
        Ok(_) => Ok(after),
        Err(_) => Err(AllocError),
    }
}

/// How a table of these names is to hash.
fn hashing_of(given: &[(Text, u32)]) -> Hashing {
    match given.first() {
        Some(name) => name.0.hashing(),
        None => Hashing::new(),
    }
}

/// The least of a pair so far and of those parts that give two equal names of one table.
fn least_clash(
    alloc: Global,
    given: &[(Text, u32)],
    least: Option<(u32, u32)>,
) -> Result<Option<(u32, u32)>, AllocError>
    ensures { IfOk result (λ found. found ≡ clash_of least [] given.now) }
{
    let mut givers = IndexMap::with_hasher(alloc, hashing_of(given));
    let mut least = least;
    for name in given {
        least = note(&mut givers, name, least)?;
    }
    Ok(least)
}

/// The least part that gives a name which stands in a table, and of a part so far.
fn least_among(table: &Texts, given: &[(Text, u32)], least: Option<u32>) -> Option<u32>
    ensures { result ≡ least_giver (λ g. is_among table.now g.0) least given.now }
{
    let mut least = least;
    for name in given {
        if table.has(&name.0) {
            least = Some(lesser(least, name.1));
        }
    }
    least
}

/// The least part that gives a name of over 255 bytes, and of a part so far.
fn least_long(given: &[(Text, u32)], least: Option<u32>) -> Option<u32>
    ensures { result ≡ least_giver is_long least given.now }
{
    let mut least = least;
    for name in given {
        if name.0.is_long() {
            least = Some(lesser(least, name.1));
        }
    }
    least
}

/// Whether the names of joined entities, and of joined foreign keys and attributes, can stand beside one another and
/// beside those of the typeside.
pub(crate) fn check_given(
    alloc: Global,
    typeside: &Typeside,
    entities: &[(Text, u32)],
    arrows: &[(Text, u32)],
) -> Result<(), ColimitRefusal>
    ensures accepted { IfOk result (λ _. given_fault typeside.now entities.now arrows.now ≡ None) }
    ensures refused { IfErr result (λ refusal. (refusal ≡ ColimitRefusal.Memory)
        ⊎ (given_fault typeside.now entities.now arrows.now ≡ Some refusal)) }
{
    let clash = least_clash(alloc, entities, None)?;
    let clash = least_clash(alloc, arrows, clash)?;
    if let Some((left, right)) = clash {
        return Err(ColimitRefusal::NameClash(left, right));
    }
    let types = Texts::of_names(alloc, typeside.types.as_slice())?;
    let functions = Texts::of_functions(alloc, typeside.functions.as_slice())?;
    if let Some(part) = least_among(&functions, arrows, least_among(&types, entities, None)) {
        return Err(ColimitRefusal::NameClash(part, part));
    }
    match least_long(arrows, least_long(entities, None)) {
        Some(part) => Err(ColimitRefusal::LongName(part)),
        None => Ok(()),
    }
}
