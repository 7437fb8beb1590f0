//! Joining parts in their places, where the classes of their entities are known.
ghost use Rattle.std.specs.Prelude.{ℕ, List, ◌≡◌, ◌+◌, ◌<◌, ◌≤◌, ◌^◌, ◌⊎◌, All, length, map, IfOk, IfErr, Some, None};
ghost use Rattle.cq_theory.specs.Canonical.{below};
ghost use Rattle.cq_mapping.specs.Duties.{Preserves};
ghost use Rattle.cq_colimit.specs.Placing.{Part};
ghost use Rattle.cq_colimit.specs.Clashes.{given_entities as entities_given, given_arrows as arrows_given};
ghost use Rattle.cq_colimit.specs.Classes.{first_of};
ghost use Rattle.cq_colimit.specs.Joined.{entities_of, inclusion, framed as framed_by, with_images};
ghost use Rattle.cq_colimit.specs.Faults.{given_fault};
ghost use Rattle.cq_colimit.specs.Frame.{AreJoined, AreSymbols, IsFrame, HasImages, given_or_added_fault};

use crate::clashes::check_given;
use crate::classes::Classes;
use crate::equations::put_first;
use crate::frames::{Symbols, bare, framed, names_of, shared};
use crate::given::{given_arrows, given_entities};
use crate::images::images;
use crate::inclusions::include_all;
use crate::joined::Colimit;
use crate::placed::Placed;
use crate::refusal::ColimitRefusal;
use cq_base::{Name, Seq};
use cq_theory::{ColimitParts, Schema, Typeside};
use std::alloc::{AllocError, Global};
use std::rc::Rc;

/// The names of the joined entities, where the joined names can stand beside one another.
fn find_names(
    alloc: Global,
    typeside: &Typeside,
    parts: &[Placed],
    firsts: &[u32],
) -> Result<Vec<Name>, ColimitRefusal>
    requires { All (λ part. part.start.entity + length part.schema.entities ≤ length firsts.now) parts.now }
    ensures accepted { (links : List (ℕ × ℕ)) → firsts.now ≡ map (first_of links) (below (length firsts.now)) → IfOk
        result (λ _. given_fault typeside.now (entities_given links parts.now) (arrows_given parts.now) ≡ None) }
    ensures made { (links : List (ℕ × ℕ)) → firsts.now ≡ map (first_of links) (below (length firsts.now)) → IfOk
        result (λ made. made.items ≡ entities_of links parts.now) }
    ensures refused { (links : List (ℕ × ℕ)) → firsts.now ≡ map (first_of links) (below (length firsts.now)) → IfErr
        result (λ refusal. (refusal ≡ ColimitRefusal.Memory)
        ⊎ (given_fault typeside.now (entities_given links parts.now) (arrows_given parts.now) ≡ Some refusal)) }
{
    let entities = given_entities(alloc, parts, firsts)?;
    let arrows = given_arrows(alloc, parts)?;
    check_given(alloc, typeside, entities.as_slice(), arrows.as_slice())?;
    let names = names_of(alloc, entities.as_slice())?;
    Ok(names)
}

/// The colimit whose schema is this one, which has the images of all equations of the parts.
fn finish(alloc: Global, symbols: &Symbols, schema: Schema) -> Result<Colimit, AllocError>
    requires { (links : List (ℕ × ℕ)) × (given : List Part)
        × AreSymbols links schema.typeside given symbols.now.parts.items symbols.now.numbers.items
        symbols.now.entities.items × IsFrame links symbols.now.parts.items schema
        × HasImages links symbols.now.parts.items schema }
    ensures schema { IfOk result (λ made. made.schema.value ≡ schema) }
    ensures inclusions { (links : List (ℕ × ℕ)) (given : List Part) → AreSymbols links schema.typeside given
        symbols.now.parts.items symbols.now.numbers.items symbols.now.entities.items → IfOk result (λ made.
        made.inclusions ≡ map (inclusion links schema) symbols.now.parts.items) }
    ensures preserves { IfOk result (λ made. All Preserves made.inclusions) }
{
    let schema = shared(alloc, schema)?;
    let inclusions = include_all(
        alloc,
        symbols.parts.as_slice(),
        symbols.numbers.as_slice(),
        &schema,
    )?;
    Ok(Colimit {
        schema,
        inclusions: Seq::from_vec(inclusions),
    })
}

/// The colimit of parts with these classes of entities, where the first added equation is part `first`.
pub(crate) fn join(
    alloc: Global,
    typeside: Rc<Typeside>,
    parts: Vec<Placed>,
    classes: Classes,
    first: u32,
    joins: ColimitParts,
) -> Result<Colimit, ColimitRefusal>
    requires classes { (links : List (ℕ × ℕ)) × (given : List Part) × AreJoined links typeside.value given parts.items
        classes.firsts.items classes.numbers.items }
    requires few { length joins.path_eqs + length joins.obs_eqs ≤ 1000000 }
    requires first { first + length joins.path_eqs + length joins.obs_eqs < 2 ^ 32 }
    ensures accepted { (links : List (ℕ × ℕ)) (given : List Part) → AreJoined links typeside.value given parts.items
        classes.firsts.items classes.numbers.items → IfOk result (λ _. given_or_added_fault links typeside.value
        parts.items first joins ≡ None) }
    ensures schema { (links : List (ℕ × ℕ)) (given : List Part) → AreJoined links typeside.value given parts.items
        classes.firsts.items classes.numbers.items → IfOk result (λ made.
        made.schema.value ≡ with_images links (framed_by links typeside.value parts.items joins) parts.items) }
    ensures inclusions { (links : List (ℕ × ℕ)) (given : List Part) → AreJoined links typeside.value given parts.items
        classes.firsts.items classes.numbers.items → IfOk result (λ made.
        made.inclusions ≡ map (inclusion links made.schema.value) parts.items) }
    ensures preserves { IfOk result (λ made. All Preserves made.inclusions) }
    ensures refused { (links : List (ℕ × ℕ)) (given : List Part) → AreJoined links typeside.value given parts.items
        classes.firsts.items classes.numbers.items → IfErr result (λ refusal. (refusal ≡ ColimitRefusal.Memory)
        ⊎ (given_or_added_fault links typeside.value parts.items first joins ≡ Some refusal)) }
{
    let Classes { firsts, numbers } = classes;
    let entities = find_names(alloc, &typeside, parts.as_slice(), firsts.as_slice())?;
    let symbols = Symbols {
        parts,
        numbers,
        entities,
    };
    let frame = bare(alloc, typeside.clone()?, &symbols)?;
    let equations = images(
        alloc,
        symbols.parts.as_slice(),
        symbols.numbers.as_slice(),
        &frame,
    )?;
    let base = match framed(alloc, typeside, &symbols, first, joins) {
        Ok(base) => base,
        Err(refusal) => return Err(refusal),
    };
    let schema = match put_first(alloc, base, equations) {
        Ok(schema) => schema,
        Err(_) => return Err(ColimitRefusal::Memory),
    };
    schema.is_well_sorted();
    match finish(alloc, &symbols, schema) {
        Ok(colimit) => Ok(colimit),
        Err(_) => Err(ColimitRefusal::Memory),
    }
}
