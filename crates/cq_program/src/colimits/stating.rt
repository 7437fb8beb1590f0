//! Colimits of schemas, their schemas and the inclusions of their parts: what is posed of them.
ghost use Rattle.std.specs.Prelude.{ℕ, ◌≡◌, ◌<◌, ◌+◌, ◌-◌, ◌^◌, ◌++◌, ◌∷◌, [], All, Some, None, IfOk, IfErr, OnOk};
ghost use Rattle.std.specs.Prelude.{length, map, option_map};
ghost use Rattle.cq_base.specs.declared.name.Name.{Name as TheName};
ghost use Rattle.cq_colimit.specs.declared.refusal.ColimitRefusal.TheVariants as joining;
ghost use Rattle.cq_colimit.specs.Faults.{colimit_fault};
ghost use Rattle.cq_colimit.specs.Joined.{inclusions as all_inclusions, joined as joined_schema};
ghost use Rattle.cq_mapping.specs.Duties.{Preserves};
ghost use Rattle.cq_program.specs.Posed.{an_inclusion};
ghost use Rattle.cq_program.specs.Colimits.{colimit_breach, colimit_given, colimit_posed, first_apart};
ghost use Rattle.cq_program.specs.Colimits.{get_mapping_posed, get_schema_posed, included, named_schemas, part_named};
ghost use Rattle.cq_program.specs.Colimits.{parts_used, posed_colimit};
ghost use Rattle.cq_environment.specs.Environment.{Answers, AreSettled, Tells, TellsChecked};
ghost use Rattle.cq_environment.specs.Environment.{colimit_meant, environment_of};
ghost use Rattle.cq_environment.specs.Environment.{IsPartPrinted, part_meant};
ghost use Rattle.cq_program.specs.Views.{useds_meant};
ghost use Rattle.cq_environment.specs.Meanings.{Environment as Meanings, SchemaMeant, meant_by, schema_used};
ghost use Rattle.cq_environment.specs.Meanings.{typeside as typeside_meant};
ghost use Rattle.cq_parts.specs.Parts.{colimit_count, colimit_parts as literal_parts};
ghost use Rattle.cq_program.specs.Posing.{IsGrounded, IsPosed, posed_as};

use crate::refusals::place_of;
use crate::statement::Statement;
use cq_base::{Name, Place, Seq};
use cq_colimit::{Colimit, ColimitRefusal, colimit};
use cq_environment::{
    Environment, NamedColimit, NamedPart, NamedSchema, ProgramRefusal, Reason, colimit_of,
    copy_named,
};
use cq_mapping::Mapping;
use cq_parts::{colimit_parts, colimit_places};
use cq_syntax::{ColimitLit, Spot};
use cq_theory::{Schema, Typeside};
use std::alloc::{AllocError, Global};
use std::rc::Rc;

/// A schema that is joined with others, with the name under which it stands and its place.
#[derive(Drop)]
pub(crate) struct UsedSchema {
    pub place: Place,
    pub name: Name,
    pub part: NamedSchema,
}

/// A colimit of schemas over one typeside.
pub fn pose_colimit(
    alloc: Global,
    env: &Environment,
    place: Place,
    name: &Name,
    literal: &ColimitLit,
) -> Result<Statement, ProgramRefusal>
    requires few { colimit_count literal.now < 2 ^ 32 }
    requires settled { AreSettled (environment_of env.now.names.entries) }
    ensures posed { Answers posed_as result (colimit_posed (environment_of env.now.names.entries) place name.now
        literal.now) }
    ensures well_sorted { IfOk result IsPosed }
    ensures grounded { IfOk result (λ statement. IsGrounded (environment_of env.now.names.entries) name.now
        (posed_as statement)) }
{
    let parts = schemas_of(alloc, env, literal.parts.as_slice())?;
    let typeside = env.typeside(&literal.typeside)?;
    if let Some(at) = find_apart(&literal.typeside.name, parts.as_slice()) {
        return Err(ProgramRefusal::Broken(at, Reason::WrongSchema));
    }
    join_schemas(alloc, place, name, typeside, parts.as_slice(), literal)
}

/// The colimit of schemas over one typeside under its name, or the first part that breaks a rule.
fn join_schemas(
    alloc: Global,
    place: Place,
    name: &Name,
    typeside: Rc<Typeside>,
    parts: &[UsedSchema],
    literal: &ColimitLit,
) -> Result<Statement, ProgramRefusal>
    requires few { length parts.now + length literal.now.pairs + length literal.now.path_eqs
        + length literal.now.obs_eqs < 2 ^ 32 }
    requires over { All (λ part. part.part.schema.value.typeside ≡ typeside.value) parts.now }
    ensures posed { Answers posed_as result
        (posed_colimit (colimit_given place literal.now name.now typeside.value (useds_meant parts.now))) }
    ensures well_sorted { IfOk result IsPosed }
    ensures grounded { (env : Meanings) → meant_by env literal.now.typeside.name ≡ Some (typeside_meant typeside.value)
        → All (IsPartPrinted env) (useds_meant parts.now)
        → IfOk result (λ statement. IsGrounded env name.now (posed_as statement)) }
{
    match make_colimit(alloc, place, typeside, parts, literal) {
        Ok(made) => {
            let over = &literal.typeside.name;
            Ok(Statement::Colimit(name_colimit(alloc, name, over, parts, made)?))
        }
        Err(refusal) => Err(refusal),
    }
}

/// The schemas for which used names stand, in order.
fn schemas_of(
    alloc: Global,
    env: &Environment,
    used: &[Spot],
) -> Result<Vec<UsedSchema>, ProgramRefusal>
    ensures { Answers (λ parts. useds_meant parts.items) result
        (parts_used (environment_of env.now.names.entries) used.now) }
{
    let mut parts = Vec::new(alloc);
    for spot in used {
        push_schema(env, spot, &mut parts)?;
    }
    Ok(parts)
}

/// Puts the schema for which a used name stands behind others.
fn push_schema(
    env: &Environment,
    used: &Spot,
    parts: &mut Vec<UsedSchema>,
) -> Result<(), ProgramRefusal>
    ensures given { OnOk result ((part : SchemaMeant)
        × (schema_used (environment_of env.now.names.entries) used.now ≡ Ok part)
        × (useds_meant parts.new.items ≡ useds_meant parts.old.items ++ (used.now, part) ∷ [])) }
    ensures refused { IfErr result (λ refusal. TellsChecked refusal
        (schema_used (environment_of env.now.names.entries) used.now)) }
{
    let part = env.schema(used)?;
    let name = used.name.clone()?;
    let place = used.place;
    match parts.push(UsedSchema { place, name, part }) {
        Ok(()) => Ok(()),
        Err(_) => Err(ProgramRefusal::Memory),
    }
}

/// The place of the first schema that isn't over the typeside of a name.
fn find_apart(name: &Name, parts: &[UsedSchema]) -> Option<Place>
    ensures { result ≡ first_apart name.now (useds_meant parts.now) }
{
    for part in parts {
        if *name != part.part.typeside {
            return Some(part.place);
        }
    }
    None
}

/// The colimit of schemas over one typeside, or the first part that breaks a rule.
fn make_colimit(
    alloc: Global,
    place: Place,
    typeside: Rc<Typeside>,
    parts: &[UsedSchema],
    literal: &ColimitLit,
) -> Result<Colimit, ProgramRefusal>
    requires few { length parts.now + length literal.now.pairs + length literal.now.path_eqs
        + length literal.now.obs_eqs < 2 ^ 32 }
    requires over { All (λ part. part.part.schema.value.typeside ≡ typeside.value) parts.now }
    ensures accepted { IfOk result (λ _. colimit_fault typeside.value (named_schemas (useds_meant parts.now))
        (literal_parts literal.now) ≡ None) }
    ensures schema { IfOk result (λ made. made.schema.value
        ≡ joined_schema typeside.value (named_schemas (useds_meant parts.now)) (literal_parts literal.now)) }
    ensures inclusions { IfOk result (λ made. made.inclusions
        ≡ all_inclusions typeside.value (named_schemas (useds_meant parts.now)) (literal_parts literal.now)) }
    ensures preserves { IfOk result (λ made. All Preserves made.inclusions) }
    ensures refused { (name : TheName) → IfErr result (λ refusal. TellsChecked refusal
        (colimit_given place literal.now name typeside.value (useds_meant parts.now))) }
{
    let named = name_schemas(alloc, parts)?;
    let joins = colimit_parts(alloc, literal)?;
    match colimit(alloc, typeside, named.as_slice(), joins) {
        Ok(made) => Ok(made),
        Err(refusal) => {
            let places = colimit_places(alloc, literal)?;
            Err(tell_colimit(place, places.as_slice(), refusal))
        }
    }
}

/// The schemas under the names under which they stand.
fn name_schemas(alloc: Global, parts: &[UsedSchema]) -> Result<Vec<(Name, Rc<Schema>)>, AllocError>
    ensures { IfOk result (λ named. map (λ part. (part.0, part.1.value)) named.items
        ≡ named_schemas (useds_meant parts.now)) }
{
    let mut named = Vec::new(alloc);
    for part in parts {
        named.push((part.name.clone()?, part.part.schema.clone()?))?;
    }
    Ok(named)
}

/// The rule that a part of a colimit breaks, at the part's place, or at the declaration's.
fn tell_colimit(place: Place, places: &[Place], refusal: ColimitRefusal) -> ProgramRefusal
    requires names { (m n : ℕ) → refusal ≡ joining.NameClash m n → (m < 2 ^ 32 - 1) × (n < 2 ^ 32 - 1) }
    requires long { (n : ℕ) → refusal ≡ joining.LongName n → n < 2 ^ 32 - 1 }
    ensures { Tells result (colimit_breach place places.now refusal) }
{
    match refusal {
        ColimitRefusal::Duplicate(part) => ProgramRefusal::Broken(
            place_of(place, places, part),
            Reason::Duplicate,
        ),
        ColimitRefusal::Unknown(part) => ProgramRefusal::Broken(
            place_of(place, places, part),
            Reason::Unknown,
        ),
        ColimitRefusal::WrongCount(part) => ProgramRefusal::Broken(
            place_of(place, places, part),
            Reason::WrongCount,
        ),
        ColimitRefusal::WrongSort(part) => ProgramRefusal::Broken(
            place_of(place, places, part),
            Reason::WrongSort,
        ),
        ColimitRefusal::Reserved(part) => ProgramRefusal::Broken(
            place_of(place, places, part),
            Reason::Reserved,
        ),
        ColimitRefusal::TooLarge(part) => ProgramRefusal::Broken(
            place_of(place, places, part),
            Reason::TooLarge,
        ),
        ColimitRefusal::NameClash(first, second) => ProgramRefusal::Broken(
            place,
            Reason::NameClash(first + 1, second + 1),
        ),
        ColimitRefusal::LongName(part) => ProgramRefusal::Broken(place, Reason::LongName(part + 1)),
        ColimitRefusal::TooMany => ProgramRefusal::Broken(place, Reason::Oversized),
        ColimitRefusal::Memory => ProgramRefusal::Memory,
    }
}

/// A colimit under its name, with its parts under theirs.
fn name_colimit(
    alloc: Global,
    name: &Name,
    typeside: &Name,
    parts: &[UsedSchema],
    made: Colimit,
) -> Result<NamedColimit, AllocError>
    ensures { IfOk result (λ named. colimit_meant named ≡ record {
      schema = record { name = name.now; typeside = typeside.now; schema = made.schema.value };
      parts = included (useds_meant parts.now) made.inclusions;
    }) }
{
    let Colimit { schema, inclusions } = made;
    let schema = NamedSchema {
        name: name.clone()?,
        typeside: typeside.clone()?,
        schema,
    };
    let inclusions = share_mappings(alloc, inclusions.into_vec())?;
    let parts = name_parts(alloc, parts, inclusions.as_slice())?;
    Ok(NamedColimit { schema, parts })
}

/// Mappings that are kept where they are used once more.
fn share_mappings(alloc: Global, mappings: Vec<Mapping>) -> Result<Vec<Rc<Mapping>>, AllocError>
    ensures { IfOk result (λ shared. map (λ mapping. mapping.value) shared.items ≡ mappings.items) }
{
    let mut shared = Vec::new(alloc);
    for mapping in mappings {
        shared.push(Rc::new(alloc, mapping)?)?;
    }
    Ok(shared)
}

/// The inclusions under the names under which their schemas stand.
fn name_parts(
    alloc: Global,
    parts: &[UsedSchema],
    inclusions: &[Rc<Mapping>],
) -> Result<Seq<NamedPart>, AllocError>
    ensures { IfOk result (λ named. map part_meant named
        ≡ included (useds_meant parts.now) (map (λ inclusion. inclusion.value) inclusions.now)) }
{
    let mut named = Vec::new(alloc);
    for (part, inclusion) in parts.iter().zip(inclusions.iter()) {
        named.push(name_part(part, inclusion)?)?;
    }
    Ok(Seq::from_vec(named))
}

/// An inclusion under the name under which its schema stands.
fn name_part(part: &UsedSchema, inclusion: &Rc<Mapping>) -> Result<NamedPart, AllocError>
    ensures { IfOk result (λ named. part_meant named
        ≡ record { name = part.now.name; source = part.now.part.name; inclusion = inclusion.now.value }) }
{
    Ok(NamedPart {
        name: part.name.clone()?,
        source: part.part.name.clone()?,
        inclusion: inclusion.clone()?,
    })
}

/// The schema of a colimit.
pub fn pose_joined_schema(env: &Environment, used: &Spot) -> Result<Statement, ProgramRefusal>
    requires settled { AreSettled (environment_of env.now.names.entries) }
    ensures posed { Answers posed_as result (get_schema_posed (environment_of env.now.names.entries) used.now) }
    ensures well_sorted { IfOk result IsPosed }
    ensures grounded { (name : TheName) → IfOk result
        (λ statement. IsGrounded (environment_of env.now.names.entries) name (posed_as statement)) }
{
    match colimit_of(env, used) {
        Ok(found) => Ok(Statement::Schema(copy_named(&found.schema)?)),
        Err(refusal) => Err(refusal),
    }
}

/// The inclusion of the part of a colimit that stands under a name in its declaration.
pub fn pose_inclusion(
    env: &Environment,
    along: &Spot,
    used: &Spot,
) -> Result<Statement, ProgramRefusal>
    requires settled { AreSettled (environment_of env.now.names.entries) }
    ensures posed { Answers posed_as result (get_mapping_posed (environment_of env.now.names.entries) along.now
        used.now) }
    ensures well_sorted { IfOk result IsPosed }
    ensures grounded { (name : TheName) → IfOk result
        (λ statement. IsGrounded (environment_of env.now.names.entries) name (posed_as statement)) }
{
    let found = match colimit_of(env, along) {
        Ok(found) => found,
        Err(refusal) => return Err(refusal),
    };
    let _over = env.schema(used)?;
    match find_part(found.parts.as_slice(), &used.name) {
        Some(part) => Ok(inclusion_of(part, &found.schema.name)?),
        None => Err(ProgramRefusal::Broken(used.place, Reason::WrongSchema)),
    }
}

/// The part that stands under a name.
fn find_part<'a>(parts: &'a [NamedPart], name: &Name) -> Option<&'a NamedPart>
    ensures { option_map (λ part. part_meant part.now) result ≡ part_named (map part_meant parts.now) name.now }
{
    for part in parts {
        if *name == part.name {
            return Some(part);
        }
    }
    None
}

/// The inclusion of a part into the schema of a printed name.
fn inclusion_of(part: &NamedPart, target: &Name) -> Result<Statement, AllocError>
    ensures posed { IfOk result (λ statement. posed_as statement
        ≡ an_inclusion part.now.source target.now part.now.inclusion.value) }
    ensures well_sorted { IfOk result IsPosed }
{
    Ok(Statement::Inclusion(
        part.source.clone()?,
        target.clone()?,
        part.inclusion.clone()?,
    ))
}
