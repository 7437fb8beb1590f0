//! The mappings, colimits, queries, instances and transforms for which used names stand.
ghost use Rattle.std.specs.Prelude.{◌≡◌, IfOk};
ghost use Rattle.cq_environment.specs.Meanings.{colimit_used, mapping_used, query_used, instance_used, transform_used};
ghost use Rattle.cq_environment.specs.Environment.{Answers, colimit_meant, ends_meant, environment_of, instance_meant};
ghost use Rattle.cq_environment.specs.Environment.{mapping_meant, query_meant, transform_meant};

use crate::environment::{
    Environment, Meaning, NamedColimit, NamedEnds, NamedInstance, NamedTransform, tell_wrong_kind,
};
use crate::refusal::ProgramRefusal;
use cq_base::Name;
use cq_instance::Instance;
use cq_lazy::LazyQuery;
use cq_mapping::Mapping;
use cq_syntax::Spot;
use std::alloc::AllocError;
use std::rc::Rc;

/// A mapping, with the names under which its source and its target are printed.
#[derive(Drop)]
pub struct NamedMapping {
    pub source: Name,
    pub target: Name,
    pub mapping: Rc<Mapping>,
}

/// A query, with the names under which its source and its target are printed.
#[derive(Drop)]
pub struct NamedQuery {
    pub source: Name,
    pub target: Name,
    pub query: Rc<LazyQuery>,
}

/// The mapping for which a used name stands; `NameUnknown`, where it isn't declared, and `WrongKind`, where it stands
/// for something else.
pub fn mapping_of(env: &Environment, used: &Spot) -> Result<NamedMapping, ProgramRefusal>
    ensures { Answers mapping_meant result (mapping_used (environment_of env.now.names.entries) used.now) }
{
    match env.find_used(used)? {
        Meaning::Mapping(source, target, mapping) => Ok(name_mapping(source, target, mapping)?),
        _ => Err(tell_wrong_kind(used)),
    }
}

/// The colimit for which a used name stands; `NameUnknown`, where it isn't declared, and `WrongKind`, where it stands
/// for something else.
pub fn colimit_of<'a>(env: &'a Environment, used: &Spot) -> Result<&'a NamedColimit, ProgramRefusal>
    ensures { Answers (λ found. colimit_meant found.now) result
        (colimit_used (environment_of env.now.names.entries) used.now) }
{
    match env.find_used(used)? {
        Meaning::Colimit(found) => Ok(found),
        _ => Err(tell_wrong_kind(used)),
    }
}

/// The query for which a used name stands; `NameUnknown`, where it isn't declared, and `WrongKind`, where it stands
/// for something else.
pub fn query_of(env: &Environment, used: &Spot) -> Result<NamedQuery, ProgramRefusal>
    ensures { Answers query_meant result (query_used (environment_of env.now.names.entries) used.now) }
{
    match env.find_used(used)? {
        Meaning::Query(source, target, query) => Ok(name_query(source, target, query)?),
        _ => Err(tell_wrong_kind(used)),
    }
}

/// The instance for which a used name stands; `NameUnknown`, where it isn't declared, and `WrongKind`, where it stands
/// for something else.
pub fn instance_of(env: &Environment, used: &Spot) -> Result<NamedInstance, ProgramRefusal>
    ensures { Answers instance_meant result (instance_used (environment_of env.now.names.entries) used.now) }
{
    match env.find_used(used)? {
        Meaning::Instance(schema, instance) => Ok(name_instance(schema, instance)?),
        _ => Err(tell_wrong_kind(used)),
    }
}

/// The transform for which a used name stands; `NameUnknown`, where it isn't declared, and `WrongKind`, where it stands
/// for something else.
pub fn transform_of(env: &Environment, used: &Spot) -> Result<NamedTransform, ProgramRefusal>
    ensures { Answers transform_meant result (transform_used (environment_of env.now.names.entries) used.now) }
{
    match env.find_used(used)? {
        Meaning::Transform(named) => Ok(copy_transform(named)?),
        _ => Err(tell_wrong_kind(used)),
    }
}

fn name_mapping(
    source: &Name,
    target: &Name,
    mapping: &Rc<Mapping>,
) -> Result<NamedMapping, AllocError>
    ensures { IfOk result (λ named. mapping_meant named
        ≡ record { source = source.now; target = target.now; mapping = mapping.now.value }) }
{
    Ok(NamedMapping {
        source: source.clone()?,
        target: target.clone()?,
        mapping: mapping.clone()?,
    })
}

fn name_query(source: &Name, target: &Name, query: &Rc<LazyQuery>) -> Result<NamedQuery, AllocError>
    ensures { IfOk result (λ named. query_meant named
        ≡ record { source = source.now; target = target.now; query = query.now.value }) }
{
    Ok(NamedQuery {
        source: source.clone()?,
        target: target.clone()?,
        query: query.clone()?,
    })
}

fn name_instance(schema: &Name, instance: &Rc<Instance>) -> Result<NamedInstance, AllocError>
    ensures { IfOk result (λ named. instance_meant named
        ≡ record { schema = schema.now; instance = instance.now.value }) }
{
    Ok(NamedInstance {
        schema: schema.clone()?,
        instance: instance.clone()?,
    })
}

/// Another handle on an instance.
pub fn copy_instance(named: &NamedInstance) -> Result<NamedInstance, AllocError>
    ensures { IfOk result (λ copy. instance_meant copy ≡ instance_meant named.now) }
{
    name_instance(&named.schema, &named.instance)
}

fn copy_ends(ends: &NamedEnds) -> Result<NamedEnds, AllocError>
    ensures { IfOk result (λ copy. ends_meant copy ≡ ends_meant ends.now) }
{
    Ok(NamedEnds {
        source: ends.source.clone()?,
        target: ends.target.clone()?,
        start: copy_instance(&ends.start)?,
        finish: copy_instance(&ends.finish)?,
    })
}

fn copy_transform(named: &NamedTransform) -> Result<NamedTransform, AllocError>
    ensures { IfOk result (λ copy. transform_meant copy ≡ transform_meant named.now) }
{
    Ok(NamedTransform {
        ends: copy_ends(&named.ends)?,
        transform: named.transform.clone()?,
    })
}
