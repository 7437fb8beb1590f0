//! Queries of an environment that are made when they are used.
ghost use Rattle.std.specs.Prelude.{◌≡◌, IfOk, IfSome, Some, None};
ghost use Rattle.cq_environment.specs.Meanings.{meant_by, moved_under};
ghost use Rattle.cq_environment.specs.Environment.{environment_of, meant};

use crate::environment::{Bound, Environment, Meaning};
use cq_base::Name;
use cq_lazy::LazyQuery;
use cq_syntax::{Body, InstanceExp, Spot, TransformExp};
use std::alloc::{AllocError, Global};
use std::rc::Rc;

impl Environment {
    /// Makes the query that a declaration uses to answer or to read backwards, if it is a composite that isn't made
    /// yet, and keeps it: so it is made once. What each name stands for stays the same, also where memory is wanting.
    pub fn make_used(&mut self, alloc: Global, body: &Body) -> Result<(), AllocError>
        ensures { environment_of self.new.names.entries ≡ environment_of self.old.names.entries }
    {
        match find_query(body) {
            Some(used) => keep_made(alloc, self, &used.name),
            None => Ok(()),
        }
    }
}

/// The name that a declaration uses as that of a query, if it may be one.
fn find_query(body: &Body) -> Option<&Spot> {
    match body {
        Body::Instance(InstanceExp::Eval(used, _)) => Some(used),
        Body::Instance(InstanceExp::Coeval(used, _)) => Some(used),
        Body::Transform(TransformExp::Move(_, used, _, _, _)) => Some(used),
        _ => None,
    }
}

/// Puts the made query of a name in place of one that isn't made.
fn keep_made(alloc: Global, env: &mut Environment, name: &Name) -> Result<(), AllocError>
    ensures { environment_of env.new.names.entries ≡ environment_of env.old.names.entries }
{
    match make_under(alloc, env, name)? {
        Some(bound) => replace(alloc, env, name, bound),
        None => Ok(()),
    }
}

/// Puts what a name stands for in its place once more.
fn replace(
    alloc: Global,
    env: &mut Environment,
    name: &Name,
    bound: Bound,
) -> Result<(), AllocError>
    requires meaning { meant_by (environment_of env.old.names.entries) name.now ≡ Some (meant bound.meaning) }
    requires moved { moved_under (environment_of env.old.names.entries) name.now ≡ bound.moved }
    ensures { environment_of env.new.names.entries ≡ environment_of env.old.names.entries }
{
    let key = name.clone()?;
    let bound = Box::new(alloc, bound)?;
    env.names.insert(key, bound)?;
    Ok(())
}

/// The made query of a name for which one stands that isn't made.
fn make_under(alloc: Global, env: &Environment, name: &Name) -> Result<Option<Bound>, AllocError>
    ensures { IfOk result (λ found. IfSome found (λ bound.
        (meant_by (environment_of env.now.names.entries) name.now ≡ Some (meant bound.meaning))
        × (moved_under (environment_of env.now.names.entries) name.now ≡ bound.moved))) }
{
    if env.moved(name).is_some() {
        return Ok(None);
    }
    match env.find(name) {
        Some(meaning) => bound_of(alloc, meaning),
        None => Ok(None),
    }
}

/// The made query in place of one that isn't made, as a meaning that no operation moved.
fn bound_of(alloc: Global, meaning: &Meaning) -> Result<Option<Bound>, AllocError>
    ensures { IfOk result (λ found. IfSome found (λ bound. (meant bound.meaning ≡ meant meaning.now)
        × (bound.moved ≡ None))) }
{
    match meaning {
        Meaning::Query(source, target, query) => match make_query(alloc, query)? {
            Some(query) => Ok(Some(Bound {
                meaning: Meaning::Query(source.clone()?, target.clone()?, query),
                moved: None,
            })),
            None => Ok(None),
        },
        _ => Ok(None),
    }
}

/// The query made, if it isn't.
fn make_query(alloc: Global, query: &LazyQuery) -> Result<Option<Rc<LazyQuery>>, AllocError>
    ensures { IfOk result (λ found. IfSome found (λ made. made.value ≡ query.now)) }
{
    if query.is_made() {
        return Ok(None);
    }
    let made = query.made(alloc)?;
    Ok(Some(Rc::new(alloc, made)?))
}
