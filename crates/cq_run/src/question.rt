//! The answer to a question about an instance of a program.
ghost use Rattle.std.specs.Prelude.{◌≡◌, IfOk, map, option_map};
ghost use Rattle.cq_program.specs.Named.{listed_as};
ghost use Rattle.cq_run.specs.Asked.{IsMade, IsReply, IsReplyAbout, instance_named};
ghost use Rattle.cq_run.specs.Writing.{IsMeant};

use crate::status::Status;
use cq_base::Place;
use cq_explain::{QuestionRefusal, explanation};
use cq_program::{Named, refusal_line};
use std::alloc::{AllocError, Global};

/// What is to be written, with the status that the run then has.
#[derive(Drop)]
pub struct Reply {
    pub line: Vec<u8>,
    pub status: Status,
}

/// The place at which it is told that a question has no answer.
const FIRST_PLACE: Place = Place { line: 1, col: 1 };

/// The answer to a question about the instance of a name: the text that explains whether two terms are equal in it, or
/// the line that says why there is none: no instance has the name, or the two texts make no equation.
pub fn reply_to(
    alloc: Global,
    instances: &[Named],
    name: &str,
    left: &str,
    right: &str,
) -> Result<Reply, AllocError>
    requires { IsMeant (map listed_as instances.now) }
    ensures { IfOk result (λ reply. IsReply name.now left.now right.now (map listed_as instances.now) reply.status
        reply.line.items) }
{
    match find_instance(instances, name) {
        Some(named) => reply_about(alloc, named, left, right),
        None => {
            let line = refusal_line(alloc, FIRST_PLACE, 37, "NoInstance")?;
            Ok(Reply {
                line,
                status: Status::Refused,
            })
        }
    }
}

/// The instance of a name.
fn find_instance<'a>(instances: &'a [Named], name: &str) -> Option<&'a Named>
    ensures { option_map (λ named. listed_as named.now) result ≡ instance_named name.now (map listed_as instances.now) }
{
    for named in instances {
        if named.name.as_str() == name {
            return Some(named);
        }
    }
    None
}

/// The answer to a question about this instance.
fn reply_about(alloc: Global, named: &Named, left: &str, right: &str) -> Result<Reply, AllocError>
    requires { IsMade (listed_as named.now) }
    ensures { IfOk result (λ reply. IsReplyAbout (listed_as named.now) left.now right.now reply.status
        reply.line.items) }
{
    let instance = &named.instance;
    instance.is_instance();
    instance.schema().is_well_sorted();
    match explanation(alloc, instance, left.as_bytes(), right.as_bytes()) {
        Ok(line) => Ok(Reply {
            line,
            status: Status::Ok,
        }),
        Err(QuestionRefusal::BadTerm) => {
            let line = refusal_line(alloc, FIRST_PLACE, 38, "BadTerm")?;
            Ok(Reply {
                line,
                status: Status::Refused,
            })
        }
        Err(QuestionRefusal::Memory) => Err(AllocError),
    }
}
