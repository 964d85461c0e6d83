// Records that come behind those of a log, and what the image makes of them.
ghost use Rattle.std.specs.Prelude.{◌≡◌, OnOk};
ghost use Rattle.qm_history.specs.Common.{IsConsistent, after_record, IsNext};
ghost use Rattle.qm_image.specs.Image.{system_of};
ghost use Rattle.qm_world.specs.Following.{IsFollowed, IsJudged};

use crate::copying::spell;
use crate::end::Stop;
use qm_image::{Image, Prepared, Refused};
use qm_kinds::{Body, Moment, Record, Reply, Request};
use qm_restore::can_act;
use qm_state::{commit, prepare};
use std::alloc::{AllocError, Global};

/// A request that can be the next record: that record, and what is prepared of its change.
#[derive(Drop)]
pub(crate) struct Next<'a> {
    pub record: Record,
    pub prepared: Prepared<'a>,
}

/// A request that was done: its record, and what was replied.
#[derive(Drop)]
pub(crate) struct Followed {
    pub record: Record,
    pub reply: Reply,
}

/// Does what a record says that comes next.
pub(crate) fn replay(image: &mut Image, what: &Record) -> Result<(), AllocError>
    requires sound { IsConsistent (system_of image.old) }
    requires next { IsNext (system_of image.old) what.now }
    ensures { OnOk result (system_of image.new ≡ after_record (system_of image.old) what.now) }
{
    let Body::Ask(request) = &what.body else {
        unreachable!()
    };
    match prepare(image, what.moment, what.node, request) {
        Ok(prepared) => {
            commit(image, prepared);
            Ok(())
        }
        Err(_) => Err(AllocError),
    }
}

/// Judges whether a request can be the next record, and prepares its change if it can.
pub(crate) fn judge<'a>(
    alloc: Global,
    image: &mut Image,
    moment: Moment,
    node: u8,
    request: &'a Request,
) -> Result<Next<'a>, Stop>
    requires { IsConsistent (system_of image.old) }
    ensures rows { system_of image.new ≡ system_of image.old }
    ensures judged { IsJudged (system_of image.old) image.new moment node request.now result }
{
    if !can_act(image, moment, node, request) {
        return Err(Stop::Illegal);
    }
    let Some(record) = spell(alloc, moment, node, request)? else {
        return Err(Stop::Illegal);
    };
    match prepare(image, moment, node, request) {
        Ok(prepared) => Ok(Next { record, prepared }),
        Err(Refused::By(_)) => {
            drop(record);
            Err(Stop::Illegal)
        }
        Err(Refused::NoMemory) => {
            drop(record);
            Err(Stop::NoMemory)
        }
    }
}

/// Does a request, if it can be the next record.
pub(crate) fn follow(
    alloc: Global,
    image: &mut Image,
    moment: Moment,
    node: u8,
    request: &Request,
) -> Result<Followed, Stop>
    requires { IsConsistent (system_of image.old) }
    ensures { IsFollowed (system_of image.old)
        (system_of image.new) moment node request.now result }
{
    let Next { record, prepared } = judge(alloc, image, moment, node, request)?;
    let reply = commit(image, prepared);
    Ok(Followed { record, reply })
}
