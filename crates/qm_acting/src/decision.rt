// A request that was decided on, with the memory that doing it takes.
ghost use Rattle.std.specs.Prelude.{◌≡◌, IfOk};
ghost use Rattle.qm_history.specs.Common.{applied, IsConsistent};
ghost use Rattle.qm_image.specs.Image.{system_of};
ghost use Rattle.qm_image.specs.Refusing.{Refuses};
ghost use Rattle.qm_acting.specs.Asking.{CanBeAsked};
ghost use Rattle.qm_acting.specs.Deciding.{Decides};

use qm_image::{Image, Prepared, Refused};
use qm_kinds::{Moment, Request};
use qm_record::write_request;
use qm_state::prepare;
use std::alloc::Global;

/// A request that the rules accept: its change, and the body of its record.
#[derive(Drop)]
pub(crate) struct Decision<'a> {
    pub(crate) prepared: Prepared<'a>,
    pub(crate) body: Vec<u8>,
}

/// Decides on a request, and takes the memory for its change and for its record. No row is changed.
pub(crate) fn decide<'a>(
    alloc: Global,
    image: &mut Image,
    moment: Moment,
    node: u8,
    request: &'a Request,
) -> Result<Decision<'a>, Refused>
    requires sound { IsConsistent (system_of image.old) }
    requires can { CanBeAsked (system_of image.old) moment node request.now }
    ensures rows { system_of image.new ≡ system_of image.old }
    ensures refused { Refuses result (applied (system_of image.old) moment node request.now) }
    ensures decides { IfOk result
        (Decides (system_of image.old) moment node request.now image.new) }
{
    // A `?` would copy the prepared change more than once.
    let prepared = match prepare(image, moment, node, request) {
        Ok(prepared) => prepared,
        Err(refused) => return Err(refused),
    };
    let body = write_request(alloc, moment, node, request)?;
    Ok(Decision { prepared, body })
}
