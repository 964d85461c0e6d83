// The records of requests about nodes.
ghost use Rattle.std.specs.Prelude.{◌≡◌, ◌<◌, ◌^◌, ◌++◌, length, OnOk};
ghost use Rattle.qm_bytes.specs.Reading.{GivesKept};
ghost use Rattle.qm_bytes.specs.Spelling.{IsList, IsName};
ghost use Rattle.qm_record.specs.Spelling.{took};
ghost use Rattle.qm_record.specs.Reading.{node_lost_at, took_at};

use crate::element::{both, put_list, read_list};
use qm_bytes::{BadField, Width, put_number, read_number};
use qm_kinds::{Body, Name, Request, Seq};
use std::alloc::{AllocError, Global};

/// Appends the epoch of a takeover, the nodes whose runs are lost, those that are up, and those that may be manager.
pub(crate) fn put_took(
    out: &mut Vec<u8>,
    epoch: u64,
    gone: &Seq<Name>,
    up: &Seq<Name>,
    may: &Seq<Name>,
) -> Result<(), AllocError>
    requires gone { length gone.now < 2 ^ 16 }
    requires up { length up.now < 2 ^ 16 }
    requires may { length may.now < 2 ^ 16 }
    ensures ok { OnOk result (out.new.items ≡ out.old.items ++ took epoch gone.now up.now may.now) }
    ensures epoch { OnOk result (epoch < 2 ^ 64) }
    ensures gone { OnOk result (IsList IsName gone.now) }
    ensures up { OnOk result (IsList IsName up.now) }
    ensures may { OnOk result (IsList IsName may.now) }
{
    put_number(out, Width::Eight, epoch)?;
    put_list(out, gone)?;
    put_list(out, up)?;
    put_list(out, may)?;
    Ok(())
}

/// Reads the nodes that were lost.
#[tactic(auto, unfolding(crate::specs::Reading::node_lost_at))]
#[inline(never)]
pub(crate) fn read_node_lost(
    alloc: Global,
    bytes: &mut &[u8],
) -> Result<Result<Body, AllocError>, BadField>
    ensures { GivesKept result bytes.new.now (node_lost_at bytes.old.now) }
{
    match read_list(alloc, bytes)? {
        Ok(nodes) => Ok(Ok(Body::Ask(Request::NodeLost { nodes }))),
        Err(fault) => Ok(Err(fault)),
    }
}

/// Reads the fields of a takeover.
#[tactic(auto, unfolding(crate::specs::Reading::took_at))]
#[inline(never)]
pub(crate) fn read_took(
    alloc: Global,
    bytes: &mut &[u8],
) -> Result<Result<Body, AllocError>, BadField>
    ensures { GivesKept result bytes.new.now (took_at bytes.old.now) }
{
    let epoch = read_number(bytes, Width::Eight)?;
    let gone = read_list(alloc, bytes)?;
    let up = read_list(alloc, bytes)?;
    let changed = both(gone, up);
    let may = read_list(alloc, bytes)?;
    match both(changed, may) {
        Ok(((gone, up), may)) => Ok(Ok(Body::Ask(Request::Took {
            epoch,
            gone,
            up,
            may,
        }))),
        Err(fault) => Ok(Err(fault)),
    }
}
