// A reply that is told twice.
ghost use Rattle.std.specs.Prelude.{◌≡◌, ◌≤◌, [], length, vec_capacity};

use qm_kinds::{Reply, Seq, Start};

/// What a request did, for the two that want to know it.
#[derive(Drop)]
pub struct Replies {
    /// For whoever keeps the turn.
    pub kept: Reply,
    /// For whoever asked.
    pub told: Reply,
}

// The same reply, in memory that was taken before.
pub(crate) fn copy_of(reply: &Reply, room: Vec<Start>) -> Reply
    requires empty { room.items ≡ [] }
    requires room { length reply.now.started ≤ vec_capacity room }
    ensures { result ≡ reply.now }
{
    let mut started = room;
    for start in reply.started.as_slice() {
        started.push_reserved(*start);
    }
    Reply {
        act: reply.act,
        started: Seq::of(started),
    }
}
