// The rows that the cases begin with.
ghost use Rattle.std.specs.Prelude.{◌≡◌, Some};
ghost use Rattle.qm_model.specs.Common.{Pending, system_user};

use qm_kinds::{
    CharacteristicSet, Entry, EntryState, FileName, Form, JobKind, JobRetain, Mark, Name, Queue,
    QueueKind, QueueRetain, QueueState, Seq, Shape, batch_queue, print_queue, system_user,
};
use std::alloc::Global;

/// A started batch queue with places for two jobs.
pub(crate) fn queue(alloc: Global, name: Name) -> Queue
    ensures { result.node ≡ Some system_user }
{
    Queue {
        name,
        kind: QueueKind::Batch,
        state: QueueState::Started,
        node: Some(system_user()),
        device: Some(print_queue()),
        limit: 2,
        characteristics: CharacteristicSet(7),
        mounted: None,
        lower: 1,
        upper: 2,
        by_size: false,
        retain: QueueRetain::Nothing,
        targets: Seq::new(alloc),
    }
}

/// A pending batch job of two blocks, with the characteristics of numbers 0 and 2.
pub(crate) fn job(number: u32, priority: u8) -> Entry
    ensures number { result.number ≡ number }
    ensures state { result.state ≡ Pending }
{
    Entry {
        number,
        kind: JobKind::Batch,
        home: batch_queue(),
        name: system_user(),
        user: system_user(),
        file: file(),
        size: 2,
        priority,
        after: None,
        held: false,
        retain: JobRetain::Default,
        restart: false,
        characteristics: CharacteristicSet(5),
        form: None,
        copies: 1,
        flag: false,
        mark: Mark::new(b"").unwrap(),
        again: false,
        state: EntryState::Pending,
    }
}

/// The name of a file.
pub(crate) fn file() -> FileName {
    FileName {
        name: system_user(),
        extension: None,
    }
}

/// A form of the stock `SYS$PRINT`.
pub(crate) fn form(name: Name, number: u16) -> Form {
    Form {
        name,
        number,
        stock: print_queue(),
        shape: Shape {
            length: 66,
            width: 132,
            top: 0,
            bottom: 0,
            left: 0,
            right: 0,
            wrap: false,
        },
    }
}
