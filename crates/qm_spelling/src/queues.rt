// Commands of queues.
ghost use Rattle.std.specs.Prelude.{◌≡◌, Some, decimal, option_map};
ghost use Rattle.qm_commands.specs.declared.word.Word.TheVariants as words;
ghost use Rattle.qm_spelling.specs.Pieces.{valued};
ghost use Rattle.qm_spelling.specs.Queues.{queue_characteristics_text, blocks_text, queue_retain_text, queue_settings_text, is_for_batch, targets_text, device_text, location_text, new_queue_text, stop_text, abort_text, schedule_text};

use crate::pieces::{GivenByte, GivenForm, Marked, NamesText, ReferencesText};
use qm_kinds::{Name, NameOrNumber, NewQueue, QueueChange, QueueKind, QueueRetain, Seq, StopMode};
use std::fmt;

/// The qualifiers of what is set for a queue.
#[derive(Clone, Copy)]
pub(crate) struct QueueSettingsText<'a>(pub(crate) &'a QueueChange);

/// `INITIALIZE/QUEUE`
#[derive(Clone, Copy)]
pub(crate) struct NewQueueText<'a>(pub(crate) &'a NewQueue);

/// `STOP/QUEUE` of a queue.
#[derive(Clone, Copy)]
pub(crate) struct StopText<'a> {
    pub(crate) name: &'a Name,
    pub(crate) how: StopMode,
}

/// `STOP/QUEUE` of one of a queue's jobs.
#[derive(Clone, Copy)]
pub(crate) struct AbortText<'a> {
    pub(crate) queue: &'a Name,
    pub(crate) entry: Option<u32>,
    pub(crate) requeue: bool,
}

// The characteristics of a queue, where they are given.
#[derive(Clone, Copy)]
struct QueueCharacteristicsText<'a>(&'a Option<Seq<NameOrNumber>>);

// The least and the greatest size of a job, where they are given.
#[derive(Clone, Copy)]
struct BlocksText(Option<(u32, u32)>);

// The order in which jobs start, where it is given.
#[derive(Clone, Copy)]
struct ScheduleText(Option<bool>);

// Which jobs a queue keeps, where it is given.
#[derive(Clone, Copy)]
struct QueueRetainText(Option<QueueRetain>);

// The queues to which a generic queue passes its jobs on.
#[derive(Clone, Copy)]
struct TargetsText<'a>(&'a Seq<Name>);

// A device of a node.
#[derive(Clone, Copy)]
struct DeviceText(Option<Name>);

// Where a queue stands.
#[derive(Clone, Copy)]
struct LocationText {
    node: Option<Name>,
    device: Option<Name>,
}

// The job that is stopped, where it is given.
#[derive(Clone, Copy)]
struct EntryText(Option<u32>);

impl fmt::Display for QueueCharacteristicsText<'_> {
    ghost output = { λ c. Some (queue_characteristics_text c.0.now) };

    fn fmt<W: fmt::Write>(&self, f: &mut fmt::Formatter<W>) -> fmt::Result {
        match self.0 {
            None => Ok(()),
            Some(characteristics) if characteristics.is_empty() => {
                f.write_str("/NOCHARACTERISTICS")
            }
            Some(characteristics) => write!(
                f,
                "/CHARACTERISTICS={}",
                ReferencesText(characteristics.as_slice())
            ),
        }
    }
}

impl fmt::Display for BlocksText {
    ghost output = { λ b. Some (blocks_text b.0) };

    fn fmt<W: fmt::Write>(&self, f: &mut fmt::Formatter<W>) -> fmt::Result {
        match self.0 {
            None => Ok(()),
            Some((lower, upper)) => {
                if lower == 1 && upper == u32::MAX {
                    f.write_str("/NOBLOCK_LIMIT")
                } else {
                    write!(f, "/BLOCK_LIMIT=({lower},{upper})")
                }
            }
        }
    }
}

impl fmt::Display for ScheduleText {
    ghost output = { λ s. Some (schedule_text s.0) };

    fn fmt<W: fmt::Write>(&self, f: &mut fmt::Formatter<W>) -> fmt::Result {
        match self.0 {
            None => Ok(()),
            Some(true) => f.write_str("/SCHEDULE=SIZE"),
            Some(false) => f.write_str("/SCHEDULE=NOSIZE"),
        }
    }
}

impl fmt::Display for QueueRetainText {
    ghost output = { λ r. Some (queue_retain_text r.0) };

    fn fmt<W: fmt::Write>(&self, f: &mut fmt::Formatter<W>) -> fmt::Result {
        match self.0 {
            None => Ok(()),
            Some(QueueRetain::Nothing) => f.write_str("/NORETAIN"),
            Some(QueueRetain::Failed) => f.write_str("/RETAIN=ERROR"),
            Some(QueueRetain::All) => f.write_str("/RETAIN=ALL"),
        }
    }
}

impl fmt::Display for QueueSettingsText<'_> {
    ghost output = { λ s. Some (queue_settings_text s.0.now) };

    fn fmt<W: fmt::Write>(&self, f: &mut fmt::Formatter<W>) -> fmt::Result {
        let change = self.0;
        let limit = GivenByte {
            qualifier: "JOB_LIMIT",
            value: change.limit,
        };
        let characteristics = QueueCharacteristicsText(&change.characteristics);
        let form = GivenForm {
            qualifier: "FORM_MOUNTED",
            value: change.form,
        };
        let blocks = BlocksText(change.blocks);
        let schedule = ScheduleText(change.by_size);
        let retain = QueueRetainText(change.retain);
        write!(
            f,
            "{limit}{characteristics}{form}{blocks}{schedule}{retain}"
        )
    }
}

impl fmt::Display for TargetsText<'_> {
    ghost output = { λ t. Some (targets_text t.0.now) };

    fn fmt<W: fmt::Write>(&self, f: &mut fmt::Formatter<W>) -> fmt::Result {
        if self.0.is_empty() {
            Ok(())
        } else {
            write!(f, "/GENERIC={}", NamesText(self.0.as_slice()))
        }
    }
}

impl fmt::Display for DeviceText {
    ghost output = { λ d. Some (device_text d.0) };

    fn fmt<W: fmt::Write>(&self, f: &mut fmt::Formatter<W>) -> fmt::Result {
        match self.0 {
            None => Ok(()),
            Some(device) => write!(f, "{device}:"),
        }
    }
}

impl fmt::Display for LocationText {
    ghost output = { λ l. Some (location_text l.node l.device) };

    fn fmt<W: fmt::Write>(&self, f: &mut fmt::Formatter<W>) -> fmt::Result {
        match self.node {
            None => Ok(()),
            Some(node) => write!(f, "/ON={node}::{}", DeviceText(self.device)),
        }
    }
}

impl fmt::Display for NewQueueText<'_> {
    ghost output = { λ q. Some (new_queue_text q.0.now) };

    fn fmt<W: fmt::Write>(&self, f: &mut fmt::Formatter<W>) -> fmt::Result {
        let new = self.0;
        let batch = Marked {
            qualifier: "BATCH",
            given: is_for_batch(new.kind),
        };
        let targets = TargetsText(&new.targets);
        let location = LocationText {
            node: new.node,
            device: new.device,
        };
        let start = Marked {
            qualifier: "START",
            given: new.start,
        };
        let settings = QueueSettingsText(&new.change);
        write!(
            f,
            "INITIALIZE/QUEUE {}{batch}{targets}{location}{start}{settings}",
            new.name
        )
    }
}

impl fmt::Display for StopText<'_> {
    ghost output = { λ s. Some (stop_text s.name.now s.how) };

    fn fmt<W: fmt::Write>(&self, f: &mut fmt::Formatter<W>) -> fmt::Result {
        match self.how {
            StopMode::Pause => write!(f, "STOP/QUEUE {}", self.name),
            StopMode::Next => write!(f, "STOP/QUEUE {}/NEXT", self.name),
            StopMode::Reset => write!(f, "STOP/QUEUE {}/RESET", self.name),
        }
    }
}

impl fmt::Display for EntryText {
    ghost output = { λ e. Some (valued words.Entry (option_map decimal e.0)) };

    fn fmt<W: fmt::Write>(&self, f: &mut fmt::Formatter<W>) -> fmt::Result {
        match self.0 {
            None => Ok(()),
            Some(entry) => write!(f, "/ENTRY={entry}"),
        }
    }
}

impl fmt::Display for AbortText<'_> {
    ghost output = { λ a. Some (abort_text a.queue.now a.entry a.requeue) };

    fn fmt<W: fmt::Write>(&self, f: &mut fmt::Formatter<W>) -> fmt::Result {
        let abort = Marked {
            qualifier: "ABORT",
            given: !self.requeue,
        };
        let requeue = Marked {
            qualifier: "REQUEUE",
            given: self.requeue,
        };
        let entry = EntryText(self.entry);
        write!(f, "STOP/QUEUE {}{abort}{requeue}{entry}", self.queue)
    }
}

// Whether a queue of this kind is for batch jobs.
fn is_for_batch(kind: QueueKind) -> bool
    ensures { result ≡ is_for_batch kind }
{
    match kind {
        QueueKind::Batch | QueueKind::GenericBatch => true,
        QueueKind::Print | QueueKind::GenericPrint => false,
    }
}
