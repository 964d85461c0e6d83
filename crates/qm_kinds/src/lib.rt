//! The types of a queue system: names, moments, forms, queues, jobs, requests, replies and refusals, and the rules
//! that each value of one keeps. What a request does to a system is said in the model, above.
#![tactic(auto)]

mod boxed;
mod count;
mod entry;
mod fault;
mod file;
mod form;
mod input;
mod known;
mod limits;
mod listed;
mod mark;
mod moment;
mod name;
mod packed;
mod pattern;
mod plain;
mod query;
mod queue;
mod record;
mod refusal;
mod reply;
mod request;
mod request_kind;
mod run;
mod script;
mod seq;
mod short_bytes;
mod status;
mod system;
mod wildcards;
mod work;

pub use boxed::Boxed;
pub use count::{blocks, success};
pub use entry::{Entry, EntryState, Fate, JobKind, JobRetain};
pub use fault::{MarkFault, NameFault};
pub use file::{File, FileName};
pub use form::{Characteristic, CharacteristicSet, Form, Shape};
pub use input::Input;
pub use known::{batch_queue, default_form, print_queue, system_user};
pub use limits::{
    END_OF_RUNS, ENTRIES_LIMIT, FILE_LIMIT, FILES_LIMIT, GREATEST_CAP, LAST_CHARACTERISTIC,
    LAST_FORM, LEAST_CAP, NODES_LIMIT, QUEUES_LIMIT, RUNS_LIMIT, SPOOL_LIMIT, TARGETS_LIMIT,
    TEXT_LIMIT,
};
pub use listed::ListedEntry;
pub use mark::Mark;
pub use moment::{DAY, LAST_MOMENT, Moment};
pub use name::{NODE_NAME_BYTES, Name, SHORT_NAME_BYTES, is_name_byte};
pub use pattern::Pattern;
pub use query::{After, Kinds, Listing, Query, Row};
pub use queue::{NewQueue, Queue, QueueChange, QueueKind, QueueRetain, QueueState};
pub use record::{Body, Record};
pub use refusal::{Holder, ParseKind, Refusal};
pub use reply::{Act, Reply};
pub use request::{EntryChange, Job, NameOrNumber, Request, StopMode};
pub use request_kind::{RequestKind, each_kind_has_a_number};
pub use run::{Run, Start};
pub use script::ScriptKind;
pub use seq::Seq;
pub use status::{ABORTED_STATUS, NORMAL_STATUS};
pub use system::{Node, System};
pub use work::{Duty, Place, Report, Work};
