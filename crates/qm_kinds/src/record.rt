// What a record of a log says.
use crate::entry::Entry;
use crate::file::File;
use crate::form::{Characteristic, Form};
use crate::moment::Moment;
use crate::name::Name;
use crate::queue::Queue;
use crate::request::Request;
use crate::seq::Seq;
use crate::system::Node;

/// A record of a queue file: a request that was accepted, or a row of an image.
#[derive(Drop)]
pub struct Record {
    /// The moment at which the request acted. A row has the base of the system time.
    pub moment: Moment,
    /// The place in the cluster of the node that asked, counted from 0. A row has 0.
    pub node: u8,
    pub body: Body,
}

/// What a record says.
#[derive(Drop)]
pub enum Body {
    Ask(Request),
    /// The first row of an image: what the system has once.
    Head {
        nodes: Seq<Node>,
        may: Seq<Name>,
        next_entry: u32,
        next_run: u64,
        last: Moment,
    },
    Form(Form),
    Characteristic(Characteristic),
    File(File),
    Queue(Queue),
    Entry(Entry),
}
