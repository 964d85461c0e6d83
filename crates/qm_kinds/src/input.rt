// What a call hands in.
ghost use Rattle.std.specs.Prelude.{◌≡◌, IfOk};

use crate::boxed::Boxed;
use crate::name::Name;
use crate::query::Query;
use crate::refusal::ParseKind;
use crate::request::Request;
use crate::seq::Seq;
use std::alloc::{AllocError, Global};

/// What a line of a script asks for.
#[derive(Drop)]
pub enum Input {
    Ask(Boxed<Request>),
    Show(Query),
    Compact,
    /// The runs of the node. The node has what it needs for those that it knows.
    Fetch { known: Seq<u64> },
    StopNode,
    StartNode,
    /// Without a list the nodes on which the queue manager may run stay as they are. An empty list names all nodes.
    TakeManager { on: Option<Seq<Name>> },
    /// The line can't be read from this byte of its command on.
    Fault { place: usize, kind: ParseKind },
}

impl Input {
    /// A request is asked for. It takes memory for the request.
    pub fn asking(alloc: Global, request: Request) -> Result<Input, AllocError>
        ensures { IfOk result (λ input. input ≡ Input.Ask request) }
    {
        Ok(Input::Ask(Boxed::new(alloc, request)?))
    }
}
