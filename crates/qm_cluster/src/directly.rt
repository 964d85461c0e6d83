// The queue manager itself, where one thread serves all nodes.
ghost use Rattle.std.specs.Prelude.{◌≡◌, ◌<◌, length};
ghost use Rattle.qm_history.specs.Serving.{Serves};

use qm_history::{Answer, Call, Serve};
use qm_kinds::Moment;
use qm_node::Ask;
use std::marker::Model;

/// A queue manager that nodes ask directly, one call behind another. Contracts see the queue manager.
#[derive(Drop)]
pub struct Directly<S> {
    manager: S,
}

impl<S> Model for Directly<S> {
    ghost Value = { S };

    ghost view = { λ directly. directly.manager };
}

impl<S> Directly<S> {
    /// This queue manager, to be asked directly.
    pub fn new(manager: S) -> Directly<S>
        ensures { result ≡ manager }
    {
        Directly { manager }
    }

    /// The queue manager.
    pub fn manager(&self) -> &S
        ensures { result.now ≡ self.now }
    {
        &self.manager
    }

    /// Hands the queue manager out.
    pub fn into_manager(self) -> S
        ensures { result ≡ self }
    {
        let Directly { manager } = self;
        manager
    }
}

impl<S: Serve> Ask for Directly<S> {
    ghost use Rattle.std.specs.Prelude.{◌<◌, length};
    ghost use Rattle.qm_history.specs.Serving.{Serves};

    ghost can_ask = { λ manager node. S.meaning.serves manager × (node < length (S.meaning.nodes manager)) };

    ghost asks = { λ old new node now asked told. Serves S.meaning node now asked old new told };

    fn ask(&mut self, node: u8, now: Moment, call: Call) -> Answer {
        self.manager.serve(node, now, call)
    }
}
