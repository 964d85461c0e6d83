// With what a queue manager began.

use std::marker::Brand;

/// With what a queue manager began that nodes share in turns. It is known in proofs alone: the call that starts the nodes' threads
/// picks it.
pub trait Begins<S> {
    ghost use Rattle.std.specs.Prelude.{List};

    /// The queue manager as it was then, alone.
    ghost began: { List S };
}

impl<S> Begins<S> for Brand {
    ghost use Rattle.std.specs.Prelude.{[]};

    ghost began = { [] };
}
