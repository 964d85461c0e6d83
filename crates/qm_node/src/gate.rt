// What a node comes by at its turns.

/// Where a node is at its turns.
#[derive(Clone, Copy, Debug, PartialEq, Eq)]
pub enum Point {
    /// Just before a turn.
    BeforeTurn,
    /// Just behind a turn.
    AfterTurn,
    /// Just before a step of a run.
    InStep,
}

/// What a node comes by at its turns, and may be held at by a test. It has no meaning.
pub trait Gate {
    /// Lets the node pass.
    fn at(&mut self, point: Point);
}

/// A gate that holds nobody.
#[derive(Clone, Copy, Debug, Drop)]
pub struct OpenGate;

impl Gate for OpenGate {
    fn at(&mut self, _point: Point) {}
}
