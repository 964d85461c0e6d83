// What a pass knows, as the rule of the turnstile sees it. No value of these types is made.

use std::collections::LinkedList;

/// Where a pass stands.
pub enum Phase {
    /// It has no ticket.
    Rests,
    /// It has this ticket, and waits.
    Waits(u64),
    /// It has this ticket, and the value.
    Served(u64),
    /// It was joined into another.
    Spent,
}

/// What a pass knows.
pub struct View<N> {
    pub number: u32,
    /// The history so far, as it was seen: the number of each turn's pass, and its note.
    pub seen: LinkedList<(u32, N)>,
    /// What a pass that was joined into this one had seen, until the next look.
    pub heard: LinkedList<(u32, N)>,
    /// The notes of this pass's own turns.
    pub mine: LinkedList<N>,
    /// The numbers of the passes that were joined into this one, with the notes of their turns.
    pub took: LinkedList<(u32, LinkedList<N>)>,
    /// How many numbers were given to passes, where this pass gives them, and else 0.
    pub given: u32,
    pub phase: Phase,
}
