// What a value says of the turns that led to it, and what one turn does.
ghost use Rattle.std.specs.Prelude.{List};
ghost use Rattle.qm_turn.specs.Turns.{StandsForOneMore};

/// A value that stands for the notes of the turns that led to it.
pub trait Told {
    /// What is noted of a turn. No value of it is made.
    type Note;

    // The value may be the one that turns with these notes left.
    ghost stands: { Self → List Self.Note → Type 0 };
}

/// The work of one turn on a `V`.
pub trait Task<V: Told> {
    /// What the caller of the turn gets.
    type Answer;

    // What is noted of the work, by the task, the value before, the value behind and the answer.
    ghost note: { Self → V → V → Self.Answer → V.Note };

    // What the work does to the value, and what it answers.
    ghost does: { Self → V → V → Self.Answer → Type 0 };

    /// Works on the value, which stands for some notes, and leaves one that stands for these and the note of the work.
    fn work(self, value: &mut V) -> Self::Answer
        requires { (told : List V.Note) × V.stands value.old told }
        ensures does { does self value.old value.new result }
        ensures told { StandsForOneMore V.stands value.old value.new (note self value.old value.new result) };
}
