// What is wrong with bytes that are no record.
ghost use Rattle.std.specs.Prelude.{◌≡◌};

/// Why bytes aren't a record.
#[derive(Clone, Copy)]
pub enum RecordFault {
    /// The first place, counted from 0, where no record's spelling goes on.
    Bad { place: usize },
    /// Memory ran out for what is a record.
    NoMemory,
}
