// What the value of an item is.

/// What the value of an item is. Numbers of several bytes have the lowest byte first.
#[derive(Clone, Copy)]
pub enum Holds {
    /// No bytes.
    Nothing,
    /// One byte.
    Byte,
    /// Two bytes.
    Short,
    /// Four bytes.
    Long,
    /// One byte, 0 or 1.
    Truth,
    /// Two bytes, up to 255.
    CharacteristicNumber,
    /// One byte, 1 to 3: pause, next, reset.
    How,
    /// One byte, 1 to 4.
    QueueKind,
    /// One byte, 1 or 2.
    JobKind,
    /// One byte, 0 to 2.
    QueueRetain,
    /// One byte, 0 to 2; or 3, and a moment.
    JobRetain,
    /// Eight bytes, a moment; or none.
    Moment,
    /// Seven bytes, of which the last is 0 or 1.
    Shape,
    /// A name.
    Name,
    /// A name of at most 31 bytes.
    ShortName,
    /// A name of at most 6 bytes.
    NodeName,
    /// A name of at most 31 bytes that isn't digits alone.
    DefinableName,
    /// The name of a file.
    File,
    /// A name of at most 31 bytes, or the digits of a number up to 65,535.
    Reference,
    /// The same, or nothing, where no other one is given.
    Characteristic,
    /// A pattern of names.
    Pattern,
    /// One byte at least.
    Bytes,
}
