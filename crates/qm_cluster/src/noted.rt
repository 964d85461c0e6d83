use qm_history::{Call, Turn};

/// What is noted of a call. No value of it is made.
#[derive(Drop)]
pub struct Noted {
    pub asked: Call,
    /// The turn that the call left, if it left one.
    pub turn: Option<Turn>,
    /// Whether that turn tells of a disk that failed, and its call wasn't told so.
    pub unread: bool,
}
