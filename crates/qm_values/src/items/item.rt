// An item.
use qm_kinds::Seq;

/// A code and its value. What a code stands for, and which form its value has, isn't judged here.
#[derive(Drop)]
pub struct Item {
    pub code: u16,
    /// Its bytes: at most 65,535 in a list.
    pub value: Seq<u8>,
}
