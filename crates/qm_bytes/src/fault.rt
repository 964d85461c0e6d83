/// Why no field was read: no field's spelling goes on where so many bytes are left.
#[derive(Clone, Copy, Debug, PartialEq, Eq)]
pub struct BadField {
    pub left: usize,
}
