/// Where a record in doubt would stand: in this queue file, behind so many records.
#[derive(Clone, Copy)]
pub struct Place {
    pub(crate) file: u8,
    pub(crate) before: usize,
}
