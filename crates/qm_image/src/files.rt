// Whether a file is there, and how long it is.
ghost use Rattle.std.specs.Prelude.{◌≡◌, ◌≤◌, length, is_some};
ghost use Rattle.qm_model.specs.Common.{FILE_LIMIT, bytes_of, file_named};

use crate::image::Image;
use qm_kinds::FileName;

impl Image {
    /// How many bytes the file has, none where it isn't there.
    pub fn file_size(&self, name: &FileName) -> usize
        ensures value { result ≡ length (bytes_of name.now self.now.spool.files) }
        ensures small { result ≤ FILE_LIMIT }
    {
        match self.spool.bytes(name) {
            None => 0,
            Some(bytes) => bytes.len(),
        }
    }

    /// Whether the file is there.
    pub fn has_file(&self, name: &FileName) -> bool
        ensures { result ≡ is_some (file_named name.now self.now.spool.files) }
    {
        match self.spool.bytes(name) {
            None => false,
            Some(_) => true,
        }
    }
}
