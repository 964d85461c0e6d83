// Where a file stands among those that are in order of their names.
ghost use Rattle.qm_model.specs.Common.{file_name_cmp, IsInOrder};
ghost use Rattle.qm_keyed.specs.Places.{IsPlace};

use crate::spool::spooled::Spooled;
use qm_kinds::FileName;

/// Where the file of a name stands, or where one would belong. It asks a logarithm of the files.
pub(crate) fn place_of(files: &[Spooled], name: &FileName) -> Result<usize, usize>
    requires { IsInOrder file_name_cmp (λ f. f.name) files.now }
    ensures { IsPlace file_name_cmp (λ f. f.name) name.now files.now result }
{
    files.binary_search_by(|file| file.name.cmp(name))
}
