// Laws of the fields: what is read is spelled so, what is spelled so is read, whatever follows, and a fault is the first
// one.
ghost use Rattle.std.specs.Prelude.{ℕ, ◌^◌, ◌<◌, ◌≤◌};
ghost use Rattle.qm_bytes.specs.Spelling.{low_first, truth, short_bytes, long_bytes, file_name, set, moment, optional, list, IsName, IsMark, AreLongBytes, IsFileName, IsSet, IsMoment, AllOf, IsList};
ghost use Rattle.qm_bytes.specs.Reading.{number_up_to, truth_at, name_at, mark_at, long_bytes_at, file_name_at, set_at, moment_at, optional_at, list_at};
ghost use Rattle.qm_bytes.specs.Laws.{ReadsAsSpelled};

/// Numbers that are at most a limit are read as they are spelled.
pub fn numbers_are_read_as_spelled()
    ensures { (count limit : ℕ) → limit < 256 ^ count
        → ReadsAsSpelled (λ n. n ≤ limit) (low_first count) (number_up_to count limit) }
{}

/// Each field is read as it is spelled.
pub fn fields_are_read_as_spelled()
    ensures truths { ReadsAsSpelled (λ b. Unit {0}) truth truth_at }
    ensures names { ReadsAsSpelled IsName short_bytes name_at }
    ensures optional_names { ReadsAsSpelled (AllOf IsName) (optional short_bytes)
        (optional_at name_at) }
    ensures lists_of_names { ReadsAsSpelled (IsList IsName) (list short_bytes) (list_at name_at) }
    ensures marks { ReadsAsSpelled IsMark short_bytes mark_at }
    ensures long_bytes { ReadsAsSpelled AreLongBytes long_bytes long_bytes_at }
    ensures file_names { ReadsAsSpelled IsFileName file_name file_name_at }
    ensures sets { ReadsAsSpelled IsSet set set_at }
    ensures moments { ReadsAsSpelled IsMoment moment moment_at }
    ensures optional_moments { ReadsAsSpelled (AllOf IsMoment) (optional moment)
        (optional_at moment_at) }
{}
