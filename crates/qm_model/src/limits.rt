// The limits of a site.
ghost use Rattle.std.specs.Prelude.{◌≡◌, ◌^◌};
ghost use Rattle.qm_kinds.specs.declared.limits.TheConstants.{NODES_LIMIT, QUEUES_LIMIT, TARGETS_LIMIT, LAST_FORM, LAST_CHARACTERISTIC, ENTRIES_LIMIT, FILES_LIMIT, FILE_LIMIT, SPOOL_LIMIT, RUNS_LIMIT, END_OF_RUNS};

/// The limits that the definitions of a system name are these.
pub fn a_site_has_limits()
    ensures nodes { NODES_LIMIT ≡ 8 }
    ensures queues { QUEUES_LIMIT ≡ 256 }
    ensures targets { TARGETS_LIMIT ≡ 32 }
    ensures forms { LAST_FORM ≡ 999 }
    ensures characteristics { LAST_CHARACTERISTIC ≡ 127 }
    ensures entries { ENTRIES_LIMIT ≡ 65536 }
    ensures files { FILES_LIMIT ≡ 4096 }
    ensures bytes_of_a_file { FILE_LIMIT ≡ 1048576 }
    ensures bytes_of_all_files { SPOOL_LIMIT ≡ 67108864 }
    ensures runs { RUNS_LIMIT ≡ 2 ^ 62 }
    ensures end_of_runs { END_OF_RUNS ≡ 2 ^ 63 }
{}
