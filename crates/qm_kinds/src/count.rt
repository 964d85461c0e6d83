// Sizes in blocks, and what a completion status says.
ghost use Rattle.std.specs.Prelude.{◌≡◌};
ghost use Rattle.qm_kinds.specs.Sizes.{blocks_of, is_success};

/// The size of a file of so many bytes, in blocks of 512 bytes: at least 1.
pub fn blocks(bytes: u64) -> u64
    ensures { result ≡ blocks_of bytes }
{
    bytes.div_ceil(512).max(1)
}

/// Whether a completion status says that all went well: its low bit is set.
pub fn success(status: u32) -> bool
    ensures { result ≡ is_success status }
{
    status % 2 == 1
}
