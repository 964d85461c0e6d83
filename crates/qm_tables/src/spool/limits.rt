// Whether a limit is passed.
ghost use Rattle.std.specs.Prelude.{◌≡◌, ◌≤◌, ◌+◌, nat_lt};

/// Whether so many bytes more pass a limit.
pub(crate) fn passes(limit: usize, count: usize, more: usize) -> bool
    requires { count ≤ limit }
    ensures { result ≡ nat_lt limit (count + more) }
{
    more > limit - count
}
