// What keeps the bodies of records.
ghost use Rattle.std.specs.Prelude.{◌≡◌, ◌<◌, ℕ, List, length, slice_get, Some};
ghost use Rattle.qm_glog.specs.Log.{bodies_of};

use qm_glog::Log;

/// The bodies of records, one behind another, as a log keeps them.
pub trait Bodies {
    /// The first one first.
    ghost bodies: { Self → List (List ℕ) };

    /// How many there are.
    fn count(&self) -> usize
        ensures { result ≡ length (bodies self.now) };

    /// The body of an index; the first has index 0.
    fn body(&self, index: usize) -> &[u8]
        requires { index < length (bodies self.now) }
        ensures { slice_get (bodies self.now) index ≡ Some result.now };
}

impl Bodies for Log {
    ghost bodies = { bodies_of };

    fn count(&self) -> usize {
        Log::count(self)
    }

    fn body(&self, index: usize) -> &[u8] {
        self.record(index)
    }
}
