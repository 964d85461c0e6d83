// Names of queues, byte by byte: most are short and differ early, so a plain loop tells two apart sooner than a comparison in groups.
ghost use Rattle.std.specs.Prelude.{◌≡◌, bytes_eq};
ghost use Rattle.qm_keyed.specs.Places.{IsPlace};
ghost use Rattle.qm_model.specs.Common.{IsInOrder, name_cmp};

use qm_kinds::{Name, Queue};
use std::cmp::Ordering;

// How two texts stand: byte by byte, and one before those that begin with it.
fn order_of(text: &[u8], other: &[u8]) -> Ordering
    ensures { result ≡ name_cmp text.now other.now }
{
    let both = text.len().min(other.len());
    let mut place = 0;
    while place < both {
        if text[place] != other[place] {
            return text[place].cmp(&other[place]);
        }
        place += 1;
    }
    text.len().cmp(&other.len())
}

// How two names stand.
fn order(name: &Name, other: &Name) -> Ordering
    ensures { result ≡ name_cmp name.now other.now }
{
    order_of(name.as_bytes(), other.as_bytes())
}

/// Whether two names are the same.
pub(crate) fn is_same(name: &Name, other: &Name) -> bool
    ensures { result ≡ bytes_eq name.now other.now }
{
    order(name, other).is_eq()
}

/// Where the queue of a name stands, or where one would belong. It asks a logarithm of the queues.
pub(crate) fn place_of(queues: &[Queue], name: &Name) -> Result<usize, usize>
    requires { IsInOrder name_cmp (λ q. q.name) queues.now }
    ensures { IsPlace name_cmp (λ q. q.name) name.now queues.now result }
{
    queues.binary_search_by(|queue| order(&queue.name, name))
}
