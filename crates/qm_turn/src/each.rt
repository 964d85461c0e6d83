// Work at each place of two slices, by threads.
ghost use Rattle.std.specs.Prelude.{◌≡◌, ◌+◌, ◌^◌, ◌<◌, ◌≤◌, ℕ, length};
ghost use Rattle.std.specs.Thread.{IsSend, IsSync};
ghost use Rattle.qm_turn.specs.Each.{CanBeWorkedOn, IsWorkedOn};

use std::marker::{Send, Sync};
use std::thread::{Threads, join_mut};

/// What is done at each place of two slices.
pub trait Work<A, B>: Sync {
    /// It can be done there, on these two.
    ghost can_work: { Self → ℕ → A → B → Type 0 };

    /// It leaves the latter two of the former.
    ghost works: { Self → ℕ → A → B → A → B → Type 0 };

    /// Does it: `first` and `second` are what stands at this place of the two slices.
    fn work(&self, place: usize, first: &mut A, second: &mut B)
        requires { can_work self.now place first.old second.old }
        ensures { works self.now place first.old second.old first.new second.new };
}

// A place alone, or none.
fn work_on_one<A, B, W: Work<A, B>>(work: &W, place: usize, firsts: &mut [A], seconds: &mut [B])
    requires one { length firsts.old ≤ 1 }
    requires can { CanBeWorkedOn (W.can_work work.now) place firsts.old seconds.old }
    ensures { IsWorkedOn (W.works work.now) place firsts.old seconds.old firsts.new seconds.new }
{
    if firsts.is_empty() {
        return;
    }
    work.work(place, &mut firsts[0], &mut seconds[0]);
}

/// Works at each place of two slices, counted from this one on, each by a thread of its own where one can be made.
#[cycle(halves)]
pub fn work_on_each<R: Threads + Sync, A: Send, B: Send, W: Work<A, B>>(
    rt: &R,
    work: &W,
    place: usize,
    firsts: &mut [A],
    seconds: &mut [B],
)
    requires can { CanBeWorkedOn (W.can_work work.now) place firsts.old seconds.old }
    ensures { IsWorkedOn (W.works work.now) place firsts.old seconds.old firsts.new seconds.new }
{
    if firsts.len() < 2 {
        work_on_one(work, place, firsts, seconds);
        return;
    }
    let middle = firsts.len() / 2;
    let (low, high) = firsts.split_at_mut(middle);
    let (left, right) = seconds.split_at_mut(middle);
    work_on_halves(rt, work, place, low, left, place + middle, high, right);
}

// The halves are worked on at once.
#[cycle(halves)]
fn work_on_halves<R: Threads + Sync, A: Send, B: Send, W: Work<A, B>>(
    rt: &R,
    work: &W,
    place: usize,
    low: &mut [A],
    left: &mut [B],
    other: usize,
    high: &mut [A],
    right: &mut [B],
)
    requires some { (0 < length low.old) × (0 < length high.old) }
    requires low { CanBeWorkedOn (W.can_work work.now) place low.old left.old }
    requires high { CanBeWorkedOn (W.can_work work.now) other high.old right.old }
    ensures low { IsWorkedOn (W.works work.now) place low.old left.old low.new left.new }
    ensures high { IsWorkedOn (W.works work.now) other high.old right.old high.new right.new }
{
    let mut front = ||
        requires { IsSync R.row × IsSync W.row × IsSend A.row × IsSend B.row × CanBeWorkedOn (W.can_work work.now) place low.now left.now }
        ensures { IsWorkedOn (W.works work.entry.now) place low.entry.now left.entry.now low.exit.now left.exit.now }
    { work_on_each(rt, work, place, low, left) };
    let mut back = ||
        requires { IsSync R.row × IsSync W.row × IsSend A.row × IsSend B.row × CanBeWorkedOn (W.can_work work.now) other high.now right.now }
        ensures { IsWorkedOn (W.works work.entry.now) other high.entry.now right.entry.now high.exit.now right.exit.now }
    { work_on_each(rt, work, other, high, right) };
    join_mut(rt, &mut front, &mut back);
}
