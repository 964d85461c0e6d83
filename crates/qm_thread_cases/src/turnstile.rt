// Threads that add to one number in turns.
ghost use Rattle.std.specs.Prelude.{◌≡◌, ℕ, ◌<◌, ◌≤◌, map, length, slice_index_or, IfSome, All};
ghost use Rattle.std.specs.List.{range_with_len};

use qm_turn::{PassOf, Task, Told, Turnstile};
use std::alloc::Global;
use std::marker::Sync;
use std::sync::Wait;
use std::test::Fail;
use std::thread;
use std::thread::Threads;

// A number, which stands at its most where more would be added.
#[derive(Drop)]
struct Number {
    value: u64,
}

impl Told for Number {
    ghost use Rattle.std.specs.Prelude.{◌≡◌, ◌^◌, ◌-◌, min, sum};

    type Note = u64;

    ghost stands = { λ number notes. number.value ≡ min (sum notes) (2 ^ 64 - 1) };
}

// Adds to the number, and answers what it was.
#[derive(Drop)]
struct Add {
    by: u64,
}

impl Task<Number> for Add {
    ghost use Rattle.std.specs.Prelude.{◌≡◌, ◌+◌, ◌^◌, ◌-◌, min};

    type Answer = u64;

    ghost note = { λ task before after answer. task.by };

    ghost does = { λ task before after answer. (answer ≡ before.value) × (after.value ≡ min (before.value + task.by) (2 ^ 64 - 1)) };

    fn work(self, number: &mut Number) -> u64 {
        let found = number.value;
        number.value = found.saturating_add(self.by);
        found
    }
}

// What a thread did with its pass.
#[derive(Drop)]
struct Worked {
    pass: PassOf<Number>,
    found: u64,
    rising: bool,
}

// Takes so many turns.
fn take_turns<R: Wait>(
    rt: &R,
    turnstile: &Turnstile<Number>,
    mut pass: PassOf<Number>,
    turns: u32,
) -> Worked
    requires { pass.place ≡ turnstile.now.place }
    ensures { (result.pass.place ≡ pass.place) × (result.pass.number ≡ pass.number) }
{
    let mut sum = 0u64;
    let mut next = 0u64;
    let mut rising = true;
    for _turn in 0..turns {
        if let Ok(found) = turnstile.turn(rt, &mut pass, Add { by: 1 }) {
            sum = sum.saturating_add(found);
            rising &= found >= next;
            next = found.saturating_add(1);
        }
    }
    Worked {
        pass,
        found: sum,
        rising,
    }
}

// Joins all passes, and closes. Answers the number, what all turns found together, and whether what each pass found rose.
fn close_all(turnstile: Turnstile<Number>, mut all: Vec<Worked>) -> (u64, u64, bool)
    requires here { All (λ w. w.pass.place ≡ turnstile.place) all.items }
    requires numbers { map (λ w. w.pass.number) all.items ≡ range_with_len 0 turnstile.passes }
    requires some { 1 ≤ turnstile.passes }
{
    let Some(
        Worked {
            mut pass,
            mut found,
            mut rising,
        },
    ) = all.pop()
    else {
        unreachable!()
    };
    while let Some(worked) = all.pop() {
        let Worked {
            pass: other,
            found: more,
            rising: too,
        } = worked;
        turnstile.join(&mut pass, other);
        found = found.saturating_add(more);
        rising &= too;
    }
    (turnstile.close(pass).value, found, rising)
}

// Takes so many turns with each pass, in a thread of its own.
fn work<R: Threads + Wait + Sync>(
    rt: &R,
    turnstile: &Turnstile<Number>,
    list: Vec<PassOf<Number>>,
    turns: u32,
) -> Option<Vec<Worked>>
    requires { All (λ p. p.place ≡ turnstile.now.place) list.items }
    ensures here { IfSome result (λ all. All (λ w. w.pass.place ≡ turnstile.now.place) all.items) }
    ensures count { IfSome result (λ all. length all.items ≡ length list.items) }
    ensures numbers { IfSome result (λ all. (i : ℕ) (d : _) (e : _) → i < length list.items → (slice_index_or all.items i d).pass.number ≡ (slice_index_or list.items i e).number) }
{
    thread::map_vec(
        rt,
        list,
        &|pass| -> Worked
            requires { pass.place ≡ turnstile.now.place }
            ensures { (result.pass.place ≡ pass.place) × (result.pass.number ≡ pass.number) }
        { take_turns(rt, turnstile, pass, turns) },
    )
    .ok()
}

fn in_threads<R: Threads + Wait + Sync>(
    rt: &R,
    alloc: Global,
    passes: u32,
    turns: u32,
) -> Option<(u64, u64, bool)>
    requires some { 1 ≤ passes }
    requires few { passes ≤ 64 }
{
    let Ok((turnstile, list)) = Turnstile::open(alloc, Number { value: 0 }, passes) else {
        return None;
    };
    let worked = work(rt, &turnstile, list, turns)?;
    Some(close_all(turnstile, worked))
}

// Asks how many turns have ended, with a pass of its own, within a turn.
#[derive(Drop)]
struct Ask<'a> {
    turnstile: &'a Turnstile<Number>,
    pass: PassOf<Number>,
    ghost here: { pass.place ≡ turnstile.now.place },
}

impl<'a> Task<Number> for Ask<'a> {
    ghost use Rattle.std.specs.Prelude.{◌≡◌};

    type Answer = (u64, PassOf<Number>);

    ghost note = { λ task before after answer. 0 };

    ghost does = { λ task before after answer. (answer.1.place ≡ task.pass.place) × (answer.1.number ≡ task.pass.number) };

    fn work(self, number: &mut Number) -> (u64, PassOf<Number>) {
        let _ = &number.value;
        let Ask {
            turnstile,
            mut pass,
        } = self;
        let ended = turnstile.news(&mut pass);
        (ended, pass)
    }
}

// A turn with each of two passes, the news of the first, the news of the second within a turn of the first, and what is left.
fn with_two_passes<R: Wait>(rt: &R, alloc: Global) -> Option<(u64, u64, u64)> {
    let Ok((turnstile, mut list)) = Turnstile::open(alloc, Number { value: 0 }, 2) else {
        return None;
    };
    let mut second = list.pop()?;
    let mut first = list.pop()?;
    turnstile.turn(rt, &mut first, Add { by: 1 }).ok()?;
    turnstile.turn(rt, &mut second, Add { by: 1 }).ok()?;
    let ended = turnstile.news(&mut first);
    let ask = Ask {
        turnstile: &turnstile,
        pass: second,
    };
    let (within, second) = turnstile.turn(rt, &mut first, ask).ok()?;
    turnstile.join(&mut first, second);
    Some((ended, within, turnstile.close(first).value))
}

#[test]
fn each_turn_finds_what_the_one_before_left(rt: HostRuntime) -> Result<(), Fail> {
    for (passes, turns, last, found) in [
        (1, 3, 3, 3),
        (4, 1000, 4000, 7998000),
        (8, 50, 400, 79800),
        (64, 2, 128, 8128),
    ] {
        let got = in_threads(&rt, rt.alloc(), passes, turns);
        assert_eq!(rt; got, Some((last, found, true)), "{passes} passes");
    }
    Ok(())
}

#[test]
fn news_waits_for_nobody(rt: HostRuntime) -> Result<(), Fail> {
    assert_eq!(rt; with_two_passes(&rt, rt.alloc()), Some((2, 2, 2)));
    Ok(())
}
