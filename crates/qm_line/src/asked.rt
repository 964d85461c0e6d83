// What a line of a script of a cluster asks for.
ghost use Rattle.std.specs.Prelude.{◌≡◌, ◌==◌, IfOk, OnErr};
ghost use Rattle.std.specs.List.{list_any};
ghost use Rattle.qm_dcl.specs.Command.{command_of};
ghost use Rattle.qm_dcl.specs.Lines.{or_fault};
ghost use Rattle.qm_script.specs.ClusterLines.{line_sort_view, user_line_view};
ghost use Rattle.qm_script.specs.Extents.{joined};
ghost use Rattle.qm_script.specs.Wanting.{MayTakeMemory};
ghost use Rattle.qm_line.specs.Asked.{line_with};

use qm_dcl::{DclFault, read_command};
use qm_kinds::{Input, Moment, Name};
use qm_scans::Scans;
use qm_script::{LineSort, UserLine, act_asked, items_asked, joined};
use std::alloc::{AllocError, Global};

// A command that can't be read is a fault at its place.
fn read_typed(alloc: Global, text: &[u8], user: Name, now: Moment) -> Result<Input, AllocError>
    ensures { IfOk result (λ input. input ≡ or_fault (command_of user now text.now)) }
{
    match read_command(alloc, text, user, now) {
        Ok(input) => Ok(input),
        Err(DclFault::At { place, kind }) => Ok(Input::Fault { place, kind }),
        Err(DclFault::NoMemory) => Err(AllocError),
    }
}

// Whether a command goes on in a further line.
fn goes_on(text: &[u8]) -> bool
    ensures { result ≡ list_any (λ b. b == 10) text.now }
{
    text.iter().any(|b| *b == b'\n')
}

// A command, with the lines in which it goes on.
#[tactic(auto, using(crate::proofs::Serving::text_as_it_stands))]
fn read_whole(alloc: Global, text: &[u8], user: Name, now: Moment) -> Result<Input, AllocError>
    ensures { IfOk result (λ input. input ≡ or_fault (command_of user now (joined text.now))) }
{
    if goes_on(text) {
        let whole = joined(alloc, text)?;
        read_typed(alloc, &whole, user, now)
    } else {
        read_typed(alloc, text, user, now)
    }
}

/// What a line asks for at a node that has begun these listings and keeps these runs: a command behind a `$`, a call by an item list
/// behind a `#`, or an act at the site behind a `!`. The clock told this moment before; times of a command that are relative count
/// from it. A line that can't be read asks for nothing, and tells its fault. Memory may run out, for an act only where it asks for a
/// request or for the node's runs.
pub fn read_line(
    alloc: Global,
    line: &UserLine<'_>,
    now: Moment,
    scans: &Scans,
    known: &[u64],
) -> Result<Input, AllocError>
    ensures input { IfOk result (λ input. input
        ≡ line_with (user_line_view line.now) now scans.now known.now) }
    ensures no_memory { OnErr result (MayTakeMemory (line_sort_view line.now.sort)
        (line_with (user_line_view line.now) now scans.now known.now)) }
{
    match line.sort {
        LineSort::Command => read_whole(alloc, line.text, line.user, now),
        LineSort::Items => items_asked(alloc, line.text, line.user, scans),
        LineSort::Act => act_asked(alloc, line.text, known),
    }
}
