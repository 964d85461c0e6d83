// The nodes of a script before its first line.
ghost use Rattle.std.specs.Prelude.{◌≡◌, List, length, IfOk};
ghost use Rattle.qm_history.specs.Script.{UserLine as AnyLine, lines_of};
ghost use Rattle.qm_script.specs.ClusterLines.{user_lines_view};
ghost use Rattle.qm_cluster.specs.Fresh.{AreSeated, each_lines, own_view};

use qm_kinds::Name;
use qm_node::Seat;
use qm_script::UserLine;
use qm_symb::Symbiont;
use std::alloc::{AllocError, Global};

// The line once more: field by field, since the kit doesn't copy a struct that holds a slice beside a name.
fn same_line<'a>(line: &UserLine<'a>) -> UserLine<'a>
    ensures { result ≡ line.now }
{
    UserLine {
        number: line.number,
        node: line.node,
        user: line.user,
        sort: line.sort,
        text: line.text,
    }
}

// The lines of one node, in order.
fn lines_of<'a>(
    alloc: Global,
    name: &Name,
    lines: &[UserLine<'a>],
) -> Result<Vec<UserLine<'a>>, AllocError>
    ensures { IfOk result (λ own.
        user_lines_view own.items ≡ lines_of name.now (user_lines_view lines.now)) }
{
    let mut own = Vec::new(alloc);
    'lines: for line in lines {
        if line.node == *name {
            match own.push(same_line(line)) {
                Ok(()) => {}
                Err(_) => return Err(AllocError),
            }
        }
    }
    Ok(own)
}

/// For each of these nodes its lines of a script, in order. Memory may run out.
pub fn own_lines<'a>(
    alloc: Global,
    names: &[Name],
    lines: &[UserLine<'a>],
) -> Result<Vec<Vec<UserLine<'a>>>, AllocError>
    ensures { IfOk result (λ own.
        own_view own.items ≡ each_lines (user_lines_view lines.now) names.now) }
{
    let mut own = Vec::new(alloc);
    'names: for name in names {
        own.push(lines_of(alloc, name, lines)?)?;
    }
    Ok(own)
}

/// For each of these nodes a seat in front of its lines: it is live, and has made no turn. Memory may run out.
pub fn seats_of<'a, Y: Symbiont>(
    alloc: Global,
    names: &[Name],
    own: &'a [Vec<UserLine<'a>>],
) -> Result<Vec<Seat<'a, Y>>, AllocError>
    requires each { length own.now ≡ length names.now }
    ensures { (script : List AnyLine) → own_view own.now ≡ each_lines script names.now
        → IfOk result (λ seats. AreSeated script names.now seats.items) }
{
    let mut seats = Vec::new(alloc);
    'places: for place in 0..names.len() {
        seats.push(Seat::new(alloc, names[place], &own[place]))?;
    }
    Ok(seats)
}
