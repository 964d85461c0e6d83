// What is printed behind the turns: the texts of the nodes, and whose turn each was.
ghost use Rattle.std.specs.Prelude.{◌≡◌, ◌+◌, ◌≤◌, ◌++◌, codes, length, map, true, false};
ghost use Rattle.arrayvec.specs.ArrayVec.{array_vec_len};
ghost use Rattle.qm_cluster.specs.Driving.{node_end};
ghost use Rattle.qm_history.specs.Ends.{cuts_text, texts_printed};
ghost use Rattle.qm_cluster.specs.Gathered.{text_left};
ghost use Rattle.qm_cluster.specs.declared.print.TheConstants.{PIECE_BYTES, PIECE_TURNS};
ghost use Rattle.qm_cluster.specs.Printing.{Writes, name_at, turns_line, words_of};

use crate::join::LeftText;
use arrayvec::ArrayVec;
use qm_disk::{Failed, Sink, write_whole};
use qm_history::Turn;
use qm_kinds::Name;
use qm_node::TurnEnd;

// How many turns one write tells at most.
const PIECE_TURNS: usize = 100;

// In how many bytes: a name has 39 at most, and stands behind a blank.
const PIECE_BYTES: usize = 4000;

// Whether the text of a node that ended so may not be whole.
fn cuts_text(end: &Result<(), TurnEnd>) -> bool
    ensures { result ≡ cuts_text (node_end end.now) }
{
    match end {
        Ok(()) | Err(TurnEnd::HistoryFull) => false,
        Err(TurnEnd::Write | TurnEnd::Damaged { .. } | TurnEnd::NoMemory) => true,
    }
}

// The name of the node whose turn it was.
fn name_of<'a>(names: &'a [Name], turn: &Turn) -> &'a [u8]
    ensures name { result.now ≡ name_at names.now turn.now.node }
    ensures few { length result.now ≤ 39 }
{
    match names.get(turn.node as usize) {
        Some(name) => name.as_bytes(),
        None => &[],
    }
}

// Appends it, behind a blank.
fn push_name(piece: &mut ArrayVec<u8, PIECE_BYTES>, names: &[Name], turn: &Turn)
    requires room { array_vec_len piece.old + 40 ≤ PIECE_BYTES }
    ensures name { piece.new.items
        ≡ piece.old.items ++ (codes " " ++ name_at names.now turn.now.node) }
    ensures few { array_vec_len piece.new ≤ array_vec_len piece.old + 40 }
{
    piece.push(b' ');
    piece.try_extend_from_slice(name_of(names, turn)).unwrap();
}

// The names of the nodes whose turns these are, in their order.
fn piece_of(names: &[Name], turns: &[Turn]) -> ArrayVec<u8, PIECE_BYTES>
    requires { length turns.now ≤ PIECE_TURNS }
    ensures { result.items ≡ words_of names.now turns.now }
{
    let mut piece = ArrayVec::new();
    'turns: for turn in turns {
        push_name(&mut piece, names, turn);
    }
    piece
}

// Writes them, many turns at once: a history may have a million.
fn print_turns<O: Sink>(sink: &mut O, names: &[Name], turns: &[Turn]) -> Result<(), Failed>
    ensures { Writes result (O.taken sink.old) (O.taken sink.new)
        (O.faults sink.old) (O.faults sink.new) (words_of names.now turns.now) }
{
    let mut rest = turns;
    'pieces: while !rest.is_empty() {
        let (first, behind) = rest.split_at(rest.len().min(PIECE_TURNS));
        write_whole(sink, &piece_of(names, first))?;
        rest = behind;
    }
    Ok(())
}

// Writes the last line.
fn print_last<O: Sink>(sink: &mut O, names: &[Name], turns: &[Turn]) -> Result<(), Failed>
    ensures { Writes result (O.taken sink.old) (O.taken sink.new)
        (O.faults sink.old) (O.faults sink.new) (turns_line names.now turns.now) }
{
    write_whole(sink, b"turns:")?;
    print_turns(sink, names, turns)?;
    write_whole(sink, b"\n")
}

/// Writes the texts of the nodes, up to the first one that may not be whole, and behind all of them whose turn each was. It takes
/// no memory.
pub fn print_all<O: Sink>(
    sink: &mut O,
    names: &[Name],
    texts: &[LeftText],
    turns: &[Turn],
) -> Result<(), Failed>
    ensures { Writes result (O.taken sink.old) (O.taken sink.new)
        (O.faults sink.old) (O.faults sink.new)
        (texts_printed (turns_line names.now turns.now) (map text_left texts.now)) }
{
    match texts {
        [] => print_last(sink, names, turns),
        [first, others @ ..] => {
            write_whole(sink, first.text.held())?;
            if cuts_text(&first.end) {
                return Ok(());
            }
            print_all(sink, names, others, turns)
        }
    }
}
