// What an act at a site asks for, and how many steps a line allows.
ghost use Rattle.std.specs.Prelude.{◌≡◌, true, IfOk, OnErr, Some};
ghost use Rattle.qm_model.specs.Script.{steps_in};
ghost use Rattle.qm_history.specs.Common.{cut_at_blank, steps_asked};
ghost use Rattle.qm_history.specs.Acts.{act_asked, bytes_act, bytes_by, hex_bytes, step_act, word_act};
ghost use Rattle.qm_script.specs.Asked.{can_be_added};
ghost use Rattle.qm_script.specs.ClusterLines.{line_sort_view, whole};
ghost use Rattle.qm_script.specs.Wanting.{TakesMemory};

use crate::act::{STEP, TICK, fault, is_act_word, read_act, step_number};
use crate::hexadecimal::{read_bytes, spells_some};
use crate::lines::{LineSort, UserLine};
use crate::script::cut_at_blank;
use qm_kinds::{FileName, Input, ParseKind, Request, Seq};
use std::alloc::{AllocError, Global};

const BYTES: &[u8] = b"BYTES";

const COMPACT: &[u8] = b"COMPACT";

const START: &[u8] = b"START";

const STOP: &[u8] = b"STOP";

// What a word alone asks for.
fn word_act(alloc: Global, text: &[u8]) -> Result<Input, AllocError>
    ensures input { IfOk result (λ input. input ≡ word_act text.now) }
    ensures no_memory { OnErr result (TakesMemory (word_act text.now)) }
{
    if text == TICK {
        Input::asking(alloc, Request::Tick)
    } else if text == COMPACT {
        Ok(Input::Compact)
    } else if text == STOP {
        Ok(Input::StopNode)
    } else if text == START {
        Ok(Input::StartNode)
    } else {
        Ok(fault(ParseKind::Form))
    }
}

// The runs of the node, which has what it needs for those that it knows, where a number of steps is given.
fn step_act(alloc: Global, known: &[u64], steps: Option<u32>) -> Result<Input, AllocError>
    ensures input { IfOk result (λ input. input ≡ step_act known.now steps) }
    ensures no_memory { OnErr result (TakesMemory (step_act known.now steps)) }
{
    match steps {
        None => Ok(fault(ParseKind::Form)),
        Some(_) => Ok(Input::Fetch {
            known: Seq::of(Vec::from_slice(alloc, known)?),
        }),
    }
}

// Bytes that are added to a file, in hexadecimal.
#[tactic(auto, using(crate::proofs::HexText::adding_takes))]
fn bytes_for(alloc: Global, file: FileName, digits: &[u8]) -> Result<Input, AllocError>
    requires { can_be_added (hex_bytes digits.now) ≡ true }
    ensures input { IfOk result (λ input. input ≡ bytes_by (Some file) (hex_bytes digits.now)) }
    ensures no_memory { OnErr result (TakesMemory (bytes_by (Some file) (hex_bytes digits.now))) }
{
    match read_bytes(alloc, digits)? {
        Some(bytes) => Input::asking(alloc, Request::Append { file, bytes }),
        None => Ok(fault(ParseKind::Form)),
    }
}

// A file's name, a blank, and 1 to 65,536 bytes in hexadecimal.
#[tactic(auto, using(crate::proofs::HexText::not_added))]
fn bytes_act(alloc: Global, text: &[u8]) -> Result<Input, AllocError>
    ensures input { IfOk result (λ input. input ≡ bytes_act (cut_at_blank text.now)) }
    ensures no_memory { OnErr result (TakesMemory (bytes_act (cut_at_blank text.now))) }
{
    let Some((file, digits)) = cut_at_blank(text) else {
        return Ok(fault(ParseKind::Form));
    };
    let Some(file) = FileName::read(file) else {
        return Ok(fault(ParseKind::Form));
    };
    if !spells_some(digits) {
        return Ok(fault(ParseKind::Form));
    }
    bytes_for(alloc, file, digits)
}

/// What the text of an act asks for, at a node that keeps these runs: a word, and behind a blank what it takes. Memory may run
/// out, but only where it asks for a request or for the node's runs.
#[tactic(auto, using(crate::proofs::Serving::wants_takes))]
pub fn act_asked(alloc: Global, text: &[u8], known: &[u64]) -> Result<Input, AllocError>
    ensures input { IfOk result (λ input. input ≡ act_asked known.now text.now) }
    ensures no_memory { OnErr result (TakesMemory (act_asked known.now text.now)) }
{
    match cut_at_blank(text) {
        None => word_act(alloc, text),
        Some((word, rest)) if word == STEP => step_act(alloc, known, step_number(rest)),
        Some((word, _)) if is_act_word(word) => read_act(alloc, text),
        Some((word, rest)) if word == BYTES => bytes_act(alloc, rest),
        Some(_) => Ok(fault(ParseKind::Form)),
    }
}

// How many steps the text of an act asks for, if it asks for steps.
fn steps_in(text: &[u8]) -> Option<u32>
    ensures { result ≡ steps_in text.now }
{
    match cut_at_blank(text) {
        Some((word, rest)) if word == STEP => step_number(rest),
        _ => None,
    }
}

/// How many steps a line allows, 1 to 100,000, if it asks for steps.
pub fn steps_of(line: &UserLine<'_>) -> Option<u32>
    ensures { result ≡ steps_asked (line_sort_view line.now.sort)
        (whole (line_sort_view line.now.sort) line.now.text.now) }
{
    match line.sort {
        LineSort::Command | LineSort::Items => None,
        LineSort::Act => steps_in(line.text),
    }
}
