// The words with which a new site is made.
ghost use Rattle.std.specs.Prelude.{◌≡◌, ◌==◌, ◌<◌, option_map, option_and_then, if◌then◌else◌, None, Some, length, position, IfOk, IfSome};
ghost use Rattle.qm_model.specs.Script.{node_name_of};
ghost use Rattle.qm_script.specs.Sites.{cap_of, nodes_of, with_node};

use crate::script::read_node_name;
use qm_kinds::{GREATEST_CAP, LEAST_CAP, NODES_LIMIT, Name};
use qm_time::plain_number_up_to;
use std::alloc::{AllocError, Global};

// The place of the first comma.
fn comma(text: &[u8]) -> Option<usize>
    ensures value { result ≡ position (λ b. b == 44) text.now }
    ensures within { IfSome result (λ place. place < length text.now) }
{
    text.iter().position(|b| *b == b',')
}

// Puts the node that a part names behind the others, and tells whether it could: whether it is a name, none of the others, and
// they aren't too many.
fn add_node(nodes: &mut Vec<Name>, part: &[u8]) -> Result<bool, AllocError>
    ensures { IfOk result (λ is_added.
        option_and_then (with_node nodes.old.items) (node_name_of part.now)
        ≡ (if is_added then Some nodes.new.items else None)) }
{
    let Some(name) = read_node_name(part) else {
        return Ok(false);
    };
    if nodes.contains(&name) || NODES_LIMIT <= nodes.len() {
        return Ok(false);
    }
    nodes.push(name)?;
    Ok(true)
}

/// The nodes of a new site: names of at most six bytes with commas between them, each once, eight at most. `None` stands for
/// any other word. Memory may run out.
pub fn read_nodes(alloc: Global, word: &[u8]) -> Result<Option<Vec<Name>>, AllocError>
    ensures { IfOk result (λ nodes. option_map (λ names. names.items) nodes ≡ nodes_of word.now) }
{
    let mut nodes = Vec::new(alloc);
    let mut rest = word;
    while let Some(place) = comma(rest) {
        if !add_node(&mut nodes, &rest[..place])? {
            return Ok(None);
        }
        rest = &rest[place + 1..];
    }
    if add_node(&mut nodes, rest)? {
        Ok(Some(nodes))
    } else {
        Ok(None)
    }
}

/// The most bytes that a queue file of a new site may have: a number of 4,096 to 268,435,456 without a 0 in front of others.
pub fn read_cap(word: &[u8]) -> Option<u64>
    ensures { result ≡ cap_of word.now }
{
    match plain_number_up_to(GREATEST_CAP, word) {
        Some(cap) if LEAST_CAP <= cap => Some(cap),
        _ => None,
    }
}
