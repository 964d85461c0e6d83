// The lists that qualifiers give.
ghost use Rattle.std.specs.Prelude.{◌≡◌, IfOk, option_map, option_copied};
ghost use Rattle.qm_dcl.specs.Lists.{gives, begins_list, behind_last, values_ahead, listed, characteristics_said, queues_said, nodes_said, lists_of, nodes_of};

use crate::value::{characteristic_said, node_said, said_by, short_name_said};
use qm_commands::Word;
use qm_grammar::Part;
use qm_kinds::{Name, NameOrNumber, Seq};
use std::alloc::{AllocError, Global};

/// What a list is of.
#[derive(Clone, Copy)]
pub enum ListOf {
    Characteristics,
    /// The queues to which a generic queue passes its jobs on.
    Targets,
    /// The nodes on which the queue manager may run.
    Nodes,
}

/// The lists of a command that asks for a request; none where a list isn't given.
#[derive(Drop)]
pub struct Lists {
    pub characteristics: Option<Seq<NameOrNumber>>,
    /// The queues to which a generic queue passes its jobs on.
    pub targets: Option<Seq<Name>>,
}

// Whether a qualifier gives a list. /NOCHARACTERISTICS takes no value, and gives the empty one.
fn gives(list: ListOf, word: Word) -> bool
    ensures { result ≡ gives list word }
{
    match (list, word) {
        (ListOf::Characteristics, Word::Characteristics | Word::NoCharacteristics) => true,
        (ListOf::Targets, Word::Generic) => true,
        (ListOf::Nodes, Word::On) => true,
        _ => false,
    }
}

// Whether a part is a qualifier that gives a list.
fn begins_list(list: ListOf, part: Part) -> bool
    ensures { result ≡ begins_list list part }
{
    match part {
        Part::Qualifier { word, .. } => gives(list, word),
        _ => false,
    }
}

// The parts behind the last qualifier that gives a list, if one does.
fn behind_last(list: ListOf, parts: &[Part]) -> Option<&[Part]>
    ensures { option_copied result ≡ behind_last list parts.now }
{
    let mut found = None;
    let mut rest = parts;
    while let [part, behind @ ..] = rest {
        if begins_list(list, *part) {
            found = Some(behind);
        }
        rest = behind;
    }
    found
}

// The characteristics that the values say with which parts begin.
#[inline(never)]
fn characteristics_ahead(
    alloc: Global,
    text: &[u8],
    parts: &[Part],
) -> Result<Seq<NameOrNumber>, AllocError>
    ensures { IfOk result (λ list. list ≡ characteristics_said text.now (values_ahead parts.now)) }
{
    let mut found = Vec::new(alloc);
    let mut rest = parts;
    while let [Part::Value { token }, behind @ ..] = rest {
        if let Some(characteristic) = characteristic_said(said_by(text, *token)) {
            found.push(characteristic)?;
        }
        rest = behind;
    }
    Ok(Seq::of(found))
}

// The queues that the values name with which parts begin.
#[inline(never)]
fn queues_ahead(alloc: Global, text: &[u8], parts: &[Part]) -> Result<Seq<Name>, AllocError>
    ensures { IfOk result (λ list. list ≡ queues_said text.now (values_ahead parts.now)) }
{
    let mut found = Vec::new(alloc);
    let mut rest = parts;
    while let [Part::Value { token }, behind @ ..] = rest {
        if let Some(name) = short_name_said(said_by(text, *token)) {
            found.push(name)?;
        }
        rest = behind;
    }
    Ok(Seq::of(found))
}

// The nodes that the values name with which parts begin.
#[inline(never)]
fn nodes_ahead(alloc: Global, text: &[u8], parts: &[Part]) -> Result<Seq<Name>, AllocError>
    ensures { IfOk result (λ list. list ≡ nodes_said text.now (values_ahead parts.now)) }
{
    let mut found = Vec::new(alloc);
    let mut rest = parts;
    while let [Part::Value { token }, behind @ ..] = rest {
        if let Some(name) = node_said(said_by(text, *token)) {
            found.push(name)?;
        }
        rest = behind;
    }
    Ok(Seq::of(found))
}

// The list of characteristics that counts, if one is given.
fn characteristics_of(
    alloc: Global,
    text: &[u8],
    parts: &[Part],
) -> Result<Option<Seq<NameOrNumber>>, AllocError>
    ensures { IfOk result (λ list. list ≡ (lists_of text.now parts.now).characteristics) }
{
    match behind_last(ListOf::Characteristics, parts) {
        Some(behind) => Ok(Some(characteristics_ahead(alloc, text, behind)?)),
        None => Ok(None),
    }
}

// The list of targets that counts, if one is given.
fn targets_of(alloc: Global, text: &[u8], parts: &[Part]) -> Result<Option<Seq<Name>>, AllocError>
    ensures { IfOk result (λ list. list ≡ (lists_of text.now parts.now).targets) }
{
    match behind_last(ListOf::Targets, parts) {
        Some(behind) => Ok(Some(queues_ahead(alloc, text, behind)?)),
        None => Ok(None),
    }
}

/// The nodes on which the queue manager may run, by the parts of a command, if they are given. An empty list stands for all
/// nodes.
///
/// Errors: `AllocError`, where memory ran out.
pub(crate) fn nodes_of(
    alloc: Global,
    text: &[u8],
    parts: &[Part],
) -> Result<Option<Seq<Name>>, AllocError>
    ensures { IfOk result (λ nodes. nodes ≡ nodes_of text.now parts.now) }
{
    match behind_last(ListOf::Nodes, parts) {
        Some(behind) => Ok(Some(nodes_ahead(alloc, text, behind)?)),
        None => Ok(None),
    }
}

/// The lists of a command that asks for a request, by its parts. It takes time in the number of these, and memory for the lists.
///
/// Errors: `AllocError`, where memory ran out.
pub(crate) fn lists_of(alloc: Global, text: &[u8], parts: &[Part]) -> Result<Lists, AllocError>
    ensures { IfOk result (λ lists. lists ≡ lists_of text.now parts.now) }
{
    Ok(Lists {
        characteristics: characteristics_of(alloc, text, parts)?,
        targets: targets_of(alloc, text, parts)?,
    })
}
