// What the values of commands say.
ghost use Rattle.std.specs.Prelude.{◌≡◌, ◌<◌, ◌≤◌, ◌^◌, ◌==◌, IfSome, length, map, position, option_copied, bytes_eq};
ghost use Rattle.std.specs.List.{list_all};
ghost use Rattle.std.specs.Char.{is_ascii_digit, to_ascii_uppercase};
ghost use Rattle.qm_commands.specs.Spelled.{is_raised_to};
ghost use Rattle.qm_model.specs.Built.{is_definable};
ghost use Rattle.qm_dcl.specs.Values.{unquoted, said_by, raised_by, are_digits, number_to, byte_said, form_number_said, entry_said, blocks_said, short_name_said, definable_name_said, node_said, pattern_said, says_all, reference_said, form_said, characteristic_said, before_colon, device_said, located, location_said, leads_to_equals, has_equals, schedule_said, queue_retain_said, job_retain_said, is_until, side_said, moment_said};

use qm_commands::{Token, TokenKind, bytes_of};
use qm_kinds::{
    JobRetain, Moment, NODE_NAME_BYTES, Name, NameOrNumber, Pattern, QueueRetain, SHORT_NAME_BYTES,
};
use qm_time::{TIME_BYTES, number_up_to, read_time};

/// A margin of a page.
#[derive(Clone, Copy)]
pub enum Side {
    Top,
    Bottom,
    Left,
    Right,
}

/// Where a queue stands.
#[derive(Clone, Copy)]
pub struct Location {
    pub node: Name,
    pub device: Option<Name>,
}

// What stands between the quotes of a string.
fn unquoted(string: &[u8]) -> &[u8]
    ensures { result.now ≡ unquoted string.now }
{
    match string {
        [_, inner @ .., _] => inner,
        _ => &[],
    }
}

/// What a word or a quoted string says.
pub(crate) fn said_by(text: &[u8], token: Token) -> &[u8]
    ensures { result.now ≡ said_by text.now token }
{
    let bytes = bytes_of(text, token);
    if token.kind == TokenKind::Word {
        bytes
    } else {
        unquoted(bytes)
    }
}

// Whether a word is this one, once it is raised.
fn is_raised_to(spelling: &[u8], word: &[u8]) -> bool
    ensures { result ≡ is_raised_to spelling.now word.now }
{
    word.len() == spelling.len()
        && word
            .iter()
            .zip(spelling)
            .all(|(b, s)| b.to_ascii_uppercase() == *s)
}

// Whether a word or a quoted string is this word, which is spelled in capital letters; what is quoted isn't raised.
fn is_said(text: &[u8], token: Token, spelling: &[u8]) -> bool
    ensures { result ≡ bytes_eq (raised_by text.now token) spelling.now }
{
    let bytes = bytes_of(text, token);
    if token.kind == TokenKind::Word {
        is_raised_to(spelling, bytes)
    } else {
        unquoted(bytes) == spelling
    }
}

fn all_digits(said: &[u8]) -> bool
    ensures { result ≡ list_all is_ascii_digit said.now }
{
    said.iter().all(|b| b.is_ascii_digit())
}

/// Whether something said is decimal digits, and nothing else.
pub(crate) fn are_digits(said: &[u8]) -> bool
    ensures { result ≡ are_digits said.now }
{
    all_digits(said) && !said.is_empty()
}

// The number that digits say, one at least, where it isn't above the most. Zeros may stand in front.
fn number_to(most: u32, said: &[u8]) -> Option<u32>
    ensures value { result ≡ number_to most said.now }
    ensures within { IfSome result (λ number. number ≤ most) }
{
    if said.is_empty() {
        return None;
    }
    let number = number_up_to(u64::from(most), said)?;
    Some(number as u32)
}

/// A number of a field of 8 bits. Zeros may stand in front.
pub(crate) fn byte_said(said: &[u8]) -> Option<u8>
    ensures { result ≡ byte_said said.now }
{
    let number = number_to(255, said)?;
    Some(number as u8)
}

/// The number of a form, of 16 bits. Zeros may stand in front.
pub(crate) fn form_number_said(said: &[u8]) -> Option<u16>
    ensures { result ≡ form_number_said said.now }
{
    let number = number_to(65_535, said)?;
    Some(number as u16)
}

/// The number of an entry, of 32 bits. Zeros may stand in front.
pub(crate) fn entry_said(said: &[u8]) -> Option<u32>
    ensures { result ≡ entry_said said.now }
{
    number_to(u32::MAX, said)
}

/// How many blocks, in 32 bits. Zeros may stand in front.
pub(crate) fn blocks_said(said: &[u8]) -> Option<u32>
    ensures { result ≡ blocks_said said.now }
{
    number_to(u32::MAX, said)
}

/// The name of a queue, a stock or a device, of 31 bytes at most.
pub(crate) fn short_name_said(said: &[u8]) -> Option<Name>
    ensures { result ≡ short_name_said said.now }
{
    match Name::read(said) {
        Ok(name) if name.as_bytes().len() <= SHORT_NAME_BYTES => Some(name),
        _ => None,
    }
}

/// A pattern of names.
pub(crate) fn pattern_said(said: &[u8]) -> Option<Pattern>
    ensures { result ≡ pattern_said said.now }
{
    match Pattern::read(said) {
        Ok(pattern) => Some(pattern),
        Err(_) => None,
    }
}

/// The name of a form or a characteristic that is defined or deleted: of 31 bytes at most, and not digits alone.
pub(crate) fn definable_name_said(said: &[u8]) -> Option<Name>
    ensures { result ≡ definable_name_said said.now }
{
    match Name::read(said) {
        Ok(name) if is_definable(name) => Some(name),
        _ => None,
    }
}

// Whether a form or a characteristic can have a name.
fn is_definable(name: Name) -> bool
    ensures { result ≡ is_definable name }
{
    name.as_bytes().len() <= SHORT_NAME_BYTES && !all_digits(name.as_bytes())
}

/// The name of a node, of 6 bytes at most.
pub(crate) fn node_said(said: &[u8]) -> Option<Name>
    ensures { result ≡ node_said said.now }
{
    match Name::read(said) {
        Ok(name) if name.as_bytes().len() <= NODE_NAME_BYTES => Some(name),
        _ => None,
    }
}

// What stands for all nodes.
const ALL_NODES: &[u8] = b"*";

/// Whether all nodes are named, by `*`.
pub(crate) fn says_all(said: &[u8]) -> bool
    ensures { result ≡ says_all said.now }
{
    said == ALL_NODES
}

// A number, which isn't above the most, where it is digits alone, and else a name.
fn reference_said(most: u16, said: &[u8]) -> Option<NameOrNumber>
    ensures { result ≡ reference_said most said.now }
{
    if are_digits(said) {
        let number = number_to(u32::from(most), said)?;
        Some(NameOrNumber::Number(number as u16))
    } else {
        let name = short_name_said(said)?;
        Some(NameOrNumber::Name(name))
    }
}

/// A form, by its name, of 31 bytes at most, or its number, of 16 bits.
pub(crate) fn form_said(said: &[u8]) -> Option<NameOrNumber>
    ensures { result ≡ form_said said.now }
{
    reference_said(65_535, said)
}

/// A characteristic, by its name, of 31 bytes at most, or its number, of 8 bits.
pub(crate) fn characteristic_said(said: &[u8]) -> Option<NameOrNumber>
    ensures { result ≡ characteristic_said said.now }
{
    reference_said(255, said)
}

// What stands in front of a colon that ends it.
fn before_colon(said: &[u8]) -> Option<&[u8]>
    ensures { option_copied result ≡ before_colon said.now }
{
    match said {
        [device @ .., b':'] => Some(device),
        _ => None,
    }
}

// Nothing, or a device and a colon.
fn device_said(said: &[u8]) -> Option<Option<Name>>
    ensures { result ≡ device_said said.now }
{
    if said.is_empty() {
        return Some(None);
    }
    let device = short_name_said(before_colon(said)?)?;
    Some(Some(device))
}

// The place of the first colon.
fn first_colon(said: &[u8]) -> Option<usize>
    ensures value { result ≡ position (λ b. b == 58) said.now }
    ensures within { IfSome result (λ place. place < length said.now) }
{
    said.iter().position(|b| *b == b':')
}

/// A node, of 6 bytes at most, two colons, and perhaps a device of it, of 31 bytes at most, and a colon.
pub(crate) fn location_said(said: &[u8]) -> Option<Location>
    ensures { result ≡ location_said said.now }
{
    let place = first_colon(said)?;
    let device = match &said[place + 1..] {
        [b':', behind @ ..] => device_said(behind)?,
        _ => return None,
    };
    let node = node_said(&said[..place])?;
    Some(Location { node, device })
}

// Whether an `=` stands behind blanks and tabs.
fn leads_to_equals(behind: &[u8]) -> bool
    ensures { result ≡ leads_to_equals behind.now }
{
    let mut rest = behind;
    while let [byte, behind @ ..] = rest {
        if *byte != b' ' && *byte != b'\t' {
            return *byte == b'=';
        }
        rest = behind;
    }
    false
}

/// Whether an `=` stands behind a token, with or without blanks and tabs between them.
pub(crate) fn has_equals(text: &[u8], token: Token) -> bool
    ensures { result ≡ has_equals text.now token }
{
    token.end < text.len() && leads_to_equals(&text[token.end..])
}

/// Whether jobs stand in order of their sizes: `SIZE` or `NOSIZE`.
pub(crate) fn schedule_said(text: &[u8], token: Token) -> Option<bool>
    ensures { result ≡ schedule_said (raised_by text.now token) }
{
    if is_said(text, token, b"SIZE") {
        Some(true)
    } else if is_said(text, token, b"NOSIZE") {
        Some(false)
    } else {
        None
    }
}

/// Which jobs a queue keeps: `ALL` or `ERROR`.
pub(crate) fn queue_retain_said(text: &[u8], token: Token) -> Option<QueueRetain>
    ensures { result ≡ queue_retain_said (raised_by text.now token) }
{
    if is_said(text, token, b"ALL") {
        Some(QueueRetain::All)
    } else if is_said(text, token, b"ERROR") {
        Some(QueueRetain::Failed)
    } else {
        None
    }
}

/// Whether a job is kept, in one word: `ALWAYS`, `ERROR` or `DEFAULT`.
pub(crate) fn job_retain_said(text: &[u8], token: Token) -> Option<JobRetain>
    ensures { result ≡ job_retain_said (raised_by text.now token) }
{
    if is_said(text, token, b"ALWAYS") {
        Some(JobRetain::Always)
    } else if is_said(text, token, b"ERROR") {
        Some(JobRetain::Failed)
    } else if is_said(text, token, b"DEFAULT") {
        Some(JobRetain::Default)
    } else {
        None
    }
}

/// Whether this is the word behind which the moment stands until which a job is kept: `UNTIL`.
pub(crate) fn is_until(text: &[u8], token: Token) -> bool
    ensures { result ≡ is_until (raised_by text.now token) }
{
    is_said(text, token, b"UNTIL")
}

// The moment that a word names once it is raised.
fn moment_raised(word: &[u8], now: Moment) -> Option<Moment>
    ensures { result ≡ moment_said now (map to_ascii_uppercase word.now) }
{
    if word.len() > TIME_BYTES {
        return None;
    }
    let mut buffer = [0; TIME_BYTES];
    let raised = &mut buffer[..word.len()];
    raised.copy_from_slice(word);
    raised.make_ascii_uppercase();
    read_time(raised, now).ok()
}

/// The moment that a time names. A relative one counts from `now`.
pub(crate) fn moment_said(text: &[u8], token: Token, now: Moment) -> Option<Moment>
    ensures { result ≡ moment_said now (raised_by text.now token) }
{
    let bytes = bytes_of(text, token);
    if token.kind == TokenKind::Word {
        moment_raised(bytes, now)
    } else {
        read_time(unquoted(bytes), now).ok()
    }
}

/// A side of a page: `TOP`, `BOTTOM`, `LEFT` or `RIGHT`.
pub(crate) fn side_said(text: &[u8], token: Token) -> Option<Side>
    ensures { result ≡ side_said (raised_by text.now token) }
{
    if is_said(text, token, b"TOP") {
        Some(Side::Top)
    } else if is_said(text, token, b"BOTTOM") {
        Some(Side::Bottom)
    } else if is_said(text, token, b"LEFT") {
        Some(Side::Left)
    } else if is_said(text, token, b"RIGHT") {
        Some(Side::Right)
    } else {
        None
    }
}
