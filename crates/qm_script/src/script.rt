// Parts of the lines of a script.
ghost use Rattle.std.specs.Prelude.{◌≡◌, ◌==◌, ◌<◌, length, position, IfSome, option_map};
ghost use Rattle.qm_model.specs.Texts.{cut_at_blank};
ghost use Rattle.qm_model.specs.Script.{node_name_of};
ghost use Rattle.qm_script.specs.Lines.{parts_view};

use qm_kinds::{NODE_NAME_BYTES, Name};

// The place of the first such byte.
fn first(byte: u8, text: &[u8]) -> Option<usize>
    ensures value { result ≡ position (λ b. b == byte) text.now }
    ensures within { IfSome result (λ place. place < length text.now) }
{
    text.iter().position(|b| *b == byte)
}

/// What stands before the first blank, and what behind it.
pub(crate) fn cut_at_blank(text: &[u8]) -> Option<(&[u8], &[u8])>
    ensures { option_map parts_view result ≡ cut_at_blank text.now }
{
    let place = first(b' ', text)?;
    Some((&text[..place], &text[place + 1..]))
}

/// The name of a node, which has at most six bytes.
pub fn read_node_name(text: &[u8]) -> Option<Name>
    ensures { result ≡ node_name_of text.now }
{
    match Name::read(text) {
        Ok(name) if name.as_bytes().len() <= NODE_NAME_BYTES => Some(name),
        _ => None,
    }
}
