// The parts of a line: what stands behind a beginning or in front of an end, labels and numbers.
ghost use Rattle.std.specs.Prelude.{◌≡◌, ◌==◌, ◌≤◌, length, option_map, IfSome};
ghost use Rattle.std.specs.List.{list_all, list_any};
ghost use Rattle.qm_model.specs.Batch.{behind, ahead_of, is_label, is_mark, has_no_quote};
ghost use Rattle.qm_kinds.specs.Text.{is_name_byte};

const QUOTE: u8 = 34;

const LABEL_BYTES: usize = 39;

const MARK_BYTES: usize = 255;

/// What stands behind a beginning, where the text begins so.
pub(crate) fn behind<'a>(beginning: &[u8], text: &'a [u8]) -> Option<&'a [u8]>
    ensures rest { option_map (λ rest. rest.now) result ≡ behind beginning.now text.now }
    ensures no_longer { IfSome result (λ rest. length rest.now ≤ length text.now) }
{
    if text.starts_with(beginning) {
        Some(&text[beginning.len()..])
    } else {
        None
    }
}

/// What stands in front of an end, where the text ends so.
pub(crate) fn ahead_of<'a>(end: &[u8], text: &'a [u8]) -> Option<&'a [u8]>
    ensures front { option_map (λ front. front.now) result ≡ ahead_of end.now text.now }
    ensures no_longer { IfSome result (λ front. length front.now ≤ length text.now) }
{
    if text.ends_with(end) {
        Some(&text[..text.len() - end.len()])
    } else {
        None
    }
}

fn is_name_byte(byte: u8) -> bool
    ensures { result ≡ is_name_byte byte }
{
    byte.is_ascii_uppercase() || byte.is_ascii_digit() || byte == b'$' || byte == b'_'
}

fn has_name_bytes(text: &[u8]) -> bool
    ensures { result ≡ list_all is_name_byte text.now }
{
    text.iter().all(|byte| is_name_byte(*byte))
}

/// Whether a text is a label: a name in capitals.
pub(crate) fn is_label(text: &[u8]) -> bool
    ensures { result ≡ is_label text.now }
{
    !text.is_empty() && text.len() <= LABEL_BYTES && has_name_bytes(text)
}

/// Whether a text is a mark that a job can set: 1 to 255 bytes.
pub(crate) fn is_mark(text: &[u8]) -> bool
    ensures { result ≡ is_mark text.now }
{
    !text.is_empty() && text.len() <= MARK_BYTES
}

fn has_quote(text: &[u8]) -> bool
    ensures { result ≡ list_any (λ b. b == 34) text.now }
{
    text.iter().any(|byte| *byte == QUOTE)
}

/// Whether a text has no quote.
pub(crate) fn has_no_quote(text: &[u8]) -> bool
    ensures { result ≡ has_no_quote text.now }
{
    !has_quote(text)
}
