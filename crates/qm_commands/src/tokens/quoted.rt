// Quoted strings.
ghost use Rattle.std.specs.Prelude.{◌≡◌, ◌≤◌, false, length, IfSome};
ghost use Rattle.qm_commands.specs.TokenBytes.{quoted_length};

/// How many bytes a quoted string takes behind its first quote, its last one included; `None` where it doesn't end. Two
/// quotes within it stand for one.
pub(crate) fn quoted_length(text: &[u8]) -> Option<usize>
    ensures value { result ≡ quoted_length false text.now }
    ensures within { IfSome result (λ n. n ≤ length text.now) }
{
    let mut length = 0;
    let mut behind_quote = false;
    while length < text.len() {
        let is_quote = text[length] == b'"';
        if !behind_quote {
            behind_quote = is_quote;
        } else if is_quote {
            behind_quote = false;
        } else {
            return Some(length);
        }
        length += 1;
    }
    if behind_quote { Some(length) } else { None }
}
