// Patterns with wildcards, and which names they match.
ghost use Rattle.std.specs.Char.{to_ascii_uppercase};
ghost use Rattle.std.specs.Prelude.{position, not, ◌≡◌, ◌||◌, ◌==◌, Some};
ghost use Rattle.qm_kinds.specs.Text.{text_of, is_pattern_byte, IsText};
ghost use Rattle.qm_kinds.specs.Wildcards.{matches};

use crate::fault::NameFault;
use crate::name::{Name, is_name_byte};
use crate::short_bytes::{ShortBytes, read_text};
use crate::wildcards::matches;
use std::marker::Model;

/// A pattern of names: 1 to 39 bytes of a name's, `*` and `%`. `*` stands for any bytes or none, `%` for one byte.
#[derive(Clone, Copy)]
pub struct Pattern {
    text: ShortBytes<39>,
}

impl Model for Pattern {
    ghost use Rattle.std.specs.Prelude.{ℕ, List};
    ghost use Rattle.qm_kinds.specs.Text.{IsText, is_pattern_byte};

    ghost Value = { List ℕ };

    ghost view = { λ p. p.text };

    ghost invariant = { λ p. IsText is_pattern_byte p.text };

    ghost inverse = { λ text. record { text = text } };
}

impl Pattern {
    /// The pattern that a text spells. Small letters are raised.
    pub fn read(text: &[u8]) -> Result<Pattern, NameFault>
        ensures { result ≡ text_of is_pattern_byte text.now }
    {
        let text = read_text(text, first_bad(text))?;
        Ok(Pattern { text })
    }

    /// The bytes of the pattern.
    pub fn as_bytes(&self) -> &[u8]
        ensures value { result.now ≡ self.now }
        ensures lawful { IsText is_pattern_byte self.now }
    {
        self.text.as_bytes()
    }

    /// Whether the pattern matches a name: `*` stands for any bytes or none, `%` for one byte, and each other byte for
    /// itself. The time that it takes is bounded by the pattern's bytes times the name's, and it takes no memory.
    pub fn matches(&self, name: &Name) -> bool
        ensures { result ≡ matches self.now name.now }
    {
        matches(self.as_bytes(), name.as_bytes())
    }

    /// The pattern as text.
    #[tactic(auto, using(crate::proofs::Ascii::pattern_is_text))]
    pub fn as_str(&self) -> &str
        ensures { result.now ≡ self.now }
    {
        str::from_utf8(self.as_bytes()).unwrap()
    }
}

// The place of the first byte that may not stand in a pattern, even raised.
fn first_bad(text: &[u8]) -> Option<usize>
    ensures { result ≡ position (λ b. not (is_pattern_byte (to_ascii_uppercase b))) text.now }
{
    text.iter()
        .position(|b| !is_pattern_byte(b.to_ascii_uppercase()))
}

fn is_pattern_byte(byte: u8) -> bool
    ensures { result ≡ is_pattern_byte byte }
{
    is_name_byte(byte) || byte == b'*' || byte == b'%'
}
