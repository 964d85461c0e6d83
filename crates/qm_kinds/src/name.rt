// The names of nodes, queues, forms, jobs, users and devices.
ghost use Rattle.std.specs.Char.{to_ascii_uppercase};
ghost use Rattle.std.proofs.Common.{rules, position, not, ◌≡◌, ◌<◌, length, take, Some, true, IfSome, IfNone, nat_eq, nat_cmp};
ghost use Rattle.std.specs.List.{list_all};
ghost use Rattle.std.specs.Cmp.{partial_equiv_from_equiv};
ghost use Rattle.std.specs.Cmp.Lexicographic.{pointwise, slice_cmp, nat_list_eq_equiv, nat_list_cmp_total, texts_po, texts_ties};
ghost use Rattle.qm_kinds.specs.Text.{IsText, is_name_byte, text_of};

use crate::fault::NameFault;
use crate::short_bytes::{ShortBytes, read_text};
use std::cmp::Ordering;
use std::fmt;
use std::marker::Model;

/// The most bytes of a name.
pub(crate) const NAME_BYTES: usize = 39;

/// The most bytes of a name of a node.
pub const NODE_NAME_BYTES: usize = 6;

/// The most bytes of a name of a queue, a form, a characteristic, a stock or a device.
pub const SHORT_NAME_BYTES: usize = 31;

/// A name of a node, a queue, a form, a job or the like: 1 to 39 bytes of `A` to `Z`, digits, `$` and `_`.
/// What a name stands for may ask for fewer bytes.
#[derive(Clone, Copy)]
pub struct Name {
    text: ShortBytes<39>,
}

impl Model for Name {
    ghost use Rattle.std.specs.Prelude.{ℕ, List};
    ghost use Rattle.qm_kinds.specs.Text.{IsText, is_name_byte};

    ghost Value = { List ℕ };

    ghost view = { λ n. n.text };

    ghost invariant = { λ n. IsText is_name_byte n.text };

    ghost inverse = { λ text. record { text = text } };
}

impl Name {
    /// The name that a text spells. Small letters are raised.
    pub fn read(text: &[u8]) -> Result<Name, NameFault>
        ensures { result ≡ text_of is_name_byte text.now }
    {
        let text = read_text(text, first_bad(text))?;
        Ok(Name { text })
    }

    /// The name that these bytes are as they stand, if they are one. No letter is raised.
    pub fn of_bytes(bytes: &[u8]) -> Option<Name>
        ensures found { IfSome result (λ name. name ≡ bytes.now) }
        ensures none { IfNone result (IsText is_name_byte bytes.now → ⊥) }
    {
        if bytes.is_empty() || bytes.len() > 39 || !are_name_bytes(bytes) {
            return None;
        }
        Some(Name {
            text: ShortBytes::new(bytes),
        })
    }

    /// The bytes of the name, and behind them as many others as 39 leave.
    pub(crate) fn padded(&self) -> &[u8]
        ensures front { take (length self.now) result.now ≡ self.now }
        ensures size { length result.now ≡ NAME_BYTES }
    {
        self.text.padded()
    }

    /// The bytes of the name.
    pub fn as_bytes(&self) -> &[u8]
        ensures value { result.now ≡ self.now }
        ensures lawful { IsText is_name_byte self.now }
    {
        self.text.as_bytes()
    }

    /// The name as text.
    #[tactic(auto, using(crate::proofs::Ascii::name_is_text))]
    pub fn as_str(&self) -> &str
        ensures { result.now ≡ self.now }
    {
        str::from_utf8(self.as_bytes()).unwrap()
    }
}

// The place of the first byte that may not stand in a name, even raised.
fn first_bad(text: &[u8]) -> Option<usize>
    ensures { result ≡ position (λ b. not (is_name_byte (to_ascii_uppercase b))) text.now }
{
    text.iter()
        .position(|b| !is_name_byte(b.to_ascii_uppercase()))
}

fn are_name_bytes(text: &[u8]) -> bool
    ensures { result ≡ list_all is_name_byte text.now }
{
    text.iter().all(|b| is_name_byte(*b))
}

/// Whether a byte may stand in a name: a capital letter, a digit, `$` or `_`.
pub fn is_name_byte(byte: u8) -> bool
    ensures { result ≡ is_name_byte byte }
{
    byte.is_ascii_uppercase() || byte.is_ascii_digit() || byte == b'$' || byte == b'_'
}

impl PartialEq for Name {
    ghost eq = { pointwise nat_eq };

    ghost laws = { partial_equiv_from_equiv nat_list_eq_equiv };

    fn eq(&self, other: &Self) -> bool {
        self.as_bytes() == other.as_bytes()
    }
}

impl Eq for Name {
    ghost laws = { nat_list_eq_equiv };
}

impl PartialOrd for Name {
    ghost partial_cmp = { λ a b. Some (slice_cmp nat_cmp a b) };

    ghost laws = { texts_po };

    fn partial_cmp(&self, other: &Self) -> Option<Ordering> {
        Some(self.cmp(other))
    }
}

/// Names stand byte by byte, and a name before those that begin with it.
impl Ord for Name {
    ghost cmp = { slice_cmp nat_cmp };

    ghost total = { nat_list_cmp_total };

    ghost matches_partial_cmp = { Prim.search rules };

    ghost matches_eq = { texts_ties };

    fn cmp(&self, other: &Self) -> Ordering {
        self.as_bytes().cmp(other.as_bytes())
    }
}

impl fmt::Display for Name {
    ghost output = { λ n. Some n };

    fn fmt<W: fmt::Write>(&self, f: &mut fmt::Formatter<W>) -> fmt::Result {
        f.pad(self.as_str())
    }
}

impl fmt::Debug for Name {
    fn fmt<W: fmt::Write>(&self, f: &mut fmt::Formatter<W>) -> fmt::Result {
        fmt::Debug::fmt(self.as_str(), f)
    }
}
