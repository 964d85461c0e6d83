// What commands are put together of.
ghost use Rattle.std.specs.Prelude.{◌++◌, Some, codes, decimal, flat_map, option_map};
ghost use Rattle.qm_spelling.specs.Pieces.{marked_by, valued_by, list_text, reference_text, references_text};

use qm_kinds::{Name, NameOrNumber};
use std::fmt;

/// A qualifier without a value, where it is given.
#[derive(Clone, Copy)]
pub(crate) struct Marked<'a> {
    pub(crate) qualifier: &'a str,
    pub(crate) given: bool,
}

/// A qualifier with a number of 8 bits, where it is given.
#[derive(Clone, Copy)]
pub(crate) struct GivenByte<'a> {
    pub(crate) qualifier: &'a str,
    pub(crate) value: Option<u8>,
}

/// A qualifier with a name, where it is given.
#[derive(Clone, Copy)]
pub(crate) struct GivenName<'a> {
    pub(crate) qualifier: &'a str,
    pub(crate) value: Option<Name>,
}

/// A qualifier with a form, where it is given.
#[derive(Clone, Copy)]
pub(crate) struct GivenForm<'a> {
    pub(crate) qualifier: &'a str,
    pub(crate) value: Option<NameOrNumber>,
}

/// A form or a characteristic.
#[derive(Clone, Copy)]
pub(crate) struct ReferenceText(pub(crate) NameOrNumber);

/// Names in parentheses: one at least.
#[derive(Clone, Copy)]
pub(crate) struct NamesText<'a>(pub(crate) &'a [Name]);

// Names, each behind a comma.
#[derive(Clone, Copy)]
struct OtherNames<'a>(&'a [Name]);

/// Characteristics in parentheses.
#[derive(Clone, Copy)]
pub(crate) struct ReferencesText<'a>(pub(crate) &'a [NameOrNumber]);

// Characteristics, each behind a comma.
#[derive(Clone, Copy)]
struct OtherReferences<'a>(&'a [NameOrNumber]);

impl fmt::Display for Marked<'_> {
    ghost output = { λ m. Some (marked_by m.qualifier.now m.given) };

    fn fmt<W: fmt::Write>(&self, f: &mut fmt::Formatter<W>) -> fmt::Result {
        if self.given {
            write!(f, "/{}", self.qualifier)
        } else {
            Ok(())
        }
    }
}

impl fmt::Display for GivenByte<'_> {
    ghost output = { λ g. Some (valued_by g.qualifier.now (option_map decimal g.value)) };

    fn fmt<W: fmt::Write>(&self, f: &mut fmt::Formatter<W>) -> fmt::Result {
        match self.value {
            None => Ok(()),
            Some(number) => write!(f, "/{}={number}", self.qualifier),
        }
    }
}

impl fmt::Display for GivenName<'_> {
    ghost output = { λ g. Some (valued_by g.qualifier.now g.value) };

    fn fmt<W: fmt::Write>(&self, f: &mut fmt::Formatter<W>) -> fmt::Result {
        match self.value {
            None => Ok(()),
            Some(name) => write!(f, "/{}={name}", self.qualifier),
        }
    }
}

impl fmt::Display for GivenForm<'_> {
    ghost output = { λ g. Some (valued_by g.qualifier.now (option_map reference_text g.value)) };

    fn fmt<W: fmt::Write>(&self, f: &mut fmt::Formatter<W>) -> fmt::Result {
        match self.value {
            None => Ok(()),
            Some(form) => write!(f, "/{}={}", self.qualifier, ReferenceText(form)),
        }
    }
}

impl fmt::Display for ReferenceText {
    ghost output = { λ r. Some (reference_text r.0) };

    fn fmt<W: fmt::Write>(&self, f: &mut fmt::Formatter<W>) -> fmt::Result {
        match self.0 {
            NameOrNumber::Name(name) => write!(f, "{name}"),
            NameOrNumber::Number(number) => write!(f, "{number}"),
        }
    }
}

impl fmt::Display for OtherNames<'_> {
    ghost output = { λ n. Some (flat_map (λ name. codes "," ++ name) n.0.now) };

    fn fmt<W: fmt::Write>(&self, f: &mut fmt::Formatter<W>) -> fmt::Result {
        for name in self.0 {
            write!(f, ",{name}")?;
        }
        Ok(())
    }
}

impl fmt::Display for NamesText<'_> {
    ghost output = { λ n. Some (list_text n.0.now) };

    fn fmt<W: fmt::Write>(&self, f: &mut fmt::Formatter<W>) -> fmt::Result {
        match self.0 {
            [] => write!(f, "()"),
            [first, others @ ..] => write!(f, "({first}{})", OtherNames(others)),
        }
    }
}

impl fmt::Display for OtherReferences<'_> {
    ghost output = { λ r. Some (flat_map (λ reference. codes "," ++ reference_text reference) r.0.now) };

    fn fmt<W: fmt::Write>(&self, f: &mut fmt::Formatter<W>) -> fmt::Result {
        for reference in self.0 {
            write!(f, ",{}", ReferenceText(*reference))?;
        }
        Ok(())
    }
}

impl fmt::Display for ReferencesText<'_> {
    ghost output = { λ r. Some (references_text r.0.now) };

    fn fmt<W: fmt::Write>(&self, f: &mut fmt::Formatter<W>) -> fmt::Result {
        match self.0 {
            [] => write!(f, "()"),
            [first, others @ ..] => write!(
                f,
                "({}{})",
                ReferenceText(*first),
                OtherReferences(others)
            ),
        }
    }
}
