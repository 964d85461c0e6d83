// The files of a site, and their names.
ghost use Rattle.std.specs.Prelude.{◌≡◌, ◌==◌, ◌<◌, Some, IfSome, length, position, option_copied};
ghost use Rattle.qm_kinds.specs.Files.{file_name_of, file_name_from, file_name_text};

use crate::name::Name;
use crate::seq::Seq;
use std::fmt;

/// The name of a file, with its type where it has one.
#[derive(Clone, Copy, PartialEq, Eq, PartialOrd, Ord)]
pub struct FileName {
    pub name: Name,
    pub extension: Option<Name>,
}

impl FileName {
    /// The file name that a text spells: a name, and behind a full stop its type.
    pub fn read(text: &[u8]) -> Option<FileName>
        ensures { result ≡ file_name_of text.now }
    {
        match first_full_stop(text) {
            None => FileName::of(text, None),
            Some(place) => FileName::of(&text[..place], Some(&text[place + 1..])),
        }
    }

    // The file name of these parts.
    fn of(name: &[u8], extension: Option<&[u8]>) -> Option<FileName>
        ensures { result ≡ file_name_from name.now (option_copied extension.entry) }
    {
        let Ok(name) = Name::read(name) else {
            return None;
        };
        let Some(extension) = extension else {
            return Some(FileName {
                name,
                extension: None,
            });
        };
        let Ok(extension) = Name::read(extension) else {
            return None;
        };
        Some(FileName {
            name,
            extension: Some(extension),
        })
    }
}

// The place of the first full stop.
fn first_full_stop(text: &[u8]) -> Option<usize>
    ensures value { result ≡ position (λ b. b == 46) text.now }
    ensures within { IfSome result (λ place. place < length text.now) }
{
    text.iter().position(|b| *b == b'.')
}

impl fmt::Display for FileName {
    ghost output = { λ f. Some (file_name_text f) };

    fn fmt<W: fmt::Write>(&self, f: &mut fmt::Formatter<W>) -> fmt::Result {
        match &self.extension {
            None => write!(f, "{}", self.name),
            Some(extension) => write!(f, "{}.{}", self.name, extension),
        }
    }
}

/// A file that jobs can name, with its bytes.
#[derive(Drop)]
pub struct File {
    pub name: FileName,
    pub bytes: Seq<u8>,
}
