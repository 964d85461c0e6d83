// The rows of entries in listings.
ghost use Rattle.std.specs.Prelude.{◌≡◌, IfOk};
ghost use Rattle.qm_kinds.specs.Text.{IsText, is_name_byte};

use crate::entry::{Entry, EntryState};
use crate::name::Name;
use crate::plain::PlainEntry;
use std::alloc::{AllocError, Global};
use std::marker::Model;

/// An entry as the row of a listing. Contracts see the entry. Where its job doesn't run and has nothing that is rare, the row takes a fourth
/// of what the entry would, and no memory; else the entry stands in memory of its own.
#[derive(Drop)]
pub struct ListedEntry {
    kept: Kept,
}

#[derive(Drop)]
pub(crate) enum Kept {
    Plain(PlainEntry),
    Whole(Box<Entry>),
}

impl Model for ListedEntry {
    ghost use Rattle.qm_kinds.specs.Listed.{entry_kept};
    ghost use Rattle.qm_kinds.specs.declared.entry.Entry.{Entry as AnyEntry};

    ghost Value = { AnyEntry };

    ghost view = { λ e. entry_kept e.kept };
}

// A name as text.
fn text_of(name: &Name) -> &str
    ensures value { result.now ≡ name.now }
    ensures lawful { IsText is_name_byte name.now }
{
    let _bytes = name.as_bytes();
    name.as_str()
}

impl ListedEntry {
    /// The row of an entry. It takes memory for one that isn't plain.
    pub fn of(alloc: Global, entry: &Entry) -> Result<ListedEntry, AllocError>
        ensures { IfOk result (λ listed. listed ≡ entry.now) }
    {
        let kept = match PlainEntry::of(entry) {
            Some(plain) => Kept::Plain(plain),
            None => Kept::Whole(Box::new(alloc, *entry)?),
        };
        Ok(ListedEntry { kept })
    }

    /// The entry.
    pub fn entry(&self) -> Entry
        ensures { result ≡ self.now }
    {
        match &self.kept {
            Kept::Plain(plain) => plain.entry(),
            Kept::Whole(entry) => **entry,
        }
    }

    /// The job's name.
    pub fn name(&self) -> &str
        ensures value { result.now ≡ self.now.name }
        ensures lawful { IsText is_name_byte self.now.name }
    {
        match &self.kept {
            Kept::Plain(plain) => plain.names.name_text(),
            Kept::Whole(entry) => text_of(&entry.name),
        }
    }

    /// Who submitted it.
    pub fn user(&self) -> &str
        ensures value { result.now ≡ self.now.user }
        ensures lawful { IsText is_name_byte self.now.user }
    {
        match &self.kept {
            Kept::Plain(plain) => plain.names.user_text(),
            Kept::Whole(entry) => text_of(&entry.user),
        }
    }

    /// Blocks of 512 bytes.
    pub fn size(&self) -> u32
        ensures { result ≡ self.now.size }
    {
        match &self.kept {
            Kept::Plain(plain) => plain.size,
            Kept::Whole(entry) => entry.size,
        }
    }

    /// Its state.
    pub fn state(&self) -> EntryState
        ensures { result ≡ self.now.state }
    {
        match &self.kept {
            Kept::Plain(plain) => plain.state.state(),
            Kept::Whole(entry) => entry.state,
        }
    }

    /// The entry's number.
    pub fn number(&self) -> u32
        ensures { result ≡ self.now.number }
    {
        match &self.kept {
            Kept::Plain(plain) => plain.number,
            Kept::Whole(entry) => entry.number,
        }
    }
}
