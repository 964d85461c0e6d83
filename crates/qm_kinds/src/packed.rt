// The names of an entry, packed one behind another.
ghost use Rattle.std.specs.Prelude.{◌≡◌, ◌≤◌, ◌+◌, length, IfSome};
ghost use Rattle.qm_kinds.specs.Packed.{AreNames, AreWithin, IsWithin, Keeps, names_at, names_of, text_at, text_if_at};
ghost use Rattle.qm_kinds.specs.Text.{IsText, is_name_byte};

use crate::entry::Entry;
use crate::file::FileName;
use crate::name::{NAME_BYTES, Name};
use std::marker::Model;

// So many bytes the names of an entry may take together. Where its file has the job's name, that stands there once.
const ROOM: usize = 64;

// Room for six names that are as long as can be.
const MOST: usize = 234;

/// Where a name stands, by its first byte and the one behind its last.
#[derive(Clone, Copy)]
pub(crate) struct Span {
    from: u8,
    to: u8,
}

/// Where the names of an entry stand.
#[derive(Clone, Copy)]
pub(crate) struct Spans {
    home: Span,
    name: Span,
    user: Span,
    file: Span,
    extension: Option<Span>,
    form: Option<Span>,
}

// Names that are put one behind another.
#[derive(Drop)]
struct Packing {
    bytes: [u8; MOST],
    end: usize,
}

/// The names of an entry. Contracts see each of them.
#[derive(Drop)]
pub(crate) struct PackedNames {
    bytes: [u8; ROOM],
    spans: Spans,
}

impl Model for PackedNames {
    ghost use Rattle.std.specs.Prelude.{◌≡◌, length};
    ghost use Rattle.qm_kinds.specs.Packed.{AreNames, AreWithin, EntryNames, names_at};

    ghost Value = { EntryNames };

    ghost view = { λ p. names_at p.bytes p.spans };

    ghost invariant = { λ p. (length p.bytes ≡ 64) × AreWithin 64 p.spans × AreNames (names_at p.bytes p.spans) };
}

impl Packing {
    // Puts a name behind the others. What is copied has always the same size.
    fn put(&mut self, name: &Name) -> Span
        requires length { length self.old.bytes ≡ MOST }
        requires room { self.old.end + NAME_BYTES ≤ MOST }
        ensures length { length self.new.bytes ≡ MOST }
        ensures named { text_at self.new.bytes result ≡ name.now }
        ensures lawful { IsText is_name_byte name.now }
        ensures within { IsWithin self.new.end result }
        ensures kept { Keeps self.old.end self.old.bytes self.new.bytes }
        ensures more { self.old.end ≤ self.new.end }
        ensures few { self.new.end ≤ self.old.end + NAME_BYTES }
    {
        let from = self.end;
        let to = from + name.as_bytes().len();
        self.bytes[from..from + NAME_BYTES].copy_from_slice(name.padded());
        self.end = to;
        Span {
            from: from as u8,
            to: to as u8,
        }
    }

    // Puts a name there, if there is one.
    fn put_if_any(&mut self, name: &Option<Name>) -> Option<Span>
        requires length { length self.old.bytes ≡ MOST }
        requires room { self.old.end + NAME_BYTES ≤ MOST }
        ensures length { length self.new.bytes ≡ MOST }
        ensures named { text_if_at self.new.bytes result ≡ name.now }
        ensures lawful { IfSome name.now (IsText is_name_byte) }
        ensures within { IfSome result (IsWithin self.new.end) }
        ensures kept { Keeps self.old.end self.old.bytes self.new.bytes }
        ensures more { self.old.end ≤ self.new.end }
        ensures few { self.new.end ≤ self.old.end + NAME_BYTES }
    {
        match name {
            None => None,
            Some(name) => Some(self.put(name)),
        }
    }
}

// The names of an entry as they are put one behind another.
fn pack(entry: &Entry) -> (Packing, Spans)
    ensures length { length result.0.bytes ≡ MOST }
    ensures named { names_at result.0.bytes result.1 ≡ names_of entry.now }
    ensures lawful { AreNames (names_of entry.now) }
    ensures within { AreWithin result.0.end result.1 }
{
    let mut packing = Packing {
        bytes: [0; MOST],
        end: 0,
    };
    let home = packing.put(&entry.home);
    let name = packing.put(&entry.name);
    let user = packing.put(&entry.user);
    let extension = packing.put_if_any(&entry.file.extension);
    let form = packing.put_if_any(&entry.form);
    let file = if entry.file.name == entry.name {
        name
    } else {
        packing.put(&entry.file.name)
    };
    let spans = Spans {
        home,
        name,
        user,
        file,
        extension,
        form,
    };
    (packing, spans)
}

// What stands at a span.
fn text_in(bytes: &[u8], span: Span) -> &[u8]
    requires { IsWithin (length bytes.now) span }
    ensures { result.now ≡ text_at bytes.now span }
{
    &bytes[span.from as usize..span.to as usize]
}

// The name at a span.
fn name_in(bytes: &[u8], span: Span) -> Name
    requires within { IsWithin (length bytes.now) span }
    requires lawful { IsText is_name_byte (text_at bytes.now span) }
    ensures { result ≡ text_at bytes.now span }
{
    Name::of_bytes(text_in(bytes, span)).unwrap()
}

// The name at a span, if there is one.
fn name_if_in(bytes: &[u8], span: Option<Span>) -> Option<Name>
    requires within { IfSome span (IsWithin (length bytes.now)) }
    requires lawful { IfSome (text_if_at bytes.now span) (IsText is_name_byte) }
    ensures { result ≡ text_if_at bytes.now span }
{
    match span {
        None => None,
        Some(span) => Some(name_in(bytes, span)),
    }
}

impl PackedNames {
    /// The names of an entry, if they aren't too long together.
    pub(crate) fn of(entry: &Entry) -> Option<PackedNames>
        ensures { IfSome result (λ names. names ≡ names_of entry.now) }
    {
        let (packing, spans) = pack(entry);
        if packing.end > ROOM {
            return None;
        }
        let mut bytes = [0; ROOM];
        bytes.copy_from_slice(&packing.bytes[..ROOM]);
        Some(PackedNames { bytes, spans })
    }

    /// The queue to which it was submitted or moved.
    pub(crate) fn home(&self) -> Name
        ensures { result ≡ self.now.home }
    {
        name_in(&self.bytes, self.spans.home)
    }

    /// The job's name.
    pub(crate) fn name(&self) -> Name
        ensures { result ≡ self.now.name }
    {
        name_in(&self.bytes, self.spans.name)
    }

    /// The job's name as text.
    #[tactic(auto, using(crate::proofs::Ascii::name_is_text))]
    pub(crate) fn name_text(&self) -> &str
        ensures value { result.now ≡ self.now.name }
        ensures lawful { IsText is_name_byte self.now.name }
    {
        str::from_utf8(text_in(&self.bytes, self.spans.name)).unwrap()
    }

    /// Who submitted it.
    pub(crate) fn user(&self) -> Name
        ensures { result ≡ self.now.user }
    {
        name_in(&self.bytes, self.spans.user)
    }

    /// Who submitted it, as text.
    #[tactic(auto, using(crate::proofs::Ascii::name_is_text))]
    pub(crate) fn user_text(&self) -> &str
        ensures value { result.now ≡ self.now.user }
        ensures lawful { IsText is_name_byte self.now.user }
    {
        str::from_utf8(text_in(&self.bytes, self.spans.user)).unwrap()
    }

    /// The name of its file.
    pub(crate) fn file(&self) -> FileName
        ensures { result ≡ self.now.file }
    {
        FileName {
            name: name_in(&self.bytes, self.spans.file),
            extension: name_if_in(&self.bytes, self.spans.extension),
        }
    }

    /// The form of a print job.
    pub(crate) fn form(&self) -> Option<Name>
        ensures { result ≡ self.now.form }
    {
        name_if_in(&self.bytes, self.spans.form)
    }
}
