// What is printed of the rows of a listing.
ghost use Rattle.std.specs.Prelude.{Some};
ghost use Rattle.qm_model.specs.Words.{listed, name_text, entry_text, place_text, queue_text, form_text, characteristic_text, row_text};
ghost use Rattle.qm_show.specs.Behind.{behind_commas};

use crate::act::ManagerText;
use crate::columns::columns_of;
use crate::status::StatusText;
use qm_kinds::{Characteristic, Form, ListedEntry, Name, Queue, QueueKind, Row, Seq};
use std::fmt;

/// A row of a listing: a queue, an entry, a form, a characteristic or the queue manager.
#[derive(Clone, Copy)]
pub struct RowText<'a>(pub &'a Row);

// An entry, in columns.
#[derive(Clone, Copy)]
struct EntryText<'a>(&'a ListedEntry);

#[derive(Clone, Copy)]
struct QueueText<'a>(&'a Queue);

// Where a queue stands.
#[derive(Clone, Copy)]
struct PlaceText<'a>(&'a Queue);

#[derive(Clone, Copy)]
struct FormText<'a>(&'a Form);

#[derive(Clone, Copy)]
struct CharacteristicText<'a>(&'a Characteristic);

// Names with commas between them.
#[derive(Clone, Copy)]
struct ListedText<'a>(&'a Seq<Name>);

// Names, each behind a comma.
#[derive(Clone, Copy)]
struct OthersText<'a>(&'a [Name]);

// A name, or nothing.
#[derive(Clone, Copy)]
struct NameText<'a>(&'a Option<Name>);

impl fmt::Display for NameText<'_> {
    ghost output = { λ n. Some (name_text n.0.now) };

    fn fmt<W: fmt::Write>(&self, f: &mut fmt::Formatter<W>) -> fmt::Result {
        match self.0 {
            None => Ok(()),
            Some(name) => write!(f, "{name}"),
        }
    }
}

impl fmt::Display for OthersText<'_> {
    ghost output = { λ n. Some (behind_commas n.0.now) };

    fn fmt<W: fmt::Write>(&self, f: &mut fmt::Formatter<W>) -> fmt::Result {
        for name in self.0 {
            write!(f, ",{name}")?;
        }
        Ok(())
    }
}

impl fmt::Display for ListedText<'_> {
    ghost output = { λ n. Some (listed n.0.now) };

    #[tactic(auto, using(crate::proofs::Listed::listed_is))]
    fn fmt<W: fmt::Write>(&self, f: &mut fmt::Formatter<W>) -> fmt::Result {
        match self.0.as_slice() {
            [] => Ok(()),
            [first, others @ ..] => write!(f, "{first}{}", OthersText(others)),
        }
    }
}

impl fmt::Display for EntryText<'_> {
    ghost output = { λ e. Some (entry_text e.0.now) };

    fn fmt<W: fmt::Write>(&self, f: &mut fmt::Formatter<W>) -> fmt::Result {
        f.write_str(columns_of(self.0).as_str())?;
        StatusText(&self.0.state()).fmt(f)
    }
}

impl fmt::Display for PlaceText<'_> {
    ghost output = { λ q. Some (place_text q.0.now.kind q.0.now) };

    fn fmt<W: fmt::Write>(&self, f: &mut fmt::Formatter<W>) -> fmt::Result {
        let node = NameText(&self.0.node);
        let device = NameText(&self.0.device);
        let form = NameText(&self.0.mounted);
        match self.0.kind {
            QueueKind::Batch => write!(f, ", on {node}::"),
            QueueKind::Print => write!(f, ", on {node}::{device}:, mounted form {form}"),
            QueueKind::GenericBatch | QueueKind::GenericPrint => Ok(()),
        }
    }
}

impl fmt::Display for QueueText<'_> {
    ghost output = { λ q. Some (queue_text q.0.now) };

    fn fmt<W: fmt::Write>(&self, f: &mut fmt::Formatter<W>) -> fmt::Result {
        let queue = self.0;
        let place = PlaceText(queue);
        write!(
            f,
            "{} queue {}, {}{place}",
            queue.kind, queue.name, queue.state
        )
    }
}

impl fmt::Display for FormText<'_> {
    ghost output = { λ f. Some (form_text f.0.now) };

    fn fmt<W: fmt::Write>(&self, f: &mut fmt::Formatter<W>) -> fmt::Result {
        let form = self.0;
        write!(
            f,
            "form {}, number {}, stock {}",
            form.name, form.number, form.stock
        )
    }
}

impl fmt::Display for CharacteristicText<'_> {
    ghost output = { λ c. Some (characteristic_text c.0.now) };

    fn fmt<W: fmt::Write>(&self, f: &mut fmt::Formatter<W>) -> fmt::Result {
        write!(
            f,
            "characteristic {}, number {}",
            self.0.name, self.0.number
        )
    }
}

impl fmt::Display for RowText<'_> {
    ghost output = { λ r. Some (row_text r.0.now) };

    fn fmt<W: fmt::Write>(&self, f: &mut fmt::Formatter<W>) -> fmt::Result {
        match self.0 {
            Row::Queue(queue) => write!(f, "{}", QueueText(queue.get())),
            Row::Entry(entry) => EntryText(entry).fmt(f),
            Row::Form(form) => write!(f, "{}", FormText(form)),
            Row::Characteristic(characteristic) => {
                write!(f, "{}", CharacteristicText(characteristic))
            }
            Row::Manager { node, epoch, may } => {
                let manager = ManagerText {
                    node,
                    epoch: *epoch,
                };
                write!(f, "{manager}, may run on {}", ListedText(may))
            }
        }
    }
}
