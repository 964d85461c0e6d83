// What is printed of a refusal.
ghost use Rattle.std.specs.Prelude.{◌≡◌, ◌++◌, Some};
ghost use Rattle.qm_model.specs.Words.{no_more_text, refusal_text};
ghost use Rattle.qm_show.specs.Refusals.{refusal_detail};

use crate::status::StatusText;
use qm_kinds::{Holder, Listing, NameOrNumber, Refusal};
use std::fmt;

/// Why a call was refused, as `NOSUCHQUE, LPA`.
#[derive(Clone, Copy)]
pub struct RefusalText<'a>(pub &'a Refusal);

// What a refusal tells behind its words.
#[derive(Clone, Copy)]
struct DetailText<'a>(&'a Refusal);

// A listing has no more rows.
fn no_more(listing: &Listing) -> &'static str
    ensures { result.now ≡ no_more_text listing.now }
{
    match listing {
        Listing::Queues => "NOMOREQUE",
        Listing::Jobs => "NOMOREJOB",
        Listing::Entries => "NOMOREENT",
        Listing::Forms => "NOMOREFORM",
        Listing::Characteristics => "NOMORECHAR",
        Listing::Manager => "NOMOREMAN",
        Listing::Cancel => "NOMORECANCEL",
    }
}

// The words of a refusal, up to what it tells.
fn words_of(refusal: &Refusal) -> &'static str
    ensures { result.now ++ refusal_detail refusal.now ≡ refusal_text refusal.now }
{
    match refusal {
        Refusal::NoSuchQueue { .. } => "NOSUCHQUE, ",
        Refusal::NoSuchEntry { .. } => "NOSUCHENT, ",
        Refusal::NoSuchForm { .. } => "NOSUCHFORM, ",
        Refusal::NoSuchCharacteristic { .. } => "NOSUCHCHAR, ",
        Refusal::DuplicateQueue => "DUPQUE",
        Refusal::DuplicateForm => "DUPFORM",
        Refusal::DuplicateCharacteristic => "DUPCHAR",
        Refusal::QueueNotStopped { .. } => "QUENOTSTOP, ",
        Refusal::Referenced { .. } => "REFERENCED, ",
        Refusal::WrongKind => "WRONGKIND",
        Refusal::NotRunning => "NOTRUNNING",
        Refusal::StaleRun { .. } => "STALERUN, next run ",
        Refusal::NoSuchFile => "NOSUCHFILE",
        Refusal::SpoolFull => "SPOOLFULL",
        Refusal::EntriesFull => "ENTRIESFULL",
        Refusal::QueuesFull => "QUEUESFULL",
        Refusal::NumbersSpent => "NUMBERSSPENT",
        Refusal::NotHeld => "NOTHELD",
        Refusal::GenericTarget { .. } => "TARGET, ",
        Refusal::BadValue => "INVPARVAL",
        Refusal::NodeDown => "NODEDOWN",
        Refusal::NoSuchNode { .. } => "NOSUCHNODE, ",
        Refusal::NotRestartable => "NORESTART",
        Refusal::ParseFault { .. } => "PARSE, byte ",
        Refusal::EntryBusy { .. } => "ENTRYBUSY, ",
        Refusal::NoContext => "NOCONTEXT",
        Refusal::NoMore { .. } => "",
    }
}

impl fmt::Display for DetailText<'_> {
    ghost output = { λ d. Some (refusal_detail d.0.now) };

    fn fmt<W: fmt::Write>(&self, f: &mut fmt::Formatter<W>) -> fmt::Result {
        match self.0 {
            Refusal::NoSuchQueue { name }
            | Refusal::NoSuchForm {
                wanted: NameOrNumber::Name(name),
            }
            | Refusal::NoSuchCharacteristic {
                wanted: NameOrNumber::Name(name),
            }
            | Refusal::Referenced {
                by: Holder::Queue(name),
            }
            | Refusal::GenericTarget { name }
            | Refusal::NoSuchNode { name } => name.fmt(f),
            Refusal::NoSuchEntry { number }
            | Refusal::Referenced {
                by: Holder::Entry(number),
            } => number.fmt(f),
            Refusal::NoSuchForm {
                wanted: NameOrNumber::Number(number),
            }
            | Refusal::NoSuchCharacteristic {
                wanted: NameOrNumber::Number(number),
            } => number.fmt(f),
            Refusal::Referenced { by: Holder::Always } => f.write_str("ALWAYS"),
            Refusal::QueueNotStopped { state } => state.fmt(f),
            Refusal::StaleRun { next } => next.fmt(f),
            Refusal::ParseFault { place, kind } => write!(f, "{place}: {kind}"),
            Refusal::EntryBusy { state } => StatusText(state).fmt(f),
            Refusal::NoMore { listing } => f.write_str(no_more(listing)),
            _ => Ok(()),
        }
    }
}

impl fmt::Display for RefusalText<'_> {
    ghost output = { λ r. Some (refusal_text r.0.now) };

    fn fmt<W: fmt::Write>(&self, f: &mut fmt::Formatter<W>) -> fmt::Result {
        write!(f, "{}{}", words_of(self.0), DetailText(self.0))
    }
}
