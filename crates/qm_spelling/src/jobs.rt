// Commands of jobs.
ghost use Rattle.std.specs.Prelude.{◌≡◌, Some, option_map};
ghost use Rattle.qm_dcl.specs.Submitting.{default_queue};
ghost use Rattle.qm_commands.specs.declared.word.Word.TheVariants as words;
ghost use Rattle.qm_sayable.specs.Times.{time_text};
ghost use Rattle.qm_spelling.specs.Pieces.{valued, references_text};
ghost use Rattle.qm_spelling.specs.Jobs.{job_retain_text, restart_text, unless_default, number_unless_default, retain_unless_default, restart_unless_default, job_characteristics_text, job_place_text, job_waiting_text, job_terms_text, job_settings_text, print_settings_text, job_text, entry_after_text, entry_waiting_text, entry_needs_text, entry_terms_text, entry_settings_text, set_entry_text};

use crate::pieces::{GivenByte, GivenForm, GivenName, Marked, ReferencesText};
use qm_kinds::{
    EntryChange, Job, JobKind, JobRetain, Moment, Name, NameOrNumber, Seq, batch_queue, print_queue,
};
use qm_sayable::QuotedTime;
use std::fmt;

/// `SUBMIT` or `PRINT`
#[derive(Clone, Copy)]
pub(crate) struct JobText<'a>(pub(crate) &'a Job);

/// `SET ENTRY`
#[derive(Clone, Copy)]
pub(crate) struct SetEntryText<'a> {
    pub(crate) entry: u32,
    pub(crate) change: &'a EntryChange,
}

// Whether a job is kept.
#[derive(Clone, Copy)]
struct JobRetainText(JobRetain);

// Whether a job is kept, where it is given.
#[derive(Clone, Copy)]
struct GivenRetain(Option<JobRetain>);

// Whether a job may start again, where it is given.
#[derive(Clone, Copy)]
struct RestartText(Option<bool>);

// The moment before which a job doesn't start, where it is given.
#[derive(Clone, Copy)]
struct AfterText(Option<Moment>);

// The moment before which an entry doesn't start, or that it waits for none, where it is given.
#[derive(Clone, Copy)]
struct EntryAfterText(Option<Option<Moment>>);

// The characteristics that a job asks for.
#[derive(Clone, Copy)]
struct JobCharacteristicsText<'a>(&'a Seq<NameOrNumber>);

// The characteristics of an entry, where they are given.
#[derive(Clone, Copy)]
struct EntryCharacteristicsText<'a>(&'a Option<Seq<NameOrNumber>>);

// The queue of a job, its name and its priority.
#[derive(Clone, Copy)]
struct JobPlaceText<'a>(&'a Job);

// For what a job waits.
#[derive(Clone, Copy)]
struct JobWaitingText<'a>(&'a Job);

// What becomes of a job that ends, and what it needs.
#[derive(Clone, Copy)]
struct JobTermsText<'a>(&'a Job);

// The qualifiers of jobs of both kinds.
#[derive(Clone, Copy)]
struct JobSettingsText<'a>(&'a Job);

// The qualifiers of print jobs alone.
#[derive(Clone, Copy)]
struct PrintSettingsText<'a>(&'a Job);

// For what an entry waits.
#[derive(Clone, Copy)]
struct EntryWaitingText<'a>(&'a EntryChange);

// The priority of an entry, its name, and what it needs.
#[derive(Clone, Copy)]
struct EntryNeedsText<'a>(&'a EntryChange);

// The queue to which an entry is moved, and what becomes of its job.
#[derive(Clone, Copy)]
struct EntryTermsText<'a>(&'a EntryChange);

// The qualifiers of what is changed of an entry.
#[derive(Clone, Copy)]
struct EntrySettingsText<'a>(&'a EntryChange);

impl fmt::Display for JobRetainText {
    ghost output = { λ r. Some (job_retain_text r.0) };

    fn fmt<W: fmt::Write>(&self, f: &mut fmt::Formatter<W>) -> fmt::Result {
        match self.0 {
            JobRetain::Default => f.write_str("DEFAULT"),
            JobRetain::Always => f.write_str("ALWAYS"),
            JobRetain::Failed => f.write_str("ERROR"),
            JobRetain::Until(moment) => write!(f, "UNTIL={}", QuotedTime(moment)),
        }
    }
}

impl fmt::Display for GivenRetain {
    ghost output = { λ r. Some (valued words.Retain (option_map job_retain_text r.0)) };

    fn fmt<W: fmt::Write>(&self, f: &mut fmt::Formatter<W>) -> fmt::Result {
        match self.0 {
            None => Ok(()),
            Some(retain) => write!(f, "/RETAIN={}", JobRetainText(retain)),
        }
    }
}

impl fmt::Display for RestartText {
    ghost output = { λ r. Some (restart_text r.0) };

    fn fmt<W: fmt::Write>(&self, f: &mut fmt::Formatter<W>) -> fmt::Result {
        match self.0 {
            None => Ok(()),
            Some(true) => f.write_str("/RESTART"),
            Some(false) => f.write_str("/NORESTART"),
        }
    }
}

impl fmt::Display for AfterText {
    ghost output = { λ a. Some (valued words.After (option_map time_text a.0)) };

    fn fmt<W: fmt::Write>(&self, f: &mut fmt::Formatter<W>) -> fmt::Result {
        match self.0 {
            None => Ok(()),
            Some(moment) => write!(f, "/AFTER={}", QuotedTime(moment)),
        }
    }
}

impl fmt::Display for EntryAfterText {
    ghost output = { λ a. Some (entry_after_text a.0) };

    fn fmt<W: fmt::Write>(&self, f: &mut fmt::Formatter<W>) -> fmt::Result {
        match self.0 {
            None => Ok(()),
            Some(None) => f.write_str("/NOAFTER"),
            Some(Some(moment)) => write!(f, "/AFTER={}", QuotedTime(moment)),
        }
    }
}

impl fmt::Display for JobCharacteristicsText<'_> {
    ghost output = { λ c. Some (job_characteristics_text c.0.now) };

    fn fmt<W: fmt::Write>(&self, f: &mut fmt::Formatter<W>) -> fmt::Result {
        if self.0.is_empty() {
            Ok(())
        } else {
            write!(f, "/CHARACTERISTICS={}", ReferencesText(self.0.as_slice()))
        }
    }
}

impl fmt::Display for EntryCharacteristicsText<'_> {
    ghost output = { λ c. Some (valued words.Characteristics (option_map references_text c.0.now)) };

    fn fmt<W: fmt::Write>(&self, f: &mut fmt::Formatter<W>) -> fmt::Result {
        match self.0 {
            None => Ok(()),
            Some(given) => write!(f, "/CHARACTERISTICS={}", ReferencesText(given.as_slice())),
        }
    }
}

impl fmt::Display for JobPlaceText<'_> {
    ghost output = { λ j. Some (job_place_text j.0.now) };

    fn fmt<W: fmt::Write>(&self, f: &mut fmt::Formatter<W>) -> fmt::Result {
        let job = self.0;
        let queue = GivenName {
            qualifier: "QUEUE",
            value: unless_default(&default_queue(job.kind), &job.queue),
        };
        let name = GivenName {
            qualifier: "NAME",
            value: unless_default(&job.file.name, &job.name),
        };
        let priority = GivenByte {
            qualifier: "PRIORITY",
            value: number_unless_default(100, job.priority),
        };
        write!(f, "{queue}{name}{priority}")
    }
}

impl fmt::Display for JobWaitingText<'_> {
    ghost output = { λ j. Some (job_waiting_text j.0.now) };

    fn fmt<W: fmt::Write>(&self, f: &mut fmt::Formatter<W>) -> fmt::Result {
        let after = AfterText(self.0.after);
        let hold = Marked {
            qualifier: "HOLD",
            given: self.0.hold,
        };
        write!(f, "{after}{hold}")
    }
}

impl fmt::Display for JobTermsText<'_> {
    ghost output = { λ j. Some (job_terms_text j.0.now) };

    fn fmt<W: fmt::Write>(&self, f: &mut fmt::Formatter<W>) -> fmt::Result {
        let job = self.0;
        let retain = GivenRetain(retain_unless_default(job.retain));
        let restart = RestartText(restart_unless_default(job.kind, job.restart));
        let characteristics = JobCharacteristicsText(&job.characteristics);
        write!(f, "{retain}{restart}{characteristics}")
    }
}

impl fmt::Display for JobSettingsText<'_> {
    ghost output = { λ j. Some (job_settings_text j.0.now) };

    fn fmt<W: fmt::Write>(&self, f: &mut fmt::Formatter<W>) -> fmt::Result {
        let place = JobPlaceText(self.0);
        let waiting = JobWaitingText(self.0);
        let terms = JobTermsText(self.0);
        write!(f, "{place}{waiting}{terms}")
    }
}

impl fmt::Display for PrintSettingsText<'_> {
    ghost output = { λ j. Some (print_settings_text j.0.now) };

    fn fmt<W: fmt::Write>(&self, f: &mut fmt::Formatter<W>) -> fmt::Result {
        let job = self.0;
        let form = GivenForm {
            qualifier: "FORM",
            value: job.form,
        };
        let copies = GivenByte {
            qualifier: "COPIES",
            value: number_unless_default(1, job.copies),
        };
        let flag = Marked {
            qualifier: "FLAG",
            given: job.flag,
        };
        write!(f, "{form}{copies}{flag}")
    }
}

impl fmt::Display for JobText<'_> {
    ghost output = { λ j. Some (job_text j.0.now.kind j.0.now) };

    fn fmt<W: fmt::Write>(&self, f: &mut fmt::Formatter<W>) -> fmt::Result {
        let job = self.0;
        let file = &job.file;
        let settings = JobSettingsText(job);
        match job.kind {
            JobKind::Batch => write!(f, "SUBMIT {file}{settings}"),
            JobKind::Print => write!(f, "PRINT {file}{settings}{}", PrintSettingsText(job)),
        }
    }
}

impl fmt::Display for EntryWaitingText<'_> {
    ghost output = { λ e. Some (entry_waiting_text e.0.now) };

    fn fmt<W: fmt::Write>(&self, f: &mut fmt::Formatter<W>) -> fmt::Result {
        let release = Marked {
            qualifier: "RELEASE",
            given: self.0.release,
        };
        let hold = Marked {
            qualifier: "HOLD",
            given: self.0.hold,
        };
        let after = EntryAfterText(self.0.after);
        write!(f, "{release}{hold}{after}")
    }
}

impl fmt::Display for EntryNeedsText<'_> {
    ghost output = { λ e. Some (entry_needs_text e.0.now) };

    fn fmt<W: fmt::Write>(&self, f: &mut fmt::Formatter<W>) -> fmt::Result {
        let change = self.0;
        let priority = GivenByte {
            qualifier: "PRIORITY",
            value: change.priority,
        };
        let name = GivenName {
            qualifier: "NAME",
            value: change.name,
        };
        let characteristics = EntryCharacteristicsText(&change.characteristics);
        let form = GivenForm {
            qualifier: "FORM",
            value: change.form,
        };
        write!(f, "{priority}{name}{characteristics}{form}")
    }
}

impl fmt::Display for EntryTermsText<'_> {
    ghost output = { λ e. Some (entry_terms_text e.0.now) };

    fn fmt<W: fmt::Write>(&self, f: &mut fmt::Formatter<W>) -> fmt::Result {
        let queue = GivenName {
            qualifier: "REQUEUE",
            value: self.0.queue,
        };
        let restart = RestartText(self.0.restart);
        let retain = GivenRetain(self.0.retain);
        write!(f, "{queue}{restart}{retain}")
    }
}

impl fmt::Display for EntrySettingsText<'_> {
    ghost output = { λ e. Some (entry_settings_text e.0.now) };

    fn fmt<W: fmt::Write>(&self, f: &mut fmt::Formatter<W>) -> fmt::Result {
        let waiting = EntryWaitingText(self.0);
        let needs = EntryNeedsText(self.0);
        let terms = EntryTermsText(self.0);
        write!(f, "{waiting}{needs}{terms}")
    }
}

impl fmt::Display for SetEntryText<'_> {
    ghost output = { λ e. Some (set_entry_text e.entry e.change.now) };

    fn fmt<W: fmt::Write>(&self, f: &mut fmt::Formatter<W>) -> fmt::Result {
        let settings = EntrySettingsText(self.change);
        write!(f, "SET ENTRY {}{settings}", self.entry)
    }
}

// The queue of jobs of a kind that name none.
fn default_queue(kind: JobKind) -> Name
    ensures { result ≡ default_queue kind }
{
    match kind {
        JobKind::Batch => batch_queue(),
        JobKind::Print => print_queue(),
    }
}

/// The name, unless it is the one that is meant where none is given.
pub(crate) fn unless_default(default: &Name, name: &Name) -> Option<Name>
    ensures { result ≡ unless_default default.now name.now }
{
    if name.as_bytes() == default.as_bytes() {
        None
    } else {
        Some(*name)
    }
}

/// The number, unless it is the one that is meant where none is given.
pub(crate) fn number_unless_default(default: u8, number: u8) -> Option<u8>
    ensures { result ≡ number_unless_default default number }
{
    if number == default {
        None
    } else {
        Some(number)
    }
}

// Whether a submitted job is kept, unless it is as the queue says.
fn retain_unless_default(retain: JobRetain) -> Option<JobRetain>
    ensures { result ≡ retain_unless_default retain }
{
    match retain {
        JobRetain::Default => None,
        JobRetain::Always => Some(JobRetain::Always),
        JobRetain::Failed => Some(JobRetain::Failed),
        JobRetain::Until(moment) => Some(JobRetain::Until(moment)),
    }
}

// Whether a job may start again, unless it is as for all jobs of its kind.
fn restart_unless_default(kind: JobKind, restart: bool) -> Option<bool>
    ensures { result ≡ restart_unless_default kind restart }
{
    match (kind, restart) {
        (JobKind::Batch, true) => Some(true),
        (JobKind::Print, false) => Some(false),
        (JobKind::Batch, false) | (JobKind::Print, true) => None,
    }
}
