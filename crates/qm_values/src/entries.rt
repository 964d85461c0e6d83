// Requests for entries.
ghost use Rattle.std.specs.Prelude.{◌≡◌, option_map};
ghost use Rattle.qm_values.specs.Values.{long_said};
ghost use Rattle.qm_values.specs.Asked.{read_in, entry_change, set_entry};

use crate::codes::*;
use crate::items::Item;
use crate::looking::{Lists, is_given};
use crate::queues::has_more;
use crate::reading::{
    after_in, byte_in, job_retain_in, long_in, name_in, reference_in, short_name_in, truth_in,
};
use qm_kinds::{EntryChange, Request};

// What is changed of an entry.
fn entry_change(items: &[Item], lists: Lists) -> EntryChange
    ensures { result ≡ entry_change items.now lists }
{
    let Lists {
        characteristics,
        ..
    } = lists;
    EntryChange {
        release: is_given(items, RELEASE),
        hold: is_given(items, HOLD),
        after: after_in(items, AFTER),
        priority: byte_in(items, PRIORITY),
        name: name_in(items, JOB_NAME),
        characteristics,
        form: reference_in(items, FORM),
        queue: short_name_in(items, QUEUE),
        restart: truth_in(items, RESTART),
        retain: job_retain_in(items, RETAIN),
    }
}

/// An entry is changed, in one thing at least.
pub(crate) fn set_entry(items: &[Item], lists: Lists) -> Option<Request>
    ensures { result ≡ set_entry items.now lists }
{
    if !has_more(items) {
        return None;
    }
    let entry = long_in(items, ENTRY)?;
    Some(Request::SetEntry {
        entry,
        change: entry_change(items, lists),
    })
}

/// An entry is deleted.
pub(crate) fn delete_entry(items: &[Item]) -> Option<Request>
    ensures { result ≡ option_map Request.DeleteEntry (read_in long_said ENTRY items.now) }
{
    let entry = long_in(items, ENTRY)?;
    Some(Request::DeleteEntry { entry })
}
