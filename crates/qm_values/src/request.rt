// Which request a function makes of its items.
ghost use Rattle.std.specs.Prelude.{◌≡◌};
ghost use Rattle.qm_values.specs.Asked.{change_asked, merge_of};

use crate::codes::{QUEUE, TO_QUEUE};
use crate::entries::{delete_entry, set_entry};
use crate::function::Function;
use crate::items::Item;
use crate::looking::Lists;
use crate::others::{
    append_of, define_characteristic, define_form, delete_characteristic, delete_form, drop_of,
    fill_of,
};
use crate::queues::{abort_job, delete_queue, initialize_of, set_queue, start_queue, stop_queue};
use crate::reading::short_name_in;
use qm_kinds::{Request, RequestKind};

// The jobs that wait in a queue go to another.
fn merge_of(items: &[Item]) -> Option<Request>
    ensures { result ≡ merge_of items.now }
{
    let to = short_name_in(items, TO_QUEUE)?;
    let from = short_name_in(items, QUEUE)?;
    Some(Request::Merge { to, from })
}

/// What a function changes, where nothing that it needs is missing; but for the submitting of a job, where this is none.
pub fn change_asked(function: Function, items: &[Item], lists: Lists) -> Option<Request>
    ensures { result ≡ change_asked function items.now lists }
{
    match function {
        Function::Request(RequestKind::Append) => append_of(items, lists.bytes),
        Function::Request(RequestKind::Fill) => fill_of(items),
        Function::Request(RequestKind::Drop) => drop_of(items),
        Function::Request(RequestKind::DefineForm) => define_form(items),
        Function::Request(RequestKind::DeleteForm) => delete_form(items),
        Function::Request(RequestKind::DefineCharacteristic) => define_characteristic(items),
        Function::Request(RequestKind::DeleteCharacteristic) => delete_characteristic(items),
        Function::Request(RequestKind::InitializeQueue) => initialize_of(items, lists),
        Function::Request(RequestKind::SetQueue) => set_queue(items, lists),
        Function::Request(RequestKind::StartQueue) => start_queue(items, lists),
        Function::Request(RequestKind::StopQueue) => stop_queue(items),
        Function::Request(RequestKind::AbortJob) => abort_job(items),
        Function::Request(RequestKind::DeleteQueue) => delete_queue(items),
        Function::Request(RequestKind::Merge) => merge_of(items),
        Function::Request(RequestKind::SetEntry) => set_entry(items, lists),
        Function::Request(RequestKind::DeleteEntry) => delete_entry(items),
        _ => None,
    }
}
