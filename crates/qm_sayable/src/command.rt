// Which inputs some command asks for.
ghost use Rattle.std.specs.Prelude.{◌≡◌, true};
ghost use Rattle.std.specs.List.{list_all};
ghost use Rattle.std.specs.Option.{option_map_or};
ghost use Rattle.qm_dcl.specs.Values.{is_node_name};
ghost use Rattle.qm_sayable.specs.Commands.{is_request, are_nodes, is_command};

use crate::forms::is_form;
use crate::jobs::{is_entry_change, is_job};
use crate::listings::is_query;
use crate::queues::{are_queue_settings, is_new_queue, sets_queue};
use crate::values::{fits_list, is_definable, is_node_name, is_short};
use qm_kinds::{Input, Name, Request, Seq};

// Whether some command asks for a request.
fn is_request(request: &Request) -> bool
    ensures { result ≡ is_request request.now }
{
    match request {
        Request::DefineForm(form) => is_form(form),
        Request::DeleteForm { name } | Request::DeleteCharacteristic { name } => is_definable(name),
        Request::DefineCharacteristic(characteristic) => is_definable(&characteristic.name),
        Request::InitializeQueue(new) => is_new_queue(new),
        Request::SetQueue { name, change } => {
            is_short(name) && sets_queue(change) && are_queue_settings(change)
        }
        Request::StartQueue { name, change } => is_short(name) && are_queue_settings(change),
        Request::StopQueue { name, .. } | Request::DeleteQueue { name } => is_short(name),
        Request::AbortJob { queue, .. } => is_short(queue),
        Request::Merge { to, from } => is_short(to) && is_short(from),
        Request::Submit(job) => is_job(job),
        Request::SetEntry { change, .. } => is_entry_change(change),
        Request::DeleteEntry { .. } => true,
        Request::Append { .. }
        | Request::Fill { .. }
        | Request::Drop { .. }
        | Request::Mark { .. }
        | Request::Done { .. }
        | Request::Tick
        | Request::NodeUp
        | Request::NodeLost { .. }
        | Request::Took { .. } => false,
    }
}

fn have_node_names(nodes: &[Name]) -> bool
    ensures { result ≡ list_all is_node_name nodes.now }
{
    nodes.iter().all(|node| is_node_name(node))
}

// Whether a command can name these nodes, where they are given.
fn are_nodes_given(nodes: &Option<Seq<Name>>) -> bool
    ensures { result ≡ option_map_or are_nodes nodes.now true }
{
    match nodes {
        None => true,
        Some(nodes) => fits_list(nodes.len()) && have_node_names(nodes.as_slice()),
    }
}

/// Whether some command asks for an input: whether a text does, of some user, at some moment.
///
/// DCL Dictionary, on the commands of queues, jobs, forms and characteristics.
pub fn is_command(input: &Input) -> bool
    ensures { result ≡ is_command input.now }
{
    match input {
        Input::Ask(request) => is_request(request.get()),
        Input::Show(query) => is_query(query),
        Input::TakeManager { on } => are_nodes_given(on),
        Input::Compact
        | Input::Fetch { .. }
        | Input::StopNode
        | Input::StartNode
        | Input::Fault { .. } => false,
    }
}
