// The full spelling of a command.
ghost use Rattle.std.specs.Prelude.{◌≡◌, Some, IfOk, IfErr};
ghost use Rattle.qm_spelling.specs.Commands.{request_text, nodes_text, command_text, spelling_of};
ghost use Rattle.qm_spelling.specs.Faults.{Explains};

use crate::fault::PrintFault;
use crate::forms::{CharacteristicText, FormText};
use crate::jobs::{JobText, SetEntryText};
use crate::listings::QueryText;
use crate::pieces::NamesText;
use crate::queues::{AbortText, NewQueueText, QueueSettingsText, StopText};
use qm_kinds::{Input, Name, Request, Seq};
use qm_sayable::is_command;
use std::alloc::Global;
use std::fmt;

// What a request is asked for by.
#[derive(Clone, Copy)]
struct RequestText<'a>(&'a Request);

// The nodes on which the queue manager may run, where they are given.
#[derive(Clone, Copy)]
struct NodesText<'a>(&'a Option<Seq<Name>>);

// What an input is asked for by.
#[derive(Clone, Copy)]
struct CommandText<'a>(&'a Input);

impl fmt::Display for RequestText<'_> {
    ghost output = { λ r. Some (request_text r.0.now) };

    fn fmt<W: fmt::Write>(&self, f: &mut fmt::Formatter<W>) -> fmt::Result {
        match self.0 {
            Request::DefineForm(form) => write!(f, "{}", FormText(form)),
            Request::DeleteForm { name } => write!(f, "DELETE/FORM {name}"),
            Request::DefineCharacteristic(characteristic) => {
                write!(f, "{}", CharacteristicText(characteristic))
            }
            Request::DeleteCharacteristic { name } => write!(f, "DELETE/CHARACTERISTIC {name}"),
            Request::InitializeQueue(new) => write!(f, "{}", NewQueueText(new)),
            Request::SetQueue { name, change } => {
                write!(f, "SET QUEUE {name}{}", QueueSettingsText(change))
            }
            Request::StartQueue { name, change } => {
                write!(f, "START/QUEUE {name}{}", QueueSettingsText(change))
            }
            Request::StopQueue { name, how } => {
                let how = *how;
                write!(f, "{}", StopText { name, how })
            }
            Request::AbortJob {
                queue,
                entry,
                requeue,
            } => {
                let abort = AbortText {
                    queue,
                    entry: *entry,
                    requeue: *requeue,
                };
                write!(f, "{abort}")
            }
            Request::DeleteQueue { name } => write!(f, "DELETE/QUEUE {name}"),
            Request::Merge { to, from } => write!(f, "ASSIGN/MERGE {to} {from}"),
            Request::Submit(job) => write!(f, "{}", JobText(job)),
            Request::SetEntry { entry, change } => {
                let entry = *entry;
                write!(f, "{}", SetEntryText { entry, change })
            }
            Request::DeleteEntry { entry } => write!(f, "DELETE/ENTRY={entry}"),
            _ => Ok(()),
        }
    }
}

impl fmt::Display for NodesText<'_> {
    ghost output = { λ n. Some (nodes_text n.0.now) };

    fn fmt<W: fmt::Write>(&self, f: &mut fmt::Formatter<W>) -> fmt::Result {
        match self.0 {
            None => Ok(()),
            Some(nodes) if nodes.is_empty() => f.write_str("/ON=*"),
            Some(nodes) => write!(f, "/ON={}", NamesText(nodes.as_slice())),
        }
    }
}

impl fmt::Display for CommandText<'_> {
    ghost output = { λ c. Some (command_text c.0.now) };

    fn fmt<W: fmt::Write>(&self, f: &mut fmt::Formatter<W>) -> fmt::Result {
        match self.0 {
            Input::Ask(request) => write!(f, "{}", RequestText(request.get())),
            Input::Show(query) => write!(f, "{}", QueryText(query)),
            Input::TakeManager { on } => write!(f, "START/QUEUE/MANAGER{}", NodesText(on)),
            Input::Compact
            | Input::Fetch { .. }
            | Input::StopNode
            | Input::StartNode
            | Input::Fault { .. } => Ok(()),
        }
    }
}

/// The one full spelling of an input: verb and option whole, the parameters, and a qualifier for each thing that isn't as it is where
/// nothing is given, in the order of the tables; lists in parentheses, times absolute and in quotes. The user who types the command
/// isn't part of it. It is read to the same input, at any moment, where that user types it ([`crate::spellings_read_back`]).
///
/// `NoCommand` comes exactly where the input has no spelling, which is where no text asks for it
/// ([`crate::what_is_read_has_a_spelling`]). Memory may run out where it has one; it is taken in the length of the
/// text.
pub fn print_command(alloc: Global, input: &Input) -> Result<Vec<u8>, PrintFault>
    ensures text { IfOk result (λ text. spelling_of input.now ≡ Some text.items) }
    ensures cause { IfErr result (λ fault. Explains (spelling_of input.now) fault) }
{
    if !is_command(input) {
        return Err(PrintFault::NoCommand);
    }
    match format!(in alloc; "{}", CommandText(input)) {
        Ok(text) => Ok(text.into_bytes()),
        Err(_) => Err(PrintFault::NoMemory),
    }
}
