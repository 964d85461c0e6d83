// Which qualifiers a command takes, and what value each takes.
ghost use Rattle.std.specs.Prelude.{◌≡◌};
ghost use Rattle.qm_commands.specs.Rules.{own_rules, settings, most_values, may_have_key, needs_value};

use crate::table::Command;
use crate::word::Word;

/// What value a qualifier takes. A list of one value needs no parentheses, and one value may stand in them.
#[derive(Clone, Copy)]
pub enum Takes {
    /// None.
    Nothing,
    /// One.
    One,
    /// One, or a list of two.
    Pair,
    /// A list of at most 65,535 values.
    List,
    /// One, which may have `=` and a value of its own behind it.
    Keyed,
    /// A list of at most 65,535 values, each of which may have `=` and a value of its own behind it.
    KeyedList,
}

/// The name of an option or a qualifier, and what value it takes.
pub type Rule = (Word, Takes);

// What can be set for a queue.
const QUEUE_SETTINGS: [Rule; 9] = [
    (Word::JobLimit, Takes::One),
    (Word::Characteristics, Takes::List),
    (Word::NoCharacteristics, Takes::Nothing),
    (Word::FormMounted, Takes::One),
    (Word::BlockLimit, Takes::Pair),
    (Word::NoBlockLimit, Takes::Nothing),
    (Word::Schedule, Takes::One),
    (Word::Retain, Takes::One),
    (Word::NoRetain, Takes::Nothing),
];

// What can be set for a job when it is submitted.
const JOB_SETTINGS: [Rule; 16] = [
    (Word::Queue, Takes::One),
    (Word::Name, Takes::One),
    (Word::Priority, Takes::One),
    (Word::After, Takes::One),
    (Word::Hold, Takes::Nothing),
    (Word::Retain, Takes::Keyed),
    (Word::Restart, Takes::Nothing),
    (Word::NoRestart, Takes::Nothing),
    (Word::Characteristics, Takes::List),
    (Word::Notify, Takes::Nothing),
    (Word::NoNotify, Takes::Nothing),
    (Word::Identify, Takes::Nothing),
    (Word::NoIdentify, Takes::Nothing),
    (Word::NoLogFile, Takes::Nothing),
    (Word::NoPrinter, Takes::Nothing),
    (Word::Keep, Takes::Nothing),
];

const INITIALIZE: [Rule; 5] = [
    (Word::Queue, Takes::Nothing),
    (Word::Batch, Takes::Nothing),
    (Word::Generic, Takes::List),
    (Word::On, Takes::One),
    (Word::Start, Takes::Nothing),
];

const SET_ENTRY: [Rule; 12] = [
    (Word::Release, Takes::Nothing),
    (Word::Hold, Takes::Nothing),
    (Word::After, Takes::One),
    (Word::NoAfter, Takes::Nothing),
    (Word::Priority, Takes::One),
    (Word::Name, Takes::One),
    (Word::Characteristics, Takes::List),
    (Word::Form, Takes::One),
    (Word::Requeue, Takes::One),
    (Word::Restart, Takes::Nothing),
    (Word::NoRestart, Takes::Nothing),
    (Word::Retain, Takes::Keyed),
];

const START_MANAGER: [Rule; 3] = [
    (Word::Queue, Takes::Nothing),
    (Word::Manager, Takes::Nothing),
    (Word::On, Takes::List),
];

const START_QUEUE: [Rule; 1] = [(Word::Queue, Takes::Nothing)];

const STOP_QUEUE: [Rule; 6] = [
    (Word::Queue, Takes::Nothing),
    (Word::Next, Takes::Nothing),
    (Word::Reset, Takes::Nothing),
    (Word::Abort, Takes::Nothing),
    (Word::Requeue, Takes::Nothing),
    (Word::Entry, Takes::One),
];

const DELETE: [Rule; 4] = [
    (Word::Queue, Takes::Nothing),
    (Word::Form, Takes::Nothing),
    (Word::Characteristic, Takes::Nothing),
    (Word::Entry, Takes::One),
];

const ASSIGN_MERGE: [Rule; 1] = [(Word::Merge, Takes::Nothing)];

const DEFINE_FORM: [Rule; 8] = [
    (Word::Form, Takes::Nothing),
    (Word::Characteristic, Takes::Nothing),
    (Word::Stock, Takes::One),
    (Word::Length, Takes::One),
    (Word::Width, Takes::One),
    (Word::Margin, Takes::KeyedList),
    (Word::Wrap, Takes::Nothing),
    (Word::Truncate, Takes::Nothing),
];

const DEFINE_CHARACTERISTIC: [Rule; 2] = [
    (Word::Form, Takes::Nothing),
    (Word::Characteristic, Takes::Nothing),
];

const PRINT: [Rule; 4] = [
    (Word::Form, Takes::One),
    (Word::Copies, Takes::One),
    (Word::Flag, Takes::Nothing),
    (Word::NoFlag, Takes::Nothing),
];

const SHOW_LISTS: [Rule; 3] = [
    (Word::Form, Takes::Nothing),
    (Word::ShownCharacteristics, Takes::Nothing),
    (Word::Managers, Takes::Nothing),
];

const SHOW_QUEUE: [Rule; 4] = [
    (Word::AllJobs, Takes::Nothing),
    (Word::Batch, Takes::Nothing),
    (Word::Device, Takes::Nothing),
    (Word::Generic, Takes::Nothing),
];

/// The options and the qualifiers of a command, but for the settings that it shares with others.
pub fn own_rules(command: Command) -> &'static [Rule]
    ensures { result.now ≡ own_rules command }
{
    match command {
        Command::InitializeQueue => &INITIALIZE,
        Command::SetQueue => &[],
        Command::SetEntry => &SET_ENTRY,
        Command::StartManager => &START_MANAGER,
        Command::StartQueue => &START_QUEUE,
        Command::StopQueue => &STOP_QUEUE,
        Command::DeleteQueue
        | Command::DeleteForm
        | Command::DeleteCharacteristic
        | Command::DeleteEntry => &DELETE,
        Command::AssignMerge => &ASSIGN_MERGE,
        Command::DefineForm => &DEFINE_FORM,
        Command::DefineCharacteristic => &DEFINE_CHARACTERISTIC,
        Command::Submit => &[],
        Command::Print => &PRINT,
        Command::ShowForms | Command::ShowCharacteristics | Command::ShowManagers => &SHOW_LISTS,
        Command::ShowQueue => &SHOW_QUEUE,
        Command::ShowEntry => &[],
    }
}

/// The settings that a command shares with others.
pub fn settings(command: Command) -> &'static [Rule]
    ensures { result.now ≡ settings command }
{
    match command {
        Command::InitializeQueue | Command::SetQueue | Command::StartQueue => &QUEUE_SETTINGS,
        Command::Submit | Command::Print => &JOB_SETTINGS,
        _ => &[],
    }
}

/// How many values may be given.
pub fn most_values(takes: Takes) -> usize
    ensures { result ≡ most_values takes }
{
    match takes {
        Takes::Nothing => 0,
        Takes::One | Takes::Keyed => 1,
        Takes::Pair => 2,
        Takes::List | Takes::KeyedList => 65_535,
    }
}

/// Whether a value may have `=` and a value of its own behind it.
pub fn may_have_key(takes: Takes) -> bool
    ensures { result ≡ may_have_key takes }
{
    match takes {
        Takes::Keyed | Takes::KeyedList => true,
        _ => false,
    }
}

/// Whether a value must be given.
pub fn needs_value(takes: Takes) -> bool
    ensures { result ≡ needs_value takes }
{
    match takes {
        Takes::Nothing => false,
        _ => true,
    }
}
