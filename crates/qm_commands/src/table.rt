// The table of commands: verbs, options and parameters.
ghost use Rattle.std.specs.Prelude.{◌≡◌};
ghost use Rattle.qm_commands.specs.Table.{rows_of, takes_option, takes_object};

use crate::word::Word;

/// The first word of a command.
#[derive(Clone, Copy)]
pub enum Verb {
    Initialize,
    Set,
    Start,
    Stop,
    Delete,
    Assign,
    Define,
    Submit,
    Print,
    Show,
}

/// A command: a row of the table.
#[derive(Clone, Copy, Debug, PartialEq, Eq)]
pub enum Command {
    /// `INITIALIZE/QUEUE name`
    InitializeQueue,
    /// `SET QUEUE name`
    SetQueue,
    /// `SET ENTRY number`
    SetEntry,
    /// `START/QUEUE/MANAGER`
    StartManager,
    /// `START/QUEUE name`
    StartQueue,
    /// `STOP/QUEUE name`
    StopQueue,
    /// `DELETE/QUEUE name`
    DeleteQueue,
    /// `DELETE/FORM name`
    DeleteForm,
    /// `DELETE/CHARACTERISTIC name`
    DeleteCharacteristic,
    /// `DELETE/ENTRY=number`
    DeleteEntry,
    /// `ASSIGN/MERGE target source`
    AssignMerge,
    /// `DEFINE/FORM name number`
    DefineForm,
    /// `DEFINE/CHARACTERISTIC name number`
    DefineCharacteristic,
    /// `SUBMIT file`
    Submit,
    /// `PRINT file`
    Print,
    /// `SHOW QUEUE/FORM [pattern]`
    ShowForms,
    /// `SHOW QUEUE/CHARACTERISTICS [pattern]`
    ShowCharacteristics,
    /// `SHOW QUEUE/MANAGERS`
    ShowManagers,
    /// `SHOW QUEUE [pattern]`
    ShowQueue,
    /// `SHOW ENTRY [number or pattern]`
    ShowEntry,
}

/// A row of the table: a command of a verb.
#[derive(Clone, Copy)]
pub struct Row {
    pub command: Command,
    /// The option that is the first parameter.
    pub object: Option<Word>,
    /// The option behind a `/`.
    pub option: Option<Word>,
    /// A further option behind a `/`.
    pub further: Option<Word>,
    /// How many parameters the command needs; an object counts as one.
    pub least: usize,
    /// How many parameters the command takes; an object counts as one.
    pub most: usize,
    /// Whether the command needs a qualifier.
    pub must_set: bool,
}

const INITIALIZE: [Row; 1] = [Row {
    command: Command::InitializeQueue,
    object: None,
    option: Some(Word::Queue),
    further: None,
    least: 1,
    most: 1,
    must_set: false,
}];

const SET: [Row; 2] = [
    Row {
        command: Command::SetEntry,
        object: Some(Word::Entry),
        option: None,
        further: None,
        least: 2,
        most: 2,
        must_set: true,
    },
    Row {
        command: Command::SetQueue,
        object: Some(Word::Queue),
        option: None,
        further: None,
        least: 2,
        most: 2,
        must_set: true,
    },
];

const START: [Row; 2] = [
    Row {
        command: Command::StartManager,
        object: None,
        option: Some(Word::Queue),
        further: Some(Word::Manager),
        least: 0,
        most: 0,
        must_set: false,
    },
    Row {
        command: Command::StartQueue,
        object: None,
        option: Some(Word::Queue),
        further: None,
        least: 1,
        most: 1,
        must_set: false,
    },
];

const STOP: [Row; 1] = [Row {
    command: Command::StopQueue,
    object: None,
    option: Some(Word::Queue),
    further: None,
    least: 1,
    most: 1,
    must_set: false,
}];

const DELETE: [Row; 4] = [
    Row {
        command: Command::DeleteQueue,
        object: None,
        option: Some(Word::Queue),
        further: None,
        least: 1,
        most: 1,
        must_set: false,
    },
    Row {
        command: Command::DeleteForm,
        object: None,
        option: Some(Word::Form),
        further: None,
        least: 1,
        most: 1,
        must_set: false,
    },
    Row {
        command: Command::DeleteCharacteristic,
        object: None,
        option: Some(Word::Characteristic),
        further: None,
        least: 1,
        most: 1,
        must_set: false,
    },
    Row {
        command: Command::DeleteEntry,
        object: None,
        option: Some(Word::Entry),
        further: None,
        least: 0,
        most: 0,
        must_set: false,
    },
];

const ASSIGN: [Row; 1] = [Row {
    command: Command::AssignMerge,
    object: None,
    option: Some(Word::Merge),
    further: None,
    least: 2,
    most: 2,
    must_set: false,
}];

const DEFINE: [Row; 2] = [
    Row {
        command: Command::DefineForm,
        object: None,
        option: Some(Word::Form),
        further: None,
        least: 2,
        most: 2,
        must_set: false,
    },
    Row {
        command: Command::DefineCharacteristic,
        object: None,
        option: Some(Word::Characteristic),
        further: None,
        least: 2,
        most: 2,
        must_set: false,
    },
];

const SUBMIT: [Row; 1] = [Row {
    command: Command::Submit,
    object: None,
    option: None,
    further: None,
    least: 1,
    most: 1,
    must_set: false,
}];

const PRINT: [Row; 1] = [Row {
    command: Command::Print,
    object: None,
    option: None,
    further: None,
    least: 1,
    most: 1,
    must_set: false,
}];

const SHOW: [Row; 5] = [
    Row {
        command: Command::ShowForms,
        object: Some(Word::Queue),
        option: Some(Word::Form),
        further: None,
        least: 1,
        most: 2,
        must_set: false,
    },
    Row {
        command: Command::ShowCharacteristics,
        object: Some(Word::Queue),
        option: Some(Word::ShownCharacteristics),
        further: None,
        least: 1,
        most: 2,
        must_set: false,
    },
    Row {
        command: Command::ShowManagers,
        object: Some(Word::Queue),
        option: Some(Word::Managers),
        further: None,
        least: 1,
        most: 1,
        must_set: false,
    },
    Row {
        command: Command::ShowQueue,
        object: Some(Word::Queue),
        option: None,
        further: None,
        least: 1,
        most: 2,
        must_set: false,
    },
    Row {
        command: Command::ShowEntry,
        object: Some(Word::Entry),
        option: None,
        further: None,
        least: 1,
        most: 2,
        must_set: false,
    },
];

/// The rows of a verb. A row that names more of the options stands in front of one that names fewer.
pub fn rows_of(verb: Verb) -> &'static [Row]
    ensures { result.now ≡ rows_of verb }
{
    match verb {
        Verb::Initialize => &INITIALIZE,
        Verb::Set => &SET,
        Verb::Start => &START,
        Verb::Stop => &STOP,
        Verb::Delete => &DELETE,
        Verb::Assign => &ASSIGN,
        Verb::Define => &DEFINE,
        Verb::Submit => &SUBMIT,
        Verb::Print => &PRINT,
        Verb::Show => &SHOW,
    }
}

/// The verbs of the table.
pub const VERBS: [Verb; 10] = [
    Verb::Initialize,
    Verb::Set,
    Verb::Start,
    Verb::Stop,
    Verb::Delete,
    Verb::Assign,
    Verb::Define,
    Verb::Submit,
    Verb::Print,
    Verb::Show,
];

/// Whether the option of a verb stands behind a `/`.
pub fn takes_option(verb: Verb) -> bool
    ensures { result ≡ takes_option verb }
{
    match verb {
        Verb::Initialize | Verb::Start | Verb::Stop | Verb::Delete | Verb::Assign | Verb::Define =>
            true,
        Verb::Set | Verb::Submit | Verb::Print | Verb::Show => false,
    }
}

/// Whether the option of a verb is the first parameter.
pub fn takes_object(verb: Verb) -> bool
    ensures { result ≡ takes_object verb }
{
    match verb {
        Verb::Set | Verb::Show => true,
        _ => false,
    }
}
