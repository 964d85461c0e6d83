// The words of the grammar.
ghost use Rattle.std.specs.Prelude.{◌≡◌};
ghost use Rattle.qm_commands.specs.Words.{spelling, verb_spelling, undone_by};

use crate::table::Verb;

/// The name of an option or of a qualifier.
#[derive(Clone, Copy, Debug, PartialEq, Eq)]
pub enum Word {
    Queue,
    Manager,
    Managers,
    Merge,
    Form,
    Characteristic,
    /// The qualifier.
    Characteristics,
    /// The option of `SHOW QUEUE`, which no other form undoes.
    ShownCharacteristics,
    Entry,
    Batch,
    Device,
    Generic,
    AllJobs,
    On,
    Start,
    JobLimit,
    NoCharacteristics,
    FormMounted,
    BlockLimit,
    NoBlockLimit,
    Schedule,
    Retain,
    NoRetain,
    Next,
    Reset,
    Abort,
    Requeue,
    Stock,
    Length,
    Width,
    Margin,
    Wrap,
    Truncate,
    Name,
    Priority,
    After,
    NoAfter,
    Hold,
    Release,
    Restart,
    NoRestart,
    Copies,
    Flag,
    NoFlag,
    Notify,
    NoNotify,
    Identify,
    NoIdentify,
    NoLogFile,
    NoPrinter,
    Keep,
}

/// How a verb is spelled. By itself this is a look into a table, and so it isn't inlined.
#[inline(never)]
pub fn verb_spelling(verb: Verb) -> &'static [u8]
    ensures { result.now ≡ verb_spelling verb }
{
    match verb {
        Verb::Initialize => b"INITIALIZE",
        Verb::Set => b"SET",
        Verb::Start => b"START",
        Verb::Stop => b"STOP",
        Verb::Delete => b"DELETE",
        Verb::Assign => b"ASSIGN",
        Verb::Define => b"DEFINE",
        Verb::Submit => b"SUBMIT",
        Verb::Print => b"PRINT",
        Verb::Show => b"SHOW",
    }
}

/// How the name of an option or a qualifier is spelled.
pub fn spelling(word: Word) -> &'static [u8]
    ensures { result.now ≡ spelling word }
{
    match word {
        Word::Queue => b"QUEUE",
        Word::Manager => b"MANAGER",
        Word::Managers => b"MANAGERS",
        Word::Merge => b"MERGE",
        Word::Form => b"FORM",
        Word::Characteristic => b"CHARACTERISTIC",
        Word::Characteristics | Word::ShownCharacteristics => b"CHARACTERISTICS",
        Word::Entry => b"ENTRY",
        Word::Batch => b"BATCH",
        Word::Device => b"DEVICE",
        Word::Generic => b"GENERIC",
        Word::AllJobs => b"ALL_JOBS",
        Word::On => b"ON",
        Word::Start => b"START",
        Word::JobLimit => b"JOB_LIMIT",
        Word::NoCharacteristics => b"NOCHARACTERISTICS",
        Word::FormMounted => b"FORM_MOUNTED",
        Word::BlockLimit => b"BLOCK_LIMIT",
        Word::NoBlockLimit => b"NOBLOCK_LIMIT",
        Word::Schedule => b"SCHEDULE",
        Word::Retain => b"RETAIN",
        Word::NoRetain => b"NORETAIN",
        Word::Next => b"NEXT",
        Word::Reset => b"RESET",
        Word::Abort => b"ABORT",
        Word::Requeue => b"REQUEUE",
        Word::Stock => b"STOCK",
        Word::Length => b"LENGTH",
        Word::Width => b"WIDTH",
        Word::Margin => b"MARGIN",
        Word::Wrap => b"WRAP",
        Word::Truncate => b"TRUNCATE",
        Word::Name => b"NAME",
        Word::Priority => b"PRIORITY",
        Word::After => b"AFTER",
        Word::NoAfter => b"NOAFTER",
        Word::Hold => b"HOLD",
        Word::Release => b"RELEASE",
        Word::Restart => b"RESTART",
        Word::NoRestart => b"NORESTART",
        Word::Copies => b"COPIES",
        Word::Flag => b"FLAG",
        Word::NoFlag => b"NOFLAG",
        Word::Notify => b"NOTIFY",
        Word::NoNotify => b"NONOTIFY",
        Word::Identify => b"IDENTIFY",
        Word::NoIdentify => b"NOIDENTIFY",
        Word::NoLogFile => b"NOLOG_FILE",
        Word::NoPrinter => b"NOPRINTER",
        Word::Keep => b"KEEP",
    }
}

/// The other form of a qualifier that has a positive and a negative one.
pub fn undone_by(word: Word) -> Option<Word>
    ensures { result ≡ undone_by word }
{
    match word {
        Word::Characteristics => Some(Word::NoCharacteristics),
        Word::NoCharacteristics => Some(Word::Characteristics),
        Word::BlockLimit => Some(Word::NoBlockLimit),
        Word::NoBlockLimit => Some(Word::BlockLimit),
        Word::Retain => Some(Word::NoRetain),
        Word::NoRetain => Some(Word::Retain),
        Word::After => Some(Word::NoAfter),
        Word::NoAfter => Some(Word::After),
        Word::Restart => Some(Word::NoRestart),
        Word::NoRestart => Some(Word::Restart),
        Word::Flag => Some(Word::NoFlag),
        Word::NoFlag => Some(Word::Flag),
        Word::Notify => Some(Word::NoNotify),
        Word::NoNotify => Some(Word::Notify),
        Word::Identify => Some(Word::NoIdentify),
        Word::NoIdentify => Some(Word::Identify),
        _ => None,
    }
}
