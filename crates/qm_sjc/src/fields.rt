// Which items a function takes, and what value each has.
ghost use Rattle.std.specs.Prelude.{◌≡◌};
ghost use Rattle.qm_sjc.specs.Fields.{fields_of};

use qm_kinds::RequestKind;
use qm_values::codes::*;
use qm_values::{Function, Holds};

/// The code of an item that a function takes, and what value it has.
pub(crate) type Field = (u16, Holds);

const APPEND_ITEMS: [Field; 2] = [(FILE, Holds::File), (BYTES, Holds::Bytes)];

const FILL_ITEMS: [Field; 2] = [(FILE, Holds::File), (LINES, Holds::Short)];

const FILE_ITEMS: [Field; 1] = [(FILE, Holds::File)];

const DEFINE_FORM_ITEMS: [Field; 4] = [
    (NAME, Holds::DefinableName),
    (NUMBER, Holds::Short),
    (STOCK, Holds::ShortName),
    (SHAPE, Holds::Shape),
];

const NAME_ITEMS: [Field; 1] = [(NAME, Holds::DefinableName)];

const DEFINE_CHARACTERISTIC_ITEMS: [Field; 2] = [
    (NAME, Holds::DefinableName),
    (NUMBER, Holds::CharacteristicNumber),
];

const INITIALIZE_ITEMS: [Field; 13] = [
    (QUEUE, Holds::ShortName),
    (KIND, Holds::QueueKind),
    (NODE, Holds::NodeName),
    (DEVICE, Holds::ShortName),
    (TARGET, Holds::ShortName),
    (START, Holds::Nothing),
    (JOB_LIMIT, Holds::Byte),
    (CHARACTERISTIC, Holds::Characteristic),
    (FORM, Holds::Reference),
    (BLOCK_LOWER, Holds::Long),
    (BLOCK_UPPER, Holds::Long),
    (BY_SIZE, Holds::Truth),
    (QUEUE_RETAIN, Holds::QueueRetain),
];

const SET_QUEUE_ITEMS: [Field; 8] = [
    (QUEUE, Holds::ShortName),
    (JOB_LIMIT, Holds::Byte),
    (CHARACTERISTIC, Holds::Characteristic),
    (FORM, Holds::Reference),
    (BLOCK_LOWER, Holds::Long),
    (BLOCK_UPPER, Holds::Long),
    (BY_SIZE, Holds::Truth),
    (QUEUE_RETAIN, Holds::QueueRetain),
];

const STOP_ITEMS: [Field; 2] = [(QUEUE, Holds::ShortName), (HOW, Holds::How)];

const ABORT_ITEMS: [Field; 3] = [
    (QUEUE, Holds::ShortName),
    (ENTRY, Holds::Long),
    (REQUEUE, Holds::Nothing),
];

const QUEUE_ITEMS: [Field; 1] = [(QUEUE, Holds::ShortName)];

const MERGE_ITEMS: [Field; 2] = [(TO_QUEUE, Holds::ShortName), (QUEUE, Holds::ShortName)];

const SUBMIT_ITEMS: [Field; 13] = [
    (KIND, Holds::JobKind),
    (QUEUE, Holds::ShortName),
    (FILE, Holds::File),
    (JOB_NAME, Holds::Name),
    (PRIORITY, Holds::Byte),
    (AFTER, Holds::Moment),
    (HOLD, Holds::Nothing),
    (RETAIN, Holds::JobRetain),
    (RESTART, Holds::Truth),
    (CHARACTERISTIC, Holds::Characteristic),
    (FORM, Holds::Reference),
    (COPIES, Holds::Byte),
    (FLAG, Holds::Nothing),
];

const SET_ENTRY_ITEMS: [Field; 11] = [
    (ENTRY, Holds::Long),
    (RELEASE, Holds::Nothing),
    (HOLD, Holds::Nothing),
    (AFTER, Holds::Moment),
    (PRIORITY, Holds::Byte),
    (JOB_NAME, Holds::Name),
    (CHARACTERISTIC, Holds::Characteristic),
    (FORM, Holds::Reference),
    (QUEUE, Holds::ShortName),
    (RESTART, Holds::Truth),
    (RETAIN, Holds::JobRetain),
];

const ENTRY_ITEMS: [Field; 1] = [(ENTRY, Holds::Long)];

const SEARCH_ITEMS: [Field; 1] = [(SEARCH, Holds::Pattern)];

/// The items that a function takes.
pub(crate) fn fields_of(function: Function) -> &'static [Field]
    ensures { result.now ≡ fields_of function }
{
    match function {
        Function::Request(RequestKind::Append) => &APPEND_ITEMS,
        Function::Request(RequestKind::Fill) => &FILL_ITEMS,
        Function::Request(RequestKind::Drop) => &FILE_ITEMS,
        Function::Request(RequestKind::DefineForm) => &DEFINE_FORM_ITEMS,
        Function::Request(RequestKind::DeleteForm | RequestKind::DeleteCharacteristic) =>
            &NAME_ITEMS,
        Function::Request(RequestKind::DefineCharacteristic) => &DEFINE_CHARACTERISTIC_ITEMS,
        Function::Request(RequestKind::InitializeQueue) => &INITIALIZE_ITEMS,
        Function::Request(RequestKind::SetQueue | RequestKind::StartQueue) => &SET_QUEUE_ITEMS,
        Function::Request(RequestKind::StopQueue) => &STOP_ITEMS,
        Function::Request(RequestKind::AbortJob) => &ABORT_ITEMS,
        Function::Request(RequestKind::DeleteQueue) => &QUEUE_ITEMS,
        Function::Request(RequestKind::Merge) => &MERGE_ITEMS,
        Function::Request(RequestKind::Submit) => &SUBMIT_ITEMS,
        Function::Request(RequestKind::SetEntry) => &SET_ENTRY_ITEMS,
        Function::Request(RequestKind::DeleteEntry) => &ENTRY_ITEMS,
        Function::DisplayQueue
        | Function::DisplayEntry
        | Function::DisplayForm
        | Function::DisplayCharacteristic => &SEARCH_ITEMS,
        Function::DisplayJob | Function::DisplayManager | Function::CancelOperation => &[],
    }
}
