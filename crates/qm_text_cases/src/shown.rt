// What is printed of rows, replies and refusals, and the items of rows.
use qm_history::{Answer, Why};
use qm_kinds::{
    Act, Boxed, Characteristic, CharacteristicSet, Duty, Entry, EntryState, FileName, Form,
    JobKind, JobRetain, ListedEntry, Listing, Mark, Moment, Name, ParseKind, Queue, QueueKind,
    QueueRetain, QueueState, Refusal, Reply, Row, Seq, Shape, Start, batch_queue,
};
use qm_plans::push_line;
use qm_rows::Rows;
use qm_show::{show_answer, show_rows};
use qm_sjc::row_items;
use qm_values::write_items;
use std::alloc::{AllocError, Global};

// The name that a text spells, and SYS$BATCH where it spells none.
fn name(text: &[u8]) -> Name {
    Name::read(text).unwrap_or(batch_queue())
}

// A started queue, on a device of a node with a form, or on a node, or on none.
fn queue(
    alloc: Global,
    queue: &[u8],
    kind: QueueKind,
    node: Option<Name>,
) -> Result<Row, AllocError> {
    let queue = Queue {
        name: name(queue),
        kind,
        state: QueueState::Started,
        node,
        device: Some(name(b"LPA0")),
        limit: 1,
        characteristics: CharacteristicSet::new(),
        mounted: Some(name(b"LETTER")),
        lower: 1,
        upper: 9,
        by_size: false,
        retain: QueueRetain::Nothing,
        targets: Seq::new(alloc),
    };
    Ok(Row::Queue(Boxed::new(alloc, queue)?))
}

fn no_mark() -> Mark {
    Mark::new(b"").unwrap()
}

fn entry(number: u32, home: &[u8], job: &[u8], size: u32, state: EntryState) -> Entry {
    Entry {
        number,
        kind: JobKind::Print,
        home: name(home),
        name: name(job),
        user: name(b"SMITH"),
        file: FileName {
            name: name(b"F"),
            extension: None,
        },
        size,
        priority: 100,
        after: None,
        held: false,
        retain: JobRetain::Default,
        restart: true,
        characteristics: CharacteristicSet::new(),
        form: None,
        copies: 1,
        flag: false,
        mark: no_mark(),
        again: false,
        state,
    }
}

fn letter() -> Row {
    Row::Form(Form {
        name: name(b"LETTER"),
        number: 1,
        stock: name(b"WHITE"),
        shape: Shape {
            length: 60,
            width: 132,
            top: 2,
            bottom: 2,
            left: 0,
            right: 0,
            wrap: false,
        },
    })
}

fn duplex() -> Row {
    Row::Characteristic(Characteristic {
        name: name(b"DUPLEX"),
        number: 7,
    })
}

fn manager(alloc: Global) -> Result<Row, AllocError> {
    let node = name(b"PLUTO");
    Ok(Row::Manager {
        node,
        epoch: 2,
        may: Seq::of(Vec::from_array(alloc, [node, name(b"MARS")])?),
    })
}

// A row of the cases.
#[derive(Clone, Copy)]
enum Case {
    Queue(&'static [u8], QueueKind, Option<Name>),
    Entry(Entry),
    Letter,
    Duplex,
    Manager,
}

// A row of each kind, in the order in which they are listed: of a print queue and of the job that runs there, of a batch queue and of
// jobs that have ended, or wait, and of the other listings.
fn cases() -> [Case; 9] {
    let node = name(b"PLUTO");
    let running = EntryState::Running {
        queue: name(b"PLUTO_LP"),
        node,
        run: 1,
    };
    let retained = EntryState::Retained {
        status: 1020,
        until: None,
    };
    let timed = EntryState::Timed {
        at: Moment::new(540_021_600_000).unwrap_or(Moment::BASE),
    };
    [
        Case::Queue(b"PLUTO_LP", QueueKind::Print, Some(node)),
        Case::Entry(entry(1, b"LPA", b"REPORT", 13, running)),
        Case::Queue(b"SYS$BATCH", QueueKind::Batch, Some(node)),
        Case::Entry(entry(4, b"LPA", b"A_LONG_NAME_OF_A_JOB", 1, retained)),
        Case::Entry(entry(1234567, b"LPA", b"F", 123456789, timed)),
        Case::Queue(b"SYS$PRINT", QueueKind::GenericPrint, None),
        Case::Letter,
        Case::Duplex,
        Case::Manager,
    ]
}

// A queue, and an entry that waits there.
fn waiting() -> [Case; 2] {
    [
        Case::Queue(b"HALL", QueueKind::Print, Some(name(b"PLUTO"))),
        Case::Entry(entry(2, b"HALL", b"REPORT", 1, EntryState::Pending)),
    ]
}

// The row of a case.
fn row(alloc: Global, case: &Case) -> Result<Row, AllocError> {
    match case {
        Case::Queue(text, kind, node) => queue(alloc, text, *kind, *node),
        Case::Entry(entry) => Ok(Row::Entry(ListedEntry::of(alloc, entry)?)),
        Case::Letter => Ok(letter()),
        Case::Duplex => Ok(duplex()),
        Case::Manager => manager(alloc),
    }
}

// The rows of cases.
fn rows(alloc: Global, cases: &[Case]) -> Result<Vec<Row>, AllocError> {
    let mut rows = Vec::new(alloc);
    for case in cases {
        rows.push(row(alloc, case)?)?;
    }
    Ok(rows)
}

// The list of the items of a row.
fn list_of(alloc: Global, row: &Row) -> Result<Vec<u8>, AllocError> {
    write_items(alloc, &row_items(alloc, row)?)
}

// Tells the items of a row, as a list in hexadecimal.
fn tell_list(alloc: Global, told: &mut Vec<u8>, row: &Row) -> Result<(), AllocError> {
    let list = list_of(alloc, row)?;
    push_line(told, hex::encode(alloc, &list)?.as_str())
}

// Tells the items of each row.
fn tell_lists(alloc: Global, told: &mut Vec<u8>, rows: &[Row]) -> Result<(), AllocError> {
    for row in rows {
        tell_list(alloc, told, row)?;
    }
    Ok(())
}

/// Tells the items of each kind of row, of a queue, and of an entry that waits there, as lists in hexadecimal.
pub(crate) fn tell_row_items(alloc: Global, told: &mut Vec<u8>) -> Result<(), AllocError> {
    tell_lists(alloc, told, &rows(alloc, &cases())?)?;
    tell_lists(alloc, told, &rows(alloc, &waiting())?)
}

/// Tells a listing of each kind of row.
pub(crate) fn tell_rows(alloc: Global, told: &mut Vec<u8>) -> Result<(), AllocError> {
    let answer = Answer::Shown {
        took: None,
        moment: Moment::BASE,
        rows: Rows::of(alloc, rows(alloc, &cases())?)?,
    };
    tell_shown(alloc, told, &name(b"PLUTO"), Why::Line(16), &answer)
}

/// Tells the same listing, without a turn.
pub(crate) fn tell_listing(alloc: Global, told: &mut Vec<u8>) -> Result<(), AllocError> {
    let rows = Rows::of(alloc, rows(alloc, &cases())?)?;
    let shown = show_rows(alloc, &rows)?;
    told.extend_from_slice(&shown)
}

// Tells the lines of a turn of a node.
fn tell_shown(
    alloc: Global,
    told: &mut Vec<u8>,
    node: &Name,
    why: Why,
    answer: &Answer,
) -> Result<(), AllocError> {
    let shown = show_answer(alloc, node, why, false, answer)?;
    told.extend_from_slice(&shown)
}

// A job that was accepted, and started by that.
fn submitted(alloc: Global) -> Result<Reply, AllocError> {
    let job = name(b"REPORT");
    let home = name(b"SYS$PRINT");
    let start = Start {
        entry: 1,
        name: job,
        home,
        queue: name(b"PLUTO_LP"),
        run: 1,
    };
    Ok(Reply {
        act: Act::Submitted {
            name: job,
            home,
            entry: 1,
            state: EntryState::Pending,
        },
        started: Seq::of(Vec::from_array(alloc, [start])?),
    })
}

// A mark whose first byte is no text.
fn marked() -> Act {
    Act::Marked {
        run: 3,
        value: Mark::new(b"\xff1").unwrap(),
    }
}

// Refusals that no script meets yet, or seldom.
fn refusals() -> [Refusal; 10] {
    let state = EntryState::Retained {
        status: 44,
        until: None,
    };
    [
        Refusal::NumbersSpent,
        Refusal::NotHeld,
        Refusal::NodeDown,
        Refusal::EntryBusy { state },
        Refusal::NoContext,
        no_more(Listing::Queues),
        no_more(Listing::Jobs),
        no_more(Listing::Entries),
        no_more(Listing::Forms),
        no_more(Listing::Characteristics),
    ]
}

fn no_more(listing: Listing) -> Refusal {
    Refusal::NoMore { listing }
}

// Acts of no script yet.
fn acts() -> [Act; 7] {
    let (node, state) = (name(b"MARS"), EntryState::Holding);
    [
        Act::EntryIs { entry: 7, state },
        Act::RunRetained { run: 3, status: 44 },
        Act::Ticked,
        Act::NodeStarted { node },
        Act::NodeStopped { node },
        Act::Managing { node, epoch: 2 },
        Act::Compacted { file: 2 },
    ]
}

// What is answered to a request that was carried out.
fn done(act: Act, started: Seq<Start>) -> Answer {
    Answer::Done {
        took: None,
        moment: Moment::BASE,
        reply: Reply { act, started },
    }
}

// What is answered to a request that was refused.
fn refused(refusal: Refusal) -> Answer {
    Answer::Refused {
        took: None,
        refusal,
    }
}

// A run that goes on.
fn duty(run: u64) -> Duty {
    Duty {
        run,
        aborting: false,
        paused: false,
        work: None,
    }
}

// What a node is answered to a fetch.
fn duties(duties: Vec<Duty>) -> Answer {
    Answer::Duties {
        took: None,
        moment: Moment::BASE,
        duties: Seq::of(duties),
    }
}

// Tells acts and refusals that no script meets.
fn tell_seldom(alloc: Global, told: &mut Vec<u8>) -> Result<(), AllocError> {
    let (node, why) = (name(b"A"), Why::Line(1));
    for refusal in &refusals() {
        tell_shown(alloc, told, &node, why, &refused(*refusal))?;
    }
    for act in &acts() {
        tell_shown(alloc, told, &node, why, &done(*act, Seq::new(alloc)))?;
    }
    Ok(())
}

// Tells replies: to a job that was started, and to a mark.
fn tell_replies(alloc: Global, told: &mut Vec<u8>, node: &Name) -> Result<(), AllocError> {
    let why = Why::Line(10);
    let Reply { act, started } = submitted(alloc)?;
    tell_shown(alloc, told, node, why, &done(act, started))?;
    tell_shown(alloc, told, node, why, &done(marked(), Seq::new(alloc)))
}

// Tells a refusal, and a full queue file.
fn tell_refusals(alloc: Global, told: &mut Vec<u8>, node: &Name) -> Result<(), AllocError> {
    let why = Why::Line(10);
    let fault = refused(Refusal::ParseFault {
        place: 7,
        kind: ParseKind::Word,
    });
    tell_shown(alloc, told, node, why, &fault)?;
    let full = Answer::Full {
        took: None,
        need: 17,
        cap: 16,
    };
    tell_shown(alloc, told, node, why, &full)
}

// Tells that a disk failed.
fn tell_journal(alloc: Global, told: &mut Vec<u8>, node: &Name) -> Result<(), AllocError> {
    let journal = Answer::Journal {
        took: None,
        live: true,
    };
    tell_shown(alloc, told, node, Why::Line(10), &journal)
}

// Tells the runs that a node was shown, for a line and for a report of its own.
fn tell_runs(alloc: Global, told: &mut Vec<u8>, node: &Name) -> Result<(), AllocError> {
    let two = duties(Vec::from_array(alloc, [duty(1), duty(2)])?);
    tell_shown(alloc, told, node, Why::Line(10), &two)?;
    tell_shown(alloc, told, node, Why::Report, &duties(Vec::new(alloc)))
}

/// Tells answers of each kind, and acts and refusals that no script meets.
pub(crate) fn tell_answers(alloc: Global, told: &mut Vec<u8>) -> Result<(), AllocError> {
    let node = name(b"MARS");
    tell_replies(alloc, told, &node)?;
    tell_refusals(alloc, told, &node)?;
    tell_runs(alloc, told, &node)?;
    tell_journal(alloc, told, &node)?;
    tell_seldom(alloc, told)
}
