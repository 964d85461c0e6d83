// What whoever sits at a terminal is told to do next, behind the line of an end.
use qm_program::End;

/// What was found of the folder, beside the end.
#[derive(Clone, Copy, Debug, PartialEq, Eq)]
pub(crate) enum Folder {
    /// Another run has it.
    InUse,
    /// It has the first queue file.
    HasQueues,
    /// It has none.
    IsNew,
}

/// What to do next. It is empty where all went well.
pub(crate) fn advice(end: End, folder: Folder) -> &'static str {
    match end {
        End::Ok => "",
        End::Usage => {
            ":\n  \
             qman init NODES [CAP]   makes this folder's site anew, as in `qman init A,B`; CAP bounds its queue file, in bytes\n  \
             qman run <SCRIPT        serves a script, line by line, and carries out its jobs\n  \
             qman cluster <SCRIPT    the same, each node's lines by a thread of its own\n  \
             qman show               lists queues and jobs\n\
             What a script can say is in docs/USING.md of qman's own folder, and in `man ./qman.1` there"
        }
        End::Script { .. } => {
            ": nothing was served; a line is a node of the site, a blank, $, # or !, a blank and what is asked for"
        }
        End::Read => ": nothing was served; give the script as the input, as in `qman run <SCRIPT`",
        End::Write => {
            ": see to the output; what was answered is kept, so look what the last line did, and run those behind it"
        }
        End::Journal => journal_advice(folder),
        End::Unformatted { byte: 0 } => no_master_advice(folder),
        End::Unformatted { .. } => {
            ": QMAN_MASTER.DAT isn't a master; `qman init NODES` makes the site anew, whatever its files hold"
        }
        End::Damaged { .. } => {
            ": put a whole file in its place; `qman init NODES` makes the site anew, whatever its files hold"
        }
        End::HistoryFull => {
            ": one run makes 1,000,000 turns and no more; what was answered is kept, so run the lines behind the last one that was"
        }
        End::NoMemory => {
            ": give it more memory; what was answered is kept, so look what the last line did, and run those behind it"
        }
    }
}

// Where a disk failed. The run went on where it could.
fn journal_advice(folder: Folder) -> &'static str {
    match folder {
        Folder::InUse => ": wait for the other run, or end it, and run again",
        Folder::HasQueues | Folder::IsNew => {
            ": see to the disk; what was answered is kept, so look what the lines did that were answered %QMAN-F-JOURNAL, and run those that did nothing"
        }
    }
}

// Where the master is empty, or has no record. A queue file is then of an earlier version, or its making was broken off.
fn no_master_advice(folder: Folder) -> &'static str {
    match folder {
        Folder::HasQueues => {
            ": QMAN_QUEUES_1.DAT has no master, as in an earlier version; `qman init NODES` makes a site, and writes over it"
        }
        Folder::InUse | Folder::IsNew => ": `qman init NODES` makes a site",
    }
}
