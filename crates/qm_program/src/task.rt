// What the program's words ask for.
ghost use Rattle.std.specs.Prelude.{◌≡◌, ◌↔◌, map, IfOk, IfSome, IsTrue, Some, string_bytes};
ghost use Rattle.qm_program.specs.Task.{NamesSite, alone_of, init_of, task_of};
ghost use Rattle.qm_program.specs.declared.task.Task.TheVariants.{Cluster};

use qm_kinds::{Name, Seq};
use qm_script::{caps_have_limits, named_nodes_make_a_site, read_cap, read_nodes};
use std::alloc::{AllocError, Global};

/// The most bytes of a new site's queue file where the words don't say it, 128 MiB.
pub const USUAL_CAP: u64 = 134_217_728;

/// What the program is asked to do.
#[derive(Drop)]
pub(crate) enum Task {
    /// To serve a script, one line behind another.
    Run,
    /// To serve a script whose nodes work at once.
    Cluster,
    /// To list the queues and entries of a site.
    Show,
    /// To make a new site of these nodes, whose queue files may have so many bytes.
    Init { nodes: Seq<Name>, cap: u64 },
}

// What one word asks for.
fn read_alone(word: &String) -> Option<Task>
    ensures { result ≡ alone_of (string_bytes word.now) }
{
    if word.as_str() == "run" {
        Some(Task::Run)
    } else if word.as_str() == "cluster" {
        Some(Task::Cluster)
    } else if word.as_str() == "show" {
        Some(Task::Show)
    } else {
        None
    }
}

// A new site of the nodes that the word names, if there is a cap.
fn read_init(alloc: Global, word: &[u8], cap: Option<u64>) -> Result<Option<Task>, AllocError>
    ensures { IfOk result (λ task. task ≡ init_of word.now cap) }
{
    let Some(cap) = cap else {
        return Ok(None);
    };
    match read_nodes(alloc, word)? {
        Some(nodes) => Ok(Some(Task::Init {
            nodes: Seq::of(nodes),
            cap,
        })),
        None => Ok(None),
    }
}

/// What the words ask for: `run`; `cluster`; `show`; or `init`, the names of one to eight nodes with commas between them, each of
/// at most six bytes and each once, and behind them the most bytes of a queue file, 4,096 to 268,435,456, or nothing. Other words
/// ask for nothing. Memory may run out where the words are two or three.
pub(crate) fn read_task(alloc: Global, words: &[String]) -> Result<Option<Task>, AllocError>
    ensures task { IfOk result (λ task. task ≡ task_of (map string_bytes words.now)) }
    // What is asked for can be made.
    ensures site { IfOk result (λ task. IfSome task NamesSite) }
{
    named_nodes_make_a_site();
    caps_have_limits();
    match words {
        [word] => Ok(read_alone(word)),
        [word, nodes] if word.as_str() == "init" => {
            read_init(alloc, nodes.as_bytes(), Some(USUAL_CAP))
        }
        [word, nodes, cap] if word.as_str() == "init" => {
            read_init(alloc, nodes.as_bytes(), read_cap(cap.as_bytes()))
        }
        _ => Ok(None),
    }
}

/// Whether the words ask for nodes that work at once.
pub(crate) fn asks_for_cluster(words: &[String]) -> bool
    ensures { IsTrue result ↔ (task_of (map string_bytes words.now) ≡ Some Cluster) }
{
    match words {
        [word] => word.as_str() == "cluster",
        _ => false,
    }
}
