// What is wrong with a script.
ghost use Rattle.std.specs.Prelude.{Some};
ghost use Rattle.qm_kinds.specs.Words.{script_kind_text};

use std::fmt;

/// What is wrong with a script.
#[derive(Clone, Copy, PartialEq, Eq)]
pub enum ScriptKind {
    /// A byte that may not stand in a script.
    Byte,
    /// A line of another shape.
    Form,
    /// A node that isn't in the cluster.
    Node,
    /// The script ends within a line.
    End,
    /// It has more than `TEXT_LIMIT` bytes.
    Long,
}

impl fmt::Display for ScriptKind {
    ghost output = { λ kind. Some (script_kind_text kind) };

    fn fmt<W: fmt::Write>(&self, f: &mut fmt::Formatter<W>) -> fmt::Result {
        f.write_str(match self {
            ScriptKind::Byte => "byte",
            ScriptKind::Form => "form",
            ScriptKind::Node => "node",
            ScriptKind::End => "end",
            ScriptKind::Long => "long",
        })
    }
}
