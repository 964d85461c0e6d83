// What may be printed in place of something else: what threads decide, and what follows from it.
use qm_plans::push_line;
use std::alloc::{AllocError, Global};
use std::str;

// What parts the lines of which each may stand for the others.
const OR: &str = " or ";

// What stands for no line among them.
const NOTHING: &str = "nothing";

// What the last line of nodes at once begins with.
const TURNS: &str = "turns:";

/// Lines of which each may be printed in place of the others of its group.
#[derive(Drop)]
pub(crate) struct Either {
    alloc: Global,
    groups: Vec<String>,
}

// Whether a line is one of a group.
fn has(group: &str, line: &str) -> bool {
    for other in group.split(OR) {
        if other == line {
            return true;
        }
    }
    false
}

// The names of nodes, in order.
fn sorted_names(alloc: Global, names: &str) -> Result<Vec<&str>, AllocError> {
    let mut sorted = Vec::new(alloc);
    for name in names.split_whitespace() {
        sorted.push(name)?;
    }
    sorted.sort()?;
    Ok(sorted)
}

// A line; the last one with its names in order, since threads decide which turn comes first.
fn ordered(alloc: Global, line: &str) -> Result<String, AllocError> {
    let Some(names) = line.strip_prefix(TURNS) else {
        return String::from_str(alloc, line);
    };
    let mut ordered = String::from_str(alloc, TURNS)?;
    for name in &sorted_names(alloc, names)? {
        ordered.push_str(" ")?;
        ordered.push_str(name)?;
    }
    Ok(ordered)
}

impl Either {
    /// No group.
    pub(crate) fn new(alloc: Global) -> Either {
        Either {
            alloc,
            groups: Vec::new(alloc),
        }
    }

    /// Adds a group: its lines, with ` or ` between two, and `nothing` for none.
    pub(crate) fn add(&mut self, group: &str) -> Result<(), AllocError> {
        let group = String::from_str(self.alloc, group)?;
        self.groups.push(group)?;
        Ok(())
    }

    /// Adds the groups of a text, one a line.
    pub(crate) fn add_all(&mut self, text: &str) -> Result<(), AllocError> {
        for group in text.lines() {
            self.add(group)?;
        }
        Ok(())
    }

    /// Forgets all groups.
    pub(crate) fn clear(&mut self) {
        self.groups.clear();
    }

    // The first line of the group of a line, which is in one group or in none.
    fn first_of<'a>(&'a self, line: &'a str) -> &'a str {
        for group in &self.groups {
            if has(group.as_str(), line) {
                return group.split(OR).next().unwrap_or(line);
            }
        }
        line
    }

    // Adds what stands for a line.
    fn push_settled(&self, settled: &mut Vec<u8>, line: &str) -> Result<(), AllocError> {
        let line = ordered(self.alloc, line)?;
        let first = self.first_of(line.as_str());
        if first == NOTHING {
            return Ok(());
        }
        push_line(settled, first)
    }

    // A text, each line of which is the first of its group.
    fn settle(&self, text: &str) -> Result<Vec<u8>, AllocError> {
        let mut settled = Vec::new(self.alloc);
        for line in text.split("\n") {
            self.push_settled(&mut settled, line)?;
        }
        settled.pop();
        Ok(settled)
    }

    /// A text in which nothing is left of what threads decide: each line is the first of its group, and the names of the last one
    /// stand in order. One that isn't UTF-8 stays.
    pub(crate) fn settled(&self, text: &[u8]) -> Result<Vec<u8>, AllocError> {
        match str::from_utf8(text) {
            Ok(text) => self.settle(text),
            Err(_) => text.to_vec(self.alloc),
        }
    }
}
