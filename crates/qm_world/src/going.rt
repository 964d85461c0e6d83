// Events that leave the log: nodes that come and go, fences and compactions.
ghost use Rattle.std.specs.Prelude.{◌≡◌};
ghost use Rattle.qm_history.specs.Step.{unless_of};

use crate::copying::set;
use crate::end::Stop;
use crate::walker::Walker;
use qm_history::{Event, Role};

// The role of manager, unless this node has it.
fn unless_of(node: u8, manager: Option<Role>) -> Option<Role>
    ensures { result ≡ unless_of node manager }
{
    match manager {
        Some(role) if role.node == node => None,
        other => other,
    }
}

impl Walker {
    ghost use Rattle.qm_world.specs.Walking.{IsAt, StepsOrStops};

    // A live node serves no more.
    fn go(&mut self, node: u8) -> Result<(), Stop>
        requires { IsAt self.old }
        ensures { StepsOrStops self.old (Event.Stopped node) self.new result }
    {
        if !self.is_live(node) {
            return Err(Stop::Illegal);
        }
        set(self.alloc, &mut self.world.live, node, false);
        self.world.manager = unless_of(node, self.world.manager);
        Ok(())
    }

    /// A node stops.
    pub(crate) fn stopped(&mut self, node: u8) -> Result<(), Stop>
        requires { IsAt self.old }
        ensures { StepsOrStops self.old (Event.Stopped node) self.new result }
    {
        self.go(node)
    }

    /// A node leaves.
    pub(crate) fn left(&mut self, node: u8) -> Result<(), Stop>
        requires { IsAt self.old }
        ensures { StepsOrStops self.old (Event.Left node) self.new result }
    {
        self.go(node)
    }

    /// A node starts.
    pub(crate) fn started(&mut self, node: u8) -> Result<(), Stop>
        requires { IsAt self.old }
        ensures { StepsOrStops self.old (Event.Started node) self.new result }
    {
        if self.is_live(node) {
            return Err(Stop::Illegal);
        }
        set(self.alloc, &mut self.world.live, node, true);
        Ok(())
    }

    /// A node is told that it holds another epoch than the manager's.
    pub(crate) fn fenced(&mut self, node: u8, held: u64, current: u64) -> Result<(), Stop>
        requires { IsAt self.old }
        ensures { StepsOrStops self.old (Event.Fenced node held current) self.new result }
    {
        if self.epoch() != Some(current) || self.held_by(node) != held || held == current {
            return Err(Stop::Illegal);
        }
        Ok(())
    }

    /// A queue file holds the image.
    pub(crate) fn compacted(&mut self, node: u8, epoch: u64, file: u8) -> Result<(), Stop>
        requires { IsAt self.old }
        ensures { StepsOrStops self.old (Event.Compacted node epoch file) self.new result }
    {
        if self.epoch() != Some(epoch) || (file != 1 && file != 2) {
            return Err(Stop::Illegal);
        }
        Ok(())
    }

    /// A disk failed at a compaction.
    pub(crate) fn compact_doubted(&mut self, node: u8) -> Result<(), Stop>
        requires { IsAt self.old }
        ensures { StepsOrStops self.old (Event.CompactDoubt node) self.new result }
    {
        if !self.has_manager() {
            return Err(Stop::Illegal);
        }
        self.world.manager = None;
        Ok(())
    }
}
