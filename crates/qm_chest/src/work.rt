// What the chest works with: a manager, or the files.
ghost use Rattle.std.specs.Prelude.{◌≡◌, true};
ghost use Rattle.qm_store.specs.Database.{disk_of as closed_disk};
ghost use Rattle.qm_chest.specs.Work.{is_due, is_without, makes_step};
ghost use Rattle.qm_chest.specs.Steps.{HasManager, IsBehind, IsBehindWork};

use crate::place::Place;
use qm_acting::{Files, Manager};
use qm_disk::Disk;
use qm_kinds::Input;
use qm_store::Closed;

/// The manager at work, with the node that has the role; or, while none is up, the files, and where a record in doubt would stand.
#[derive(Drop)]
pub enum Work<D> {
    Up {
        manager: Manager<D>,
        node: u8,
    },
    Down {
        files: Files<D>,
        place: Option<Place>,
    },
}

impl<D> Work<D> {
    // Whether no manager is up.
    fn is_without(&self) -> bool
        ensures { result ≡ is_without self.now }
    {
        matches!(self, Work::Down { .. })
    }

    /// Whether a call that asks for this is a step of the manager that is up.
    pub(crate) fn makes_step(&self, input: &Input) -> bool
        ensures { result ≡ makes_step self.now input.now }
    {
        match input {
            Input::Ask(_) | Input::Show(_) | Input::Fetch { .. } => !self.is_without(),
            _ => false,
        }
    }

    /// Whether a takeover comes before a call that asks for this.
    pub(crate) fn is_due(&self, input: &Input) -> bool
        ensures { result ≡ is_due self.now input.now }
    {
        match input {
            Input::TakeManager { .. } => true,
            Input::StopNode | Input::Fault { .. } => false,
            _ => self.is_without(),
        }
    }
}

impl<D: Disk> Work<D> {
    ghost use Rattle.qm_chest.specs.Work.{work_disk};

    /// What the chest works with behind a step of a manager: it stays up, unless its record is in doubt. Then the role is let go,
    /// and the record may stand behind those that were there.
    pub(crate) fn behind(manager: Manager<D>, at: u8, is_in_doubt: bool) -> Work<D>
        ensures { IsBehind manager at is_in_doubt result }
    {
        if !is_in_doubt {
            return Work::Up { manager, node: at };
        }
        let place = Place {
            file: manager.live(),
            before: manager.count(),
        };
        Work::Down {
            files: Files::Closed(manager.close()),
            place: Some(place),
        }
    }

    /// The same of what the chest works with, where a manager is up whose record is in doubt.
    pub(crate) fn let_go(self, _step: ()) -> (Work<D>, ())
        requires { HasManager self }
        ensures { IsBehindWork self true result.0 }
    {
        match self {
            Work::Up { manager, node } => (Work::behind(manager, node, true), ()),
            Work::Down { .. } => unreachable!(),
        }
    }

    /// The files, which a manager lets go of, and whoever read them.
    pub(crate) fn close(self) -> Closed<D>
        ensures { closed_disk result ≡ work_disk self }
    {
        match self {
            Work::Up { manager, .. } => manager.close(),
            Work::Down { files, .. } => files.close(),
        }
    }
}
