// How a node takes the role of queue manager over before its call is served.
ghost use Rattle.std.specs.Prelude.{◌≡◌, ◌<◌, ◌+◌, ◌^◌, ℕ, IsTrue, Err, true, false, length};
ghost use Rattle.qm_kinds.specs.declared.input.Input.{Input as AnyInput};
ghost use Rattle.qm_acting.specs.Asking.{CanBeAsked};
ghost use Rattle.qm_acting.specs.Files.{files_disk, AreSound};
ghost use Rattle.qm_acting.specs.Standing.{restored_standing, restored_disk, disk_of};
ghost use Rattle.qm_history.specs.Takeover.{is_named, nodes_on};
ghost use Rattle.qm_chest.specs.declared.work.Work.TheVariants as work;
ghost use Rattle.qm_chest.specs.At.{CanBeAskedFor, IsWorkOf};
ghost use Rattle.qm_chest.specs.Work.{is_due};
ghost use Rattle.qm_chest.specs.Taking.{AreEarly, CanTake, Finds, LeavesFrom, IsTook, LeavesTaken, NeedsManager, TakesOnFiles, TakesWhere, TellsTakeover};
ghost use Rattle.qm_chest.specs.Whole.{AsksToTake, Leaves, ServesWhere, StandsEarly};

use crate::members::Members;
use crate::nodes::is_named;
use crate::place::Place;
use crate::serving::Served;
use crate::taken::{Taken, taken_by};
use crate::work::Work;
use core::mem::drop;
use qm_acting::{
    Files, Manager, Restored, TakeFault, own_requests_are_accepted, site_files_go_on,
    sites_can_be_read,
};
use qm_disk::Disk;
use qm_history::{Answer, Event};
use qm_kinds::{Act, Boxed, Input, Moment, Request};
use qm_model::nodes_keep_their_names;
use qm_restore::{site_files_are_accepted, site_files_are_consistent};
use qm_store::{LoadFault, WriteFault};

// Whether the record is there that was in doubt, where one was.
fn found<D: Disk>(restored: &Restored<D>, place: Option<Place>) -> Option<bool>
    ensures { Finds (restored_standing restored.now).recorded place result }
{
    match place {
        Some(Place { file, before }) => Some(restored.is_kept(file, before)),
        None => None,
    }
}

impl Members {
    /// A call before which a takeover comes.
    pub(crate) fn taken<D: Disk>(
        &mut self,
        work: Work<D>,
        node: u8,
        now: Moment,
        input: Input,
    ) -> Served<D>
        requires work { IsWorkOf D.meaning self.old.names.items work }
        requires there { node < length self.old.names.items }
        requires can { CanBeAskedFor node input }
        requires epochs { self.old.greatest < 2 ^ 63 }
        requires stands { IsTrue D.meaning.tells
            → StandsEarly D.meaning (record { members = self.old; work = work }) }
        requires due { is_due work input ≡ true }
        ensures leaves { Leaves D.meaning self.old work self.new result }
        ensures serves { ServesWhere D.meaning self.old work node now (AsksToTake node input) self.new result }
    {
        match work {
            Work::Up { manager, node: at } => self.taken_from(manager, at, node, now, input),
            Work::Down { files, place } => self.taken_up(files, place, node, now, input),
        }
    }

    // The role is taken from a manager that is up, unless the node may not have it.
    fn taken_from<D: Disk>(
        &mut self,
        manager: Manager<D>,
        at: u8,
        node: u8,
        now: Moment,
        input: Input,
    ) -> Served<D>
        requires work { IsWorkOf D.meaning self.old.names.items (work.Up manager at) }
        requires there { node < length self.old.names.items }
        requires can { CanBeAskedFor node input }
        requires needs { NeedsManager input }
        requires epochs { self.old.greatest < 2 ^ 63 }
        requires stands { IsTrue D.meaning.tells
            → StandsEarly D.meaning (record { members = self.old; work = work.Up manager at }) }
        ensures leaves { LeavesFrom D.meaning self.old (disk_of manager) (self.old.greatest + 1)
            self.new result }
        ensures serves { ServesWhere D.meaning self.old (work.Up manager at) node now
            (AsksToTake node input) self.new result }
    {
        site_files_are_accepted();
        if is_named(manager.nodes(), manager.may(), &input, node) {
            let files = Files::Closed(manager.close());
            return self.taken_up(files, None, node, now, input);
        }
        drop(input);
        Served {
            work: Work::Up { manager, node: at },
            first: Some(Event::NoManager { node }),
            second: None,
            answer: Answer::NoManager {
                took: None,
                node: self.name(node),
            },
        }
    }

    // The files are read, unless they were before, and the role is taken over on what they hold.
    fn taken_up<D: Disk>(
        &mut self,
        files: Files<D>,
        place: Option<Place>,
        node: u8,
        now: Moment,
        input: Input,
    ) -> Served<D>
        requires there { node < length self.old.names.items }
        requires can { CanBeAskedFor node input }
        requires needs { NeedsManager input }
        requires epochs { self.old.greatest < 2 ^ 63 }
        requires sound { AreSound D.meaning files }
        requires early { IsTrue D.meaning.tells
            → AreEarly D.meaning self.old (files_disk files) place }
        ensures leaves { LeavesFrom D.meaning self.old (files_disk files) (self.old.greatest + 1)
            self.new result }
        ensures serves { TakesOnFiles D.meaning self.old (files_disk files) place node now input
            self.new result }
    {
        site_files_are_accepted();
        sites_can_be_read();
        nodes_keep_their_names();
        let restored = match files.read(self.alloc) {
            Ok(restored) => restored,
            Err((closed, fault)) => {
                drop(input);
                return self.unread(closed, place, node, fault);
            }
        };
        let kept = found(&restored, place);
        if !self.are_nodes(restored.nodes()) {
            let fault = LoadFault::Damaged {
                file: restored.live(),
                place: 0,
            };
            drop(input);
            return self.unread(restored.close(), place, node, fault);
        }
        match self.take(restored, kept, node, now, &input) {
            Ok(taken) => self.behind(taken, node, now, input),
            Err(served) => {
                drop(input);
                served
            }
        }
    }

    // The role is taken over on files that were read. An `Err` is the whole call.
    fn take<D: Disk>(
        &mut self,
        restored: Restored<D>,
        kept: Option<bool>,
        node: u8,
        now: Moment,
        input: &Input,
    ) -> Result<Taken<D>, Served<D>>
        requires can { CanTake D.meaning self.old restored node }
        requires asks { CanBeAskedFor node input.now }
        ensures leaves { LeavesTaken D.meaning self.old (restored_disk restored) node self.new result }
        ensures takes { TakesWhere D.meaning self.old restored kept node now input.now self.new result }
    {
        if is_named(restored.nodes(), restored.may(), input, node) {
            self.recorded(restored, kept, node, now, input)
        } else {
            Err(self.unnamed(restored, kept, node))
        }
    }

    // A node that may not be manager finds that out behind its epoch.
    fn unnamed<D: Disk>(&mut self, restored: Restored<D>, kept: Option<bool>, node: u8) -> Served<D>
        requires can { CanTake D.meaning self.old restored node }
        ensures leaves { LeavesFrom D.meaning self.old (restored_disk restored) (self.old.greatest + 1)
            self.new result }
        ensures serves { (now : ℕ) (what : AnyInput) → CanBeAskedFor node what
            → is_named (restored_standing restored).system (nodes_on what) node ≡ false
            → TakesWhere D.meaning self.old restored kept node now what self.new (Err result) }
    {
        site_files_are_accepted();
        let tried = self.greatest;
        let epoch = restored.next_epoch(tried);
        match restored.open(tried, node) {
            Ok(manager) => {
                self.greatest += 1;
                self.refused(manager.close(), node, epoch, kept)
            }
            Err((closed, fault, _)) => match fault {
                WriteFault::Full { need, cap } => self.master_full(closed, node, kept, need, cap),
                WriteFault::Disk => {
                    self.greatest += 1;
                    self.journal(closed, None, node, epoch, kept, None)
                }
                WriteFault::NoMemory => self.short(closed, node, kept),
            },
        }
    }

    // The epoch and the record of the takeover are written.
    fn recorded<D: Disk>(
        &mut self,
        restored: Restored<D>,
        kept: Option<bool>,
        node: u8,
        now: Moment,
        input: &Input,
    ) -> Result<Taken<D>, Served<D>>
        requires can { CanTake D.meaning self.old restored node }
        requires asks { CanBeAskedFor node input.now }
        requires named { is_named (restored_standing restored).system (nodes_on input.now) node
            ≡ true }
        ensures leaves { LeavesTaken D.meaning self.old (restored_disk restored) node self.new result }
        ensures takes { TakesWhere D.meaning self.old restored kept node now input.now self.new result }
    {
        site_files_are_accepted();
        site_files_are_consistent();
        own_requests_are_accepted();
        let epoch = restored.next_epoch(self.greatest);
        let moment = restored.acting(now);
        let Ok(request) = self.request(restored.nodes(), restored.may(), input, node, epoch) else {
            return Err(self.short(restored.close(), node, kept));
        };
        self.written(restored, kept, node, moment, request)
    }

    // The epoch is written, and this request, which tells of the takeover.
    fn written<D: Disk>(
        &mut self,
        restored: Restored<D>,
        kept: Option<bool>,
        node: u8,
        moment: Moment,
        request: Boxed<Request>,
    ) -> Result<Taken<D>, Served<D>>
        requires can { CanTake D.meaning self.old restored node }
        requires asks { CanBeAsked (restored_standing restored).system moment node request }
        requires took { IsTook request }
        ensures leaves { LeavesTaken D.meaning self.old (restored_disk restored) node self.new result }
        ensures takes { (now : ℕ) (what : AnyInput) → CanBeAskedFor node what
            → TellsTakeover self.old (restored_standing restored) node now what moment request
            → TakesWhere D.meaning self.old restored kept node now what self.new result }
    {
        site_files_are_accepted();
        site_files_go_on();
        nodes_keep_their_names();
        let tried = self.greatest;
        let epoch = restored.next_epoch(tried);
        let place = Place {
            file: restored.live(),
            before: restored.count(),
        };
        match restored.take_over(tried, moment, node, request.get()) {
            Ok((manager, reply)) => {
                self.greatest += 1;
                self.held[usize::from(node)] = epoch;
                Ok(taken_by(manager, moment, request, kept, reply))
            }
            Err((closed, fault)) => match fault {
                TakeFault::MasterFull { need, cap } => {
                    drop(request);
                    Err(self.master_full(closed, node, kept, need, cap))
                }
                TakeFault::Epoch => {
                    drop(request);
                    self.greatest += 1;
                    Err(self.journal(closed, None, node, epoch, kept, None))
                }
                TakeFault::Full { need, cap } => {
                    drop(request);
                    self.greatest += 1;
                    Err(self.full(closed, node, epoch, kept, need, cap))
                }
                TakeFault::Record => {
                    self.greatest += 1;
                    let doubt = Event::Doubt {
                        node,
                        moment,
                        request,
                    };
                    Err(self.journal(closed, Some(place), node, epoch, kept, Some(doubt)))
                }
                TakeFault::NoMemory => {
                    drop(request);
                    Err(self.short(closed, node, kept))
                }
            },
        }
    }
}
