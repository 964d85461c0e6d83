// What a call is answered whose takeover failed.
ghost use Rattle.std.specs.Prelude.{◌≡◌, ◌<◌, ◌-◌, ◌^◌, ℕ, List, None, Some, length, slice_get};
ghost use Rattle.qm_chest.specs.Members.{is_live_in};
ghost use Rattle.qm_chest.specs.Taking.{failed, full_failed, journal_failed, short_failed, told_of_failed, unnamed_failed, unread_answer};

use crate::members::Members;
use crate::place::Place;
use crate::serving::Served;
use crate::work::Work;
use qm_acting::Files;
use qm_history::{Answer, Event, Takeover};
use qm_kinds::Seq;
use qm_store::{Closed, LoadFault};

// A takeover failed, with this epoch tried by then, and this happened behind it.
fn failed<D>(
    closed: Closed<D>,
    place: Option<Place>,
    node: u8,
    tried: u64,
    kept: Option<bool>,
    second: Option<Event>,
    answer: Answer,
) -> Served<D>
    ensures { result ≡ failed closed place node tried kept second answer }
{
    Served {
        work: Work::Down {
            files: Files::Closed(closed),
            place,
        },
        first: Some(Event::TakeDoubt { node, tried, kept }),
        second,
        answer,
    }
}

// What is answered where the files couldn't be read.
fn unread_answer(live: bool, fault: LoadFault) -> Answer
    ensures { result ≡ unread_answer live fault }
{
    match fault {
        LoadFault::Disk => Answer::Journal { took: None, live },
        LoadFault::Unformatted { .. } => Answer::Damaged { file: 0, place: 0 },
        LoadFault::Damaged { file, place } => Answer::Damaged { file, place },
        LoadFault::NoMemory => Answer::NoMemory { took: None },
    }
}

impl Members {
    // What is told of it.
    fn told(&self, tried: u64, kept: Option<bool>) -> Option<Takeover>
        ensures { result ≡ told_of_failed tried kept }
    {
        match kept {
            Some(kept) => Some(Takeover {
                epoch: tried,
                kept: Some(kept),
                started: Seq::new(self.alloc),
            }),
            None => None,
        }
    }

    /// The files couldn't be read, and no epoch was tried. A record in doubt is still in doubt.
    pub(crate) fn unread<D>(
        &self,
        closed: Closed<D>,
        place: Option<Place>,
        node: u8,
        fault: LoadFault,
    ) -> Served<D>
        requires { node < length self.now.names.items }
        ensures { result ≡ failed closed place node self.now.greatest None None
            (unread_answer (is_live_in self.now node) fault) }
    {
        let answer = unread_answer(self.is_live(node), fault);
        failed(closed, place, node, self.greatest, None, None, answer)
    }

    /// Memory was short behind the reading, and no epoch was tried.
    pub(crate) fn short<D>(&self, closed: Closed<D>, node: u8, kept: Option<bool>) -> Served<D>
        ensures { result ≡ short_failed closed node self.now.greatest kept }
    {
        let took = self.told(self.greatest, kept);
        failed(
            closed,
            None,
            node,
            self.greatest,
            kept,
            None,
            Answer::NoMemory { took },
        )
    }

    /// The epoch has no room in the master, or behind it the record has none in the queue file.
    pub(crate) fn full<D>(
        &self,
        closed: Closed<D>,
        node: u8,
        tried: u64,
        kept: Option<bool>,
        need: u64,
        cap: u64,
    ) -> Served<D>
        ensures { result ≡ full_failed closed node tried kept need cap }
    {
        let took = self.told(tried, kept);
        let second = Event::Full { node, need, cap };
        failed(
            closed,
            None,
            node,
            tried,
            kept,
            Some(second),
            Answer::Full { took, need, cap },
        )
    }

    /// The master has no room for the epoch. A need at the end of its type may be greater; no memory holds such a master.
    pub(crate) fn master_full<D>(
        &self,
        closed: Closed<D>,
        node: u8,
        kept: Option<bool>,
        need: u64,
        cap: u64,
    ) -> Served<D>
        ensures full { need < 2 ^ 64 - 1 → result ≡ full_failed closed node self.now.greatest kept need cap }
        ensures short { need ≡ 2 ^ 64 - 1 → result ≡ short_failed closed node self.now.greatest kept }
    {
        if need == u64::MAX {
            self.short(closed, node, kept)
        } else {
            self.full(closed, node, self.greatest, kept, need, cap)
        }
    }

    /// Behind its epoch the node isn't among those that may be manager.
    pub(crate) fn refused<D>(
        &self,
        closed: Closed<D>,
        node: u8,
        tried: u64,
        kept: Option<bool>,
    ) -> Served<D>
        requires { node < length self.now.names.items }
        ensures { (name : List ℕ) → slice_get self.now.names.items node ≡ Some name
            → result ≡ unnamed_failed closed node tried kept name }
    {
        let took = self.told(tried, kept);
        let answer = Answer::NoManager {
            took,
            node: self.name(node),
        };
        failed(
            closed,
            None,
            node,
            tried,
            kept,
            Some(Event::NoManager { node }),
            answer,
        )
    }

    /// A disk failed at the epoch, or at the record behind it, which is then in doubt in this place.
    pub(crate) fn journal<D>(
        &self,
        closed: Closed<D>,
        place: Option<Place>,
        node: u8,
        tried: u64,
        kept: Option<bool>,
        second: Option<Event>,
    ) -> Served<D>
        requires { node < length self.now.names.items }
        ensures { result ≡ journal_failed closed place node tried kept second (is_live_in self.now node) }
    {
        let took = self.told(tried, kept);
        let live = self.is_live(node);
        failed(
            closed,
            place,
            node,
            tried,
            kept,
            second,
            Answer::Journal { took, live },
        )
    }
}
