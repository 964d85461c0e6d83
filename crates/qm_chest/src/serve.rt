// The chest as the queue manager that nodes ask.
ghost use Rattle.qm_chest.specs.Manager.{meaning_of};

use crate::chest::Chest;
use crate::stepping::{keep, room_for};
use crate::wanted::{Outcome, Wanted};
use core::mem::drop;
use qm_disk::Disk;
use qm_history::{Answer, Call, Serve, worlds_stay_sound};
use qm_kinds::Moment;
use qm_restore::site_files_are_accepted;

impl<D: Disk> Serve for Chest<D> {
    ghost meaning = { meaning_of D.meaning };

    // No turn is left where as many are kept as can be, or memory was short before a takeover.
    fn serve(&mut self, node: u8, now: Moment, call: Call) -> Answer {
        site_files_are_accepted();
        worlds_stay_sound();
        let Ok(wanted) = Wanted::by(self.alloc, node, now, call) else {
            return Answer::NoMemory { took: None };
        };
        let most = self.state.most_events(&wanted);
        match room_for(self.alloc, &mut self.turns, most) {
            Err(told) => {
                drop(wanted);
                told
            }
            Ok(room) => {
                let maker = wanted.maker;
                let Outcome {
                    first,
                    second,
                    answer,
                } = self.state.serve(wanted);
                keep(&mut self.turns, room, maker, first, second);
                answer
            }
        }
    }
}
