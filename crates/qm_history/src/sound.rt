// What keeps a world sound.
ghost use Rattle.qm_model.specs.Consistent.{IsConsistent};
ghost use Rattle.qm_history.specs.declared.world.World.{World};
ghost use Rattle.qm_history.specs.Legal.{after_turns, IsLegal};
ghost use Rattle.qm_history.specs.Step.{after_event, after_events, CanCome, CanAllCome};
ghost use Rattle.qm_history.specs.World.{system_in, IsSound};
ghost use Rattle.qm_history.specs.Laws.{AllStandInOne, KeepSound};

use qm_model::{entries_stand_in_one_queue, nodes_keep_their_names, requests_keep_consistent};

/// A sound world stays sound at every event that may come, and so at every turn and through a whole legal history.
pub fn worlds_stay_sound()
    ensures event { KeepSound CanCome after_event }
    ensures events { KeepSound CanAllCome after_events }
    ensures history { KeepSound IsLegal after_turns }
{
    nodes_keep_their_names();
}

/// The system of a sound world is consistent, so each of its entries stands in exactly one queue.
pub fn sound_worlds_are_consistent()
    ensures consistent { (w : World) → IsSound w → IsConsistent (system_in w) }
    ensures one_queue { (w : World) → IsSound w → AllStandInOne (system_in w) }
{
    requests_keep_consistent();
    entries_stand_in_one_queue();
}
