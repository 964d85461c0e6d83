// What events do to a world, one behind another.
ghost use Rattle.std.specs.Prelude.{◌≡◌, true, List, Some, Contains};
ghost use Rattle.qm_history.specs.declared.event.Event.{Event};
ghost use Rattle.qm_history.specs.declared.turn.Turn.{Turn};
ghost use Rattle.qm_history.specs.declared.world.World.{World};
ghost use Rattle.qm_history.specs.Happening.{events_of, Begins, is_without_change, acknowledged};
ghost use Rattle.qm_history.specs.Legal.{after_turns};
ghost use Rattle.qm_history.specs.Step.{after_event, after_events, CanAllCome};
ghost use Rattle.qm_history.specs.Laws.{EpochsRise, OfEachEvent, OfEvents, OfHistories, OfLaterTurns, WasFound};

/// The events of a legal history may come one behind another, and lead to the world behind it. So what is said of events is
/// said of histories.
pub fn histories_are_events()
    ensures come { OfHistories (λ w turns. CanAllCome w (events_of turns)) }
    ensures world { (w : World) (turns : List Turn) → after_turns w turns ≡ after_events w (events_of turns) }
{}

/// The epochs of takeovers that stand rise, from above the greatest that was recorded or tried before.
pub fn epochs_rise()
    ensures events { OfEvents EpochsRise }
    ensures history { OfHistories (λ w turns. EpochsRise w (events_of turns)) }
{}

/// A refusal, a listing, what has no room, a node that may not be manager, a fenced call and a compaction leave the world.
pub fn some_events_change_nothing()
    ensures { (w : World) (e : Event) → is_without_change e ≡ true → after_event w e ≡ w }
{}

/// Each earlier log is what each later one begins with.
pub fn logs_grow()
    ensures events { (w : World) (events : List Event) → Begins w.log (after_events w events).log }
    ensures turns { OfLaterTurns (λ earlier later. Begins earlier.log later.log) }
{}

/// The record of a request that was done and of a takeover that stands is in every later log, and so is one that was in doubt
/// and that a later reading found.
pub fn acknowledged_records_stay()
    ensures acknowledged { OfEachEvent (λ w before e r log. acknowledged e ≡ Some r → Contains log r) }
    ensures kept { OfEachEvent (λ w before e r log. WasFound w before e r → Contains log r) }
{}
