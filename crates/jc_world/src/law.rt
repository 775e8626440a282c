//! What holds of a world's definitions.

ghost use Rattle.jc_base.specs.declared.id.Id128.{Id128};
ghost use Rattle.jc_base.specs.declared.limits.Limits.{Limits};
ghost use Rattle.jc_base.specs.Journal.{Journal};
ghost use Rattle.std.specs.Prelude.{◌++◌, List};
ghost use Rattle.jc_world.specs.declared.event.Event.{Event};
ghost use Rattle.jc_world.specs.Event.{Happens};
ghost use Rattle.jc_world.specs.Kept.{IsKept};
ghost use Rattle.jc_world.specs.Schedule.{Grows, StoresAccepted, TakesEach};
ghost use Rattle.jc_world.specs.State.{AreDistinct, State, new_state};

use jc_collect::chain_stored;
use jc_export::canonical_texts_read_back;
use jc_file::fronts_of_files;
use jc_upload::{one_head, one_saying};

/// In a new world every resume point is safe, and every event keeps it so: what lies before a resume point or a saved one
/// is stored as the machine has it. Does nothing.
pub fn events_keep()
    ensures begun { (limits : Limits) (ids : List Id128) (journal : Journal) →
        AreDistinct ids → IsKept limits (new_state ids journal) }
    ensures kept { (limits : Limits) (s t : State) (event : Event) →
        IsKept limits s → Happens limits s event t → IsKept limits t }
{
    one_saying();
    one_head();
    canonical_texts_read_back();
    fronts_of_files();
}

/// After any events, in any order, resume points are safe still; what is stored is what was stored before and the entries
/// of the accepted ones of the events' deliveries, and what was stored before any event is stored after it. Does nothing.
pub fn schedules_keep()
    ensures kept { (limits : Limits) (s t : State) (events : List Event) →
        IsKept limits s → TakesEach limits s events t → IsKept limits t }
    ensures grows { (limits : Limits) (s t : State) (events : List Event) → TakesEach limits s events t → Grows s t }
    ensures stored { (limits : Limits) (s t : State) (events : List Event) →
        TakesEach limits s events t → StoresAccepted limits s events t }
    // The first ones of events lead to a state from which the rest go on: what is said of the end is said of any point.
    ensures point { (limits : Limits) (s t : State) (events more : List Event) → TakesEach limits s (events ++ more) t →
        (u : State) × TakesEach limits s events u × TakesEach limits u more t }
{
    events_keep();
    chain_stored();
}
