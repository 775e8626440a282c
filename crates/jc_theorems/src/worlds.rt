//! Machines and a collector over a database in memory.

ghost use Rattle.std.specs.Prelude.{◌≡◌, ◌≢◌, ◌↔◌, Err, IfOk, IfSome, IsSome};
ghost use Rattle.jc_keeper.specs.declared.keeper.KeepStop.TheVariants.{ReadFailed};
ghost use Rattle.jc_world.specs.State.{AreDistinct};
ghost use Rattle.jc_world.specs.World.{limits_of, state_of};
ghost use Rattle.jc_theorems.specs.InWorld.{IsWorldInMemory};

use crate::MemoryKeeper;
use jc_base::{Id128, Limits};
use jc_keeper::KeepStop;
use jc_store::Layout;
use jc_world::{Event, Progress, World};
use std::alloc::Global;

/// A new world that took these events in order: a machine without entries for each of the sources, and a collector with
/// the journal of a new database. `None` if two of the ids are equal.
pub fn world_after<L: Layout>(
    alloc: Global,
    sources: Vec<Id128>,
    limits: Limits,
    events: &[Event],
) -> Result<Option<(Progress, World<MemoryKeeper<L>>)>, KeepStop>
    ensures distinct { IfOk result (λ found. IsSome found ↔ AreDistinct sources.items) }
    ensures world { IfOk result (λ found. IfSome found (λ ran.
        IsWorldInMemory limits sources.items events.now ran.0 (state_of (λ m. m.journal) ran.1))) }
    ensures limits { IfOk result (λ found. IfSome found (λ ran. limits_of ran.1 ≡ limits)) }
    ensures never_read { result ≢ Err ReadFailed }
{
    let keeper = MemoryKeeper::new(alloc)?;
    let Some(mut world) = World::new(alloc, keeper, sources, limits)? else {
        return Ok(None);
    };
    let progress = world.run(events);
    Ok(Some((progress, world)))
}
