//! Machines and a collector over a union of databases in memory.

ghost use Rattle.std.specs.Prelude.{◌≢◌, Err, IfOk, IfSome};
ghost use Rattle.jc_keeper.specs.declared.keeper.KeepStop.TheVariants.{ReadFailed};
ghost use Rattle.jc_world.specs.Kept.{IsKept};
ghost use Rattle.jc_world.specs.World.{keeper_of, state_of};

use crate::{MemoryKeeper, turn_world};
use jc_base::{Id128, Limits};
use jc_keeper::{KeepStop, Keeper};
use jc_ledger::{Behind, EmptyShelf, MapLedger, UnionKeeper, union_laws};
use jc_store::Layout;
use jc_world::{Event, World};
use std::alloc::Global;

type NewUnion<L> = UnionKeeper<MemoryKeeper<L>, MapLedger, EmptyShelf>;

/// A union of two databases in memory, the first one finished.
pub type TurnedUnion<L> = UnionKeeper<
    MemoryKeeper<L>,
    MapLedger,
    Behind<EmptyShelf, MemoryKeeper<L>>,
>;

/// A union of one new database, with no notes.
fn union_anew<L: Layout>(alloc: Global) -> Result<NewUnion<L>, KeepStop>
    ensures made { IfOk result ⟦<NewUnion<L> as Keeper>⟧.made }
    ensures sound { IfOk result ⟦<NewUnion<L> as Keeper>⟧.sound }
    ensures never_read { result ≢ Err ReadFailed }
{
    // Does nothing: from its contract the proof has what is kept at first.
    union_laws();
    let present = MemoryKeeper::new(alloc)?;
    Ok(UnionKeeper::new(alloc, present, MapLedger::new(alloc), EmptyShelf))
}

/// A new world over such a union that took these events, began another database, and took these. `None` if two of the
/// ids are equal.
pub fn world_behind_a_turn<L: Layout>(
    alloc: Global,
    sources: Vec<Id128>,
    limits: Limits,
    before: &[Event],
    after: &[Event],
) -> Result<Option<World<TurnedUnion<L>>>, KeepStop>
    // If the notes are sound: memory was refused to none of them, and no two entries collide.
    ensures kept { IfOk result (λ found. IfSome found (λ world.
        ⟦<TurnedUnion<L> as Keeper>⟧.sound (keeper_of world) → IsKept limits (state_of ⟦<TurnedUnion<L> as Keeper>⟧.journal world))) }
    ensures made { IfOk result (λ found. IfSome found (λ world.
        ⟦<TurnedUnion<L> as Keeper>⟧.sound (keeper_of world) → ⟦<TurnedUnion<L> as Keeper>⟧.made (keeper_of world))) }
    ensures never_read { result ≢ Err ReadFailed }
{
    let union = union_anew::<L>(alloc)?;
    let Some(mut world) = World::new(alloc, union, sources, limits)? else {
        return Ok(None);
    };
    world.run(before);
    let next = MemoryKeeper::<L>::new(alloc)?;
    let (mut world, turned) = turn_world(world, next);
    turned?;
    world.run(after);
    Ok(Some(world))
}
