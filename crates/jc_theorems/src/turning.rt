//! The collector of a world begins another database.

ghost use Rattle.std.specs.Prelude.{◌≡◌, ◌≢◌, ◌+◌, [], Err, OnErr, OnOk};
ghost use Rattle.std.specs.FinMap as finite;
ghost use Rattle.jc_keeper.specs.declared.keeper.KeepStop.TheVariants.{ReadFailed};
ghost use Rattle.jc_keeper.specs.Keeping.{StoreHasCause};
ghost use Rattle.jc_ledger.specs.Kept.{NoneCollide};
ghost use Rattle.jc_world.specs.Kept.{IsKept};
ghost use Rattle.jc_world.specs.World.{keeper_of, limits_of, state_of};

use jc_keeper::{KeepStop, Keeper};
use jc_ledger::{Behind, Ledger, Shelf, UnionKeeper};
use jc_world::World;

/// The present database of a world's collector is finished, and one without entries becomes the present one. What is pending
/// is stored before, and what waits is noted. The world is what it was: its journal is that of all databases together. If
/// that fails, the collector's device isn't sound any more.
pub fn turn_world<K: Keeper + Drop, L: Ledger + Drop, S: Shelf + Drop, N: Keeper + Drop>(
    world: World<UnionKeeper<K, L, S>>,
    next: N,
) -> (World<UnionKeeper<N, L, Behind<S, K>>>, Result<(), KeepStop>)
    ensures state { N.journal next ≡ finite.empty → ⟦<UnionKeeper<K, L, S> as Keeper>⟧.made (keeper_of world)
        → ⟦<UnionKeeper<N, L, Behind<S, K>> as Keeper>⟧.sound (keeper_of result.0)
        → state_of ⟦<UnionKeeper<N, L, Behind<S, K>> as Keeper>⟧.journal result.0 ≡ state_of ⟦<UnionKeeper<K, L, S> as Keeper>⟧.journal world }
    ensures kept { N.journal next ≡ finite.empty → ⟦<UnionKeeper<K, L, S> as Keeper>⟧.made (keeper_of world)
        → ⟦<UnionKeeper<N, L, Behind<S, K>> as Keeper>⟧.sound (keeper_of result.0)
        → IsKept (limits_of world) (state_of ⟦<UnionKeeper<K, L, S> as Keeper>⟧.journal world)
        → IsKept (limits_of world) (state_of ⟦<UnionKeeper<N, L, Behind<S, K>> as Keeper>⟧.journal result.0) }
    // Whatever was pending, and whatever waited.
    ensures made { N.at_once → N.journal next ≡ finite.empty → N.made next → L.sound (keeper_of result.0).ledger
        → ⟦<UnionKeeper<K, L, S> as Keeper>⟧.made (keeper_of world) → ⟦<UnionKeeper<N, L, Behind<S, K>> as Keeper>⟧.made (keeper_of result.0) }
    ensures settled { ⟦<UnionKeeper<N, L, Behind<S, K>> as Keeper>⟧.settled (keeper_of result.0) }
    ensures waiting { (keeper_of result.0).waiting.entries ≡ [] }
    // If all of it was stored and noted, no failure has shut the finished database or the notes.
    ensures sound { N.sound next → ⟦<UnionKeeper<K, L, S> as Keeper>⟧.made (keeper_of world)
        → K.clean (keeper_of result.0).shelf.last → L.clean (keeper_of result.0).ledger → S.sound (keeper_of result.0).shelf.shelf
        → NoneCollide (L.came (keeper_of result.0).ledger)
        → OnOk result.1 (⟦<UnionKeeper<N, L, Behind<S, K>> as Keeper>⟧.sound (keeper_of result.0)) }
    ensures shut { OnErr result.1 (⟦<UnionKeeper<N, L, Behind<S, K>> as Keeper>⟧.sound (keeper_of result.0) → ⊥) }
    ensures before { ⟦<UnionKeeper<N, L, Behind<S, K>> as Keeper>⟧.sound (keeper_of result.0)
        → ⟦<UnionKeeper<K, L, S> as Keeper>⟧.sound (keeper_of world) }
    ensures clean { ⟦<UnionKeeper<N, L, Behind<S, K>> as Keeper>⟧.clean (keeper_of result.0)
        → ⟦<UnionKeeper<K, L, S> as Keeper>⟧.clean (keeper_of world) }
    ensures limits { limits_of result.0 ≡ limits_of world }
    ensures store { StoreHasCause (N.failures next + ⟦<UnionKeeper<K, L, S> as Keeper>⟧.failures (keeper_of world))
        (⟦<UnionKeeper<N, L, Behind<S, K>> as Keeper>⟧.failures (keeper_of result.0)) result.1 }
    ensures never_read { result.1 ≢ Err ReadFailed }
{
    let (machines, mut union) = world.into_parts();
    let finished = finish(&mut union);
    (machines.with_keeper(union.turn(next)), finished)
}

/// Stores what is pending, and notes what waits, whether the first fails or not. If both fail, the first failure is told.
fn finish<K: Keeper, L: Ledger, S: Shelf>(union: &mut UnionKeeper<K, L, S>) -> Result<(), KeepStop>
    ensures settled { union.new.pending.items ≡ [] }
    ensures waiting { union.new.waiting.entries ≡ [] }
    ensures same { ⟦<UnionKeeper<K, L, S> as Keeper>⟧.made union.old → ⟦<UnionKeeper<K, L, S> as Keeper>⟧.sound union.new
        → ⟦<UnionKeeper<K, L, S> as Keeper>⟧.journal union.new ≡ ⟦<UnionKeeper<K, L, S> as Keeper>⟧.journal union.old }
    ensures before { ⟦<UnionKeeper<K, L, S> as Keeper>⟧.sound union.new → ⟦<UnionKeeper<K, L, S> as Keeper>⟧.sound union.old }
    ensures clean { ⟦<UnionKeeper<K, L, S> as Keeper>⟧.clean union.new → ⟦<UnionKeeper<K, L, S> as Keeper>⟧.clean union.old }
    ensures answered { ⟦<UnionKeeper<K, L, S> as Keeper>⟧.clean union.new → ⟦<UnionKeeper<K, L, S> as Keeper>⟧.made union.old
        → OnOk result (⟦<UnionKeeper<K, L, S> as Keeper>⟧.sound union.new) }
    ensures shut { OnErr result (⟦<UnionKeeper<K, L, S> as Keeper>⟧.sound union.new → ⊥) }
    ensures made { ⟦<UnionKeeper<K, L, S> as Keeper>⟧.made union.old → ⟦<UnionKeeper<K, L, S> as Keeper>⟧.made union.new }
    ensures store { StoreHasCause (⟦<UnionKeeper<K, L, S> as Keeper>⟧.failures union.old) (⟦<UnionKeeper<K, L, S> as Keeper>⟧.failures union.new) result }
    ensures never_read { result ≢ Err ReadFailed }
{
    let stored = union.settle();
    let noted = union.note_waiting();
    match stored {
        Ok(()) => noted,
        Err(stop) => Err(stop),
    }
}
