//! Worlds whose collector turns to another database.

use super::pieces::bytes_of;
use super::same::{same, same_answers};
use super::stored::check_stored;
use jc_base::{Id128, Limits};
use jc_export::read_all;
use jc_keeper::{Keeper, MapKeeper};
use jc_ledger::{Behind, EmptyShelf, MapLedger, UnionKeeper};
use jc_schema_two::SchemaTwo;
use jc_test_samples::SOURCE_ID;
use jc_theorems::{TurnedUnion, turn_world, world_behind_a_turn};
use jc_world::{Event, World};
use std::alloc::Global;
use std::process::Abort;
use std::test::Fail;

/// A collector whose first database is the present one, and one that has turned to a second one.
type First = UnionKeeper<MapKeeper, MapLedger, EmptyShelf>;

type Second = UnionKeeper<MapKeeper, MapLedger, Behind<EmptyShelf, MapKeeper>>;

/// An event that happens, where the machine's resume point is then, and how many it saved.
type Row = (Event, u64, u64);

const BEHIND_THE_TURN: [Row; 4] = [
    (Event::Hand(0), 2, 2),
    (Event::Make(0, 9), 2, 2),
    (Event::Deliver(1, 169), 2, 2),
    (Event::Hand(1), 3, 3),
];

/// One machine without entries, and a collector without any.
fn first_world(alloc: Global) -> Result<World<First>, Fail> {
    let union = UnionKeeper::new(
        alloc,
        MapKeeper::new(alloc),
        MapLedger::new(alloc),
        EmptyShelf,
    );
    let sources = vec![in alloc; Id128(SOURCE_ID)]?;
    match World::new(alloc, union, sources, Limits::default()) {
        Ok(Some(world)) => Ok(world),
        _ => Err(Fail::new("no world")),
    }
}

/// What happens before the turn: the machine gets three entries, and an upload of the first two reaches the collector.
fn before_the_turn(alloc: Global) -> Result<Vec<Row>, Fail> {
    let stream = bytes_of(alloc, "ENTRY ENTRY_2 ENTRY_3")?;
    let mut rows = Vec::new(alloc);
    for entry in read_all(alloc, &stream, &Limits::default())?.entries {
        rows.push((Event::Append(0, entry), 0, 1))?;
    }
    rows.push((Event::Make(0, 2), 0, 1))?;
    rows.push((Event::Deliver(0, 290), 0, 1))?;
    Ok(rows)
}

/// The events happen, one after the other.
fn take<K: Keeper + Drop>(rt: &impl Abort, world: &mut World<K>, rows: &[Row]) -> Result<(), Fail> {
    for (event, position, saved) in rows {
        same(rt, "an event", &world.step(event), &Ok(true));
        check_point(rt, world, *position, *saved)?;
    }
    Ok(())
}

fn check_point<K: Keeper + Drop>(
    rt: &impl Abort,
    world: &World<K>,
    position: u64,
    count: u64,
) -> Result<(), Fail> {
    let (Some(point), Some(saved)) = (world.resume(0), world.saved(0)) else {
        return Err(Fail::new("no machine"));
    };
    same(rt, "a resume point", &point.position(), &position);
    same(rt, "saved", &(saved.len() as u64), &count);
    Ok(())
}

/// Another database becomes the present one. What calls this has nothing of `turn_world`'s contract to prove with.
fn turned(alloc: Global, world: World<First>) -> Result<World<Second>, Fail> {
    let (world, finished) = turn_world(world, MapKeeper::new(alloc));
    match finished {
        Ok(()) => Ok(world),
        Err(_) => Err(Fail::new("no turn")),
    }
}

/// The machine made an upload of two entries, and one of the third.
fn check_lengths(rt: &impl Abort, uploads: &[Vec<u8>]) -> Result<(), Fail> {
    let [first, second] = uploads else {
        return Err(Fail::new("not two uploads"));
    };
    same(rt, "a length", &first.len(), &290);
    same(rt, "a length", &second.len(), &169);
    Ok(())
}

/// The first two entries lie in the first database, and the third one in the present one.
fn check_databases(rt: &(impl Abort + AllocGlobal), mut union: Second) -> Result<(), Fail> {
    check_stored(rt, &mut union, "ENTRY ENTRY_2 ENTRY_3")?;
    check_stored(rt, &mut union.shelf.last, "ENTRY ENTRY_2")?;
    check_stored(rt, &mut union.present, "ENTRY_3")
}

/// A world in which that happened. What calls this has nothing of what a world is to prove with, nor has what calls
/// `after_the_turn`: of a world over a union each step takes seconds.
fn grown<K: Keeper + Drop>(
    rt: &(impl Abort + AllocGlobal),
    mut world: World<K>,
) -> Result<World<K>, Fail> {
    take(rt, &mut world, &before_the_turn(rt.alloc())?)?;
    Ok(world)
}

/// What happens behind the turn; the keeper as it is then.
fn after_the_turn<K: Keeper + Drop>(
    rt: &(impl Abort + AllocGlobal),
    mut world: World<K>,
) -> Result<K, Fail> {
    check_point(rt, &world, 0, 1)?;
    take(rt, &mut world, &BEHIND_THE_TURN)?;
    check_lengths(rt, world.uploads())?;
    let wanted = ["ack S 0 2 2 0", "ack S 2 1 1 0"];
    same_answers(rt, "answers", world.answers(), &wanted)?;
    Ok(world.into_keeper())
}

/// A machine's entries lie in both databases, and an answer that was given over the first one moves its resume point on.
#[test]
fn a_world_that_turns(rt: HostRuntime) -> Result<(), Fail> {
    let world = grown(&rt, first_world(rt.alloc())?)?;
    let union = after_the_turn(&rt, turned(rt.alloc(), world)?)?;
    check_databases(&rt, union)
}

/// What happens behind the turn.
const AFTER: [Event; 4] = [
    Event::Hand(0),
    Event::Make(0, 9),
    Event::Deliver(1, 169),
    Event::Hand(1),
];

/// The same world over databases in memory. What calls this has nothing of `world_behind_a_turn`'s contract to prove with.
fn world_over_tables(alloc: Global) -> Result<World<TurnedUnion<SchemaTwo>>, Fail> {
    let sources = vec![in alloc; Id128(SOURCE_ID)]?;
    let mut before = Vec::new(alloc);
    for (event, _position, _saved) in before_the_turn(alloc)? {
        before.push(event)?;
    }
    match world_behind_a_turn(alloc, sources, Limits::default(), &before, &AFTER) {
        Ok(Some(world)) => Ok(world),
        _ => Err(Fail::new("no world")),
    }
}

#[test]
fn a_world_over_tables_that_turns(rt: HostRuntime) -> Result<(), Fail> {
    let world = world_over_tables(rt.alloc())?;
    let wanted = ["ack S 0 2 2 0", "ack S 2 1 1 0"];
    same_answers(&rt, "answers", world.answers(), &wanted)
}
