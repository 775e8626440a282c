//! Machines and a collector over a database in memory.

use super::pieces::bytes_of;
use super::same::same_answers;
use jc_base::{Id128, Limits};
use jc_schema_three::SchemaThree;
use jc_schema_two::SchemaTwo;
use jc_store::Layout;
use jc_test_samples::SOURCE_ID;
use jc_theorems::{MemoryKeeper, world_after};
use jc_world::{Event, Progress, World};
use std::alloc::Global;
use std::process::Abort;
use std::test::Fail;

/// A world of one machine that took events, and how many it took.
fn world_of<L: Layout>(
    alloc: Global,
    events: &[Event],
) -> Result<(Progress, World<MemoryKeeper<L>>), Fail> {
    let sources = vec![in alloc; Id128(SOURCE_ID)]?;
    match world_after(alloc, sources, Limits::default(), events) {
        Ok(Some(ran)) => Ok(ran),
        _ => Err(Fail::new("no world")),
    }
}

/// Four events, and one of a machine that isn't there.
fn events(alloc: Global) -> Result<Vec<Event>, Fail> {
    let mut all = Vec::new(alloc);
    for event in [
        Event::Make(0, 1),
        Event::Deliver(0, 48),
        Event::Hand(0),
        Event::Make(1, 1),
    ] {
        all.push(event)?;
    }
    all.push(Event::Alien(bytes_of(alloc, r#""JCUPLD01""#)?))?;
    Ok(all)
}

fn check_world<L: Layout>(rt: &(impl Abort + AllocGlobal)) -> Result<(), Fail> {
    let (progress, world) = world_of::<L>(rt.alloc(), &events(rt.alloc())?)?;
    assert!(rt; progress.taken == 5 && progress.refusal.is_none());
    same_answers(
        rt,
        "answers",
        world.answers(),
        &["ack S 0 0 0 0", "no - - 1 8"],
    )
}

/// A run takes every event, also one that names no machine.
#[test]
fn a_world_in_memory(rt: HostRuntime) -> Result<(), Fail> {
    check_world::<SchemaTwo>(&rt)?;
    check_world::<SchemaThree>(&rt)
}
