//! Schedules in worlds of two machines.

use crate::output::{Output, write_line};
use crate::stock::Stock;
use crate::worlds::write_world;
use jc_base::{Id128, Limits, OutOfMemory};
use jc_keeper::MapKeeper;
use jc_test_samples::SOURCE_ID;
use jc_world::{Event, World};
use std::alloc::Global;
use std::str::from_utf8;

/// How often a call is made that is refused memory.
const TIMES: u8 = 2;

/// The source of the second machine.
const OTHER_ID: [u8; 16] = *b"\xb0\xb1\xb2\xb3\xb4\xb5\xb6\xb7\xb8\xb9\xba\xbb\xbc\xbd\xbe\xbf";

/// Takes schedules, each in worlds of its own. The files are the schedules, one a line, as `stock.rt` has them; an export
/// stream whose entries machines may have; and files whose bytes events may bring.
pub fn take_all(alloc: Global, files: &[Vec<u8>], output: &mut Output) {
    let [schedules, entries, bytes @ ..] = files else {
        return output.no_meaning();
    };
    let Ok(schedules) = from_utf8(schedules) else {
        return output.no_meaning();
    };
    let Some(stock) = Stock::new(alloc, entries, bytes) else {
        return output.no_memory();
    };
    for schedule in schedules.lines() {
        take_schedule(&stock, schedule, output);
    }
}

/// Takes the events of a schedule in a new world, one by one, and in another one all in one run. Writes what each event
/// answered and what the worlds then are, of the second one only if it isn't the same, after `runs differ`. A call that is
/// refused memory is made once more, and a `-` is written first.
fn take_schedule(stock: &Stock, schedule: &str, output: &mut Output) {
    let mut events = Vec::new(stock.alloc);
    let of_steps = step_all(stock, schedule, &mut events, output);
    let of_run = run_all(stock, &events, output);
    write_line(output, "", &[]);
    output.add(&of_steps);
    if !of_run.is_same(&of_steps) {
        write_line(output, "runs differ", &[]);
        output.add(&of_run);
    }
}

/// Takes the events of a schedule in a new world, one by one, and keeps them. Answers what is written of that world then.
fn step_all(stock: &Stock, schedule: &str, events: &mut Vec<Event>, output: &mut Output) -> Output {
    let Some(mut world) = two_machines(stock.alloc, output) else {
        return Output::new(stock.alloc);
    };
    for text in schedule.split(';') {
        step_once(stock, &mut world, text, events, output);
    }
    text_of(stock, world)
}

fn step_once(
    stock: &Stock,
    world: &mut World<MapKeeper>,
    text: &str,
    events: &mut Vec<Event>,
    output: &mut Output,
) {
    let Some(event) = stock.event(text) else {
        return output.no_meaning();
    };
    step(world, &event, output);
    if events.push(event).is_err() {
        output.no_memory();
    }
}

/// Takes events in a new world, all in one run. Answers what is written of that world then.
fn run_all(stock: &Stock, events: &[Event], output: &mut Output) -> Output {
    let Some(mut world) = two_machines(stock.alloc, output) else {
        return Output::new(stock.alloc);
    };
    run(&mut world, events, output);
    text_of(stock, world)
}

fn text_of(stock: &Stock, world: World<MapKeeper>) -> Output {
    let mut text = Output::new(stock.alloc);
    write_world(stock.alloc, world, &stock.entries, &mut text);
    text
}

/// The sources of two machines, if there is memory for them.
fn sources(alloc: Global) -> Option<Vec<Id128>> {
    Vec::from_array(alloc, [Id128(SOURCE_ID), Id128(OTHER_ID)]).ok()
}

/// A world of two machines. Without one the output has failed.
fn two_machines(alloc: Global, output: &mut Output) -> Option<World<MapKeeper>> {
    for _ in 0..TIMES {
        let keeper = MapKeeper::new(alloc);
        let Some(sources) = sources(alloc) else {
            break;
        };
        match World::new(alloc, keeper, sources, Limits::default()) {
            Ok(Some(world)) => return Some(world),
            Ok(None) => output.no_meaning(),
            Err(OutOfMemory) => output.put(b"-"),
        }
    }
    output.no_memory();
    None
}

/// Takes an event, and writes whether it happened.
fn step(world: &mut World<MapKeeper>, event: &Event, output: &mut Output) {
    for _ in 0..TIMES {
        match world.step(event) {
            Ok(true) => return output.put(b"1"),
            Ok(false) => return output.put(b"0"),
            Err(OutOfMemory) => output.put(b"-"),
        }
    }
    output.no_memory();
}

fn run(world: &mut World<MapKeeper>, events: &[Event], output: &mut Output) {
    let progress = world.run(events);
    if progress.refusal.is_none() {
        return;
    }
    output.put(b"-");
    if world.run(&events[progress.taken..]).refusal.is_some() {
        output.no_memory();
    }
}
