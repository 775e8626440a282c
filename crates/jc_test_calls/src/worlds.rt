//! What is printed of a world.

use crate::output::{Output, write_line};
use jc_base::{Entry, OutOfMemory};
use jc_keeper::{Keeper, MapKeeper};
use jc_upload::Resume;
use jc_world::World;
use std::alloc::Global;

/// How many machines a world has.
const MACHINES: usize = 2;

/// Writes the uploads, each after its length, the answers' lines, of each machine how many entries it has, its resume
/// point and those that it saved, and which of these entries are stored.
pub fn write_world(alloc: Global, world: World<MapKeeper>, entries: &[Entry], output: &mut Output) {
    write_sent(alloc, &world, output);
    write_stored(&mut world.into_keeper(), entries, output)
}

/// Writes the uploads, the answers and the machines.
fn write_sent(alloc: Global, world: &World<MapKeeper>, output: &mut Output) {
    for upload in world.uploads() {
        write_line(output, "upload", &[upload.len() as u64]);
        output.put(upload);
    }
    for answer in world.answers() {
        output.put(answer.line().bytes());
    }
    for machine in 0..MACHINES {
        write_machine(alloc, world, machine, output);
    }
}

fn write_machine(alloc: Global, world: &World<MapKeeper>, machine: usize, output: &mut Output) {
    let count = match world.entries(machine) {
        Some(entries) => entries.len() as u64,
        None => 0,
    };
    write_line(output, "machine", &[count]);
    if let Some(point) = world.resume(machine) {
        write_point(alloc, point, output);
    }
    if let Some(saved) = world.saved(machine) {
        for point in saved {
            write_point(alloc, point, output);
        }
    }
}

fn write_point(alloc: Global, point: &Resume, output: &mut Output) {
    match point.text(alloc) {
        Ok(text) => output.put(&text),
        Err(OutOfMemory) => output.no_memory(),
    }
}

fn write_stored(keeper: &mut MapKeeper, entries: &[Entry], output: &mut Output) {
    for entry in entries {
        let is_stored = match keeper.get(&entry.key()) {
            Ok(Some(stored)) => stored.same(entry),
            Ok(None) => false,
            Err(_) => return output.no_memory(),
        };
        output.put(if is_stored { b"1" } else { b"0" });
    }
    write_line(output, "", &[])
}
