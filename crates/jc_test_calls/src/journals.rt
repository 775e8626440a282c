//! A journal, and steps that are taken over it.
//!
//! The first line of a script says what the journal is kept by: `map`; `union`, for databases that take turns; or `shut`,
//! for these with a ledger that is shut. Each other line is a step, as `kept.rt` has them. Over a union there are more
//! steps, and two turns at most:
//!
//! | Step | |
//! |---|---|
//! | `present STEP` | the step is taken over the present database |
//! | `catch E` | the entries of the export stream E are noted where they aren't |
//! | `turn` | an empty database becomes the present one |
//!
//! With `elsewhere` for its first line, an entry is asked for that lies in databases which aren't opened.

use crate::kept::{Given, take_step};
use crate::output::{Output, write_code, write_line};
use jc_base::{Id128, Key, ListSource};
use jc_keeper::{KeepStop, Keeper, MapKeeper};
use jc_ledger::{
    Behind, CaughtUp, Elsewhere, EmptyShelf, Ledger, MapLedger, Shelf, UnionKeeper, catch_up,
};
use jc_test_samples::SEQNUM_ID;
use std::alloc::Global;
use std::marker::Brand;
use std::str::from_utf8;

/// Takes the steps over a journal. The first file is the script, and the others are what the steps name by numbers.
pub fn take_all(given: Given<'_>, output: &mut Output) {
    let [script, files @ ..] = given.files else {
        return output.no_meaning();
    };
    let Ok(script) = from_utf8(script) else {
        return output.no_meaning();
    };
    let given = Given { files, ..given };
    let (kind, steps) = script.split_once('\n').unwrap_or((script, ""));
    match kind {
        "map" => take_each(given, &mut MapKeeper::new(given.alloc), steps, output),
        "union" => before_turns(given, empty_union(given.alloc), steps, output),
        "shut" => {
            let mut union = empty_union(given.alloc);
            union.ledger.is_shut = true;
            before_turns(given, union, steps, output)
        }
        "elsewhere" => ask_elsewhere(output),
        _ => output.no_meaning(),
    }
}

/// Databases that take turns, each of them in a map. None is finished.
fn empty_union(alloc: Global) -> UnionKeeper<MapKeeper, MapLedger, EmptyShelf> {
    UnionKeeper::new(
        alloc,
        MapKeeper::new(alloc),
        MapLedger::new(alloc),
        EmptyShelf,
    )
}

fn take_each<K: Keeper>(given: Given<'_>, keeper: &mut K, steps: &str, output: &mut Output) {
    for step in steps.lines() {
        take_step(given, keeper, step, output);
    }
}

/// The steps before the next turn, and those behind it.
fn parts_at_turn(steps: &str) -> (&str, &str) {
    steps.split_once("turn\n").unwrap_or((steps, ""))
}

fn before_turns<K: Keeper + Drop, L: Ledger + Drop, S: Shelf + Drop>(
    given: Given<'_>,
    mut union: UnionKeeper<K, L, S>,
    steps: &str,
    output: &mut Output,
) {
    let (now, later) = parts_at_turn(steps);
    take_over_union(given, &mut union, now, output);
    after_a_turn(given, turned(given.alloc, union), later, output)
}

fn after_a_turn<K: Keeper + Drop, L: Ledger + Drop, S: Shelf + Drop>(
    given: Given<'_>,
    mut union: UnionKeeper<K, L, S>,
    steps: &str,
    output: &mut Output,
) {
    let (now, later) = parts_at_turn(steps);
    take_over_union(given, &mut union, now, output);
    after_two_turns(given, turned(given.alloc, union), later, output)
}

fn after_two_turns<K: Keeper + Drop, L: Ledger + Drop, S: Shelf + Drop>(
    given: Given<'_>,
    mut union: UnionKeeper<K, L, S>,
    steps: &str,
    output: &mut Output,
) {
    take_over_union(given, &mut union, steps, output)
}

/// Another database in a map becomes the present one. What calls this has nothing of `turn`'s contract to prove with.
fn turned<K: Keeper, L: Ledger, S: Shelf>(
    alloc: Global,
    mut union: UnionKeeper<K, L, S>,
) -> UnionKeeper<MapKeeper, L, Behind<S, K>> {
    let _settled = union.settle();
    let _noted = union.note_waiting();
    union.turn(MapKeeper::new(alloc))
}

fn take_over_union<K: Keeper, L: Ledger, S: Shelf>(
    given: Given<'_>,
    union: &mut UnionKeeper<K, L, S>,
    steps: &str,
    output: &mut Output,
) {
    for step in steps.lines() {
        take_union_step(given, union, step, output);
    }
}

fn take_union_step<K: Keeper, L: Ledger, S: Shelf>(
    given: Given<'_>,
    union: &mut UnionKeeper<K, L, S>,
    step: &str,
    output: &mut Output,
) {
    let (word, rest) = step.split_once(' ').unwrap_or((step, ""));
    match word {
        "present" => take_step(given, &mut union.present, rest, output),
        "catch" => match given.source(rest) {
            Some(mut entries) => write_caught_up(
                output,
                caught_up(given.alloc, &mut union.ledger, &mut entries),
            ),
            None => output.no_meaning(),
        },
        _ => take_step(given, union, step, output),
    }
}

/// What becomes of a database's entries that are to be noted. What calls this has nothing of `catch_up`'s contract to
/// prove with.
fn caught_up<L: Ledger>(
    alloc: Global,
    ledger: &mut L,
    entries: &mut ListSource,
) -> Result<CaughtUp, KeepStop> {
    catch_up(alloc, ledger, entries)
}

fn write_caught_up(output: &mut Output, caught: Result<CaughtUp, KeepStop>) {
    match caught {
        Ok(CaughtUp::Done) => write_line(output, "done", &[]),
        Ok(CaughtUp::Differs { index }) => write_line(output, "differs", &[index]),
        Ok(CaughtUp::Faulty(fault)) => write_code(output, "faulty", fault.code, fault.place),
        Err(stop) => write_code(output, "stop", stop.code(), 0),
    }
}

/// Asks for an entry of databases that aren't opened, and writes how often that failed.
fn ask_elsewhere(output: &mut Output) {
    let key = Key {
        seqnum_id: Id128(SEQNUM_ID),
        seqnum: 1,
    };
    let mut shelf: Elsewhere<Brand> = Elsewhere::new();
    match shelf.get(&key) {
        Ok(_) => write_line(output, "opened", &[]),
        Err(stop) => write_code(output, "stop", stop.code(), 0),
    }
    write_line(output, "failures", &[shelf.failures])
}
