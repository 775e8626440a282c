//! The list of runs that jc_runs works out (`worked` in its `specs/Worked.antt`), over databases and notes in memory: two
//! machines, four databases, two stops, an upload that can't be read, a database that is set aside, and a window of notes that
//! goes. The answers that are printed, and the owners, are those that stand there.

use crate::machines::OTHER;
use crate::{Machines, Memory};
use jc_base::{Ending, Id128, Key, Limits, ListSource};
use jc_collector_answers::{NameLines, answer_names};
use jc_command_shared::{Status, Text};
use jc_export::read_all;
use jc_keeper::{KeepStop, Keeper, MapKeeper};
use jc_ledger::{
    Behind, CaughtUp, EmptyShelf, Ledger, MachineDigest, MapLedger, Shelf, UnionKeeper, catch_up,
};
use jc_sender::acknowledged;
use std::alloc::Global;
use std::collections::VecDeque;
use std::process::Abort;
use std::test::Fail;

const IDS: [&str; 2] = [
    "01000000000000000000000000000000",
    "02000000000000000000000000000000",
];

/// The key of the first machine's entry, of the other's, and of the one behind that.
const OF_ONE: Key = Key {
    seqnum_id: Id128([1, 0, 0, 0, 0, 0, 0, 0, 0, 0, 0, 0, 0, 0, 0, 0]),
    seqnum: 1,
};

const OF_OTHER: Key = Key {
    seqnum_id: Id128([2, 0, 0, 0, 0, 0, 0, 0, 0, 0, 0, 0, 0, 0, 0, 0]),
    seqnum: 262_145,
};

const OF_LOST: Key = Key {
    seqnum_id: Id128([2, 0, 0, 0, 0, 0, 0, 0, 0, 0, 0, 0, 0, 0, 0, 0]),
    seqnum: 262_146,
};

/// What is answered to the uploads that lines name, behind the machine that brings each.
fn answered<K: Keeper>(alloc: Global, keeper: &mut K, lines: &str) -> Option<Vec<u8>> {
    let mut output = Text {
        inner: Vec::new(alloc),
    };
    let mut errors = Text {
        inner: Vec::new(alloc),
    };
    answer_names(
        &Memory::<Machines>::new(alloc),
        keeper,
        &mut lines.as_bytes(),
        NameLines::MachinesAndUploads,
        &mut output,
        &mut errors,
    )
    .ok()?;
    Some(output.inner)
}

/// The first machine's upload is acknowledged, and its entry is new. Then it may be deleted.
fn run_of_one<K: Keeper>(rt: &(impl Abort + AllocGlobal), keeper: &mut K) -> Result<(), Fail> {
    let alloc = rt.alloc();
    let id = IDS[0];
    let line = format!(in alloc; "ack {id} 0 1 1 0\n")?;
    let answers = answered(alloc, keeper, "\u{1}\t1");
    assert!(rt; answers.is_some_and(|it| it.as_slice() == line.as_bytes()));
    assert!(rt; may_delete(alloc, "1", line.as_bytes()));
    assert!(rt; !may_delete(alloc, "2", line.as_bytes()));
    Ok(())
}

/// Whether lines acknowledge all of the upload with a name.
fn may_delete(alloc: Global, upload: &str, mut lines: &[u8]) -> bool {
    let files = Memory::<Machines>::new(alloc);
    let mut output = Text {
        inner: Vec::new(alloc),
    };
    let told = acknowledged(&files, upload, &mut lines, &mut output);
    matches!(told, Ok(Status::Success))
}

/// A run stores the other machine's upload, and is stopped before it has a note. The sequence is already that machine's.
fn stopped_run<K: Keeper, S: Shelf>(
    rt: &(impl Abort + AllocGlobal),
    union: &mut UnionKeeper<K, MapLedger, S>,
) -> Result<(), Fail> {
    let alloc = rt.alloc();
    let id = IDS[1];
    let line = format!(in alloc; "ack {id} 0 1 1 0\n")?;
    let answers = answered(alloc, union, "\u{2}\t2");
    assert!(rt; answers.is_some_and(|it| it.as_slice() == line.as_bytes()));
    assert!(rt; union.waiting.remove(&OF_OTHER).is_some());
    Ok(())
}

/// The first machine's upload comes again, behind the name of one that can't be read.
fn run_behind_unread<K: Keeper>(
    rt: &(impl Abort + AllocGlobal),
    keeper: &mut K,
) -> Result<(), Fail> {
    let alloc = rt.alloc();
    let id = IDS[0];
    let lines = format!(in alloc; "no - - 61 0\nack {id} 0 1 0 0\n")?;
    let answers = answered(alloc, keeper, "\u{1}\tgone\n\u{1}\t1\n");
    assert!(rt; answers.is_some_and(|it| it.as_slice() == lines.as_bytes()));
    assert!(rt; may_delete(alloc, "1", lines.as_bytes()));
    Ok(())
}

/// The next one notes what the present database has.
fn caught_up<K: Keeper, L: Ledger, S: Shelf>(
    alloc: Global,
    union: &mut UnionKeeper<K, L, S>,
) -> Option<CaughtUp> {
    let reading = read_all(alloc, &OTHER[48..], &Limits::default()).ok()?;
    let mut source = ListSource::new(VecDeque::from(reading.entries), Ending::End { left: 0 });
    catch_up(alloc, &mut union.ledger, &mut source).ok()
}

fn turned<K: Keeper, L: Ledger, S: Shelf>(
    alloc: Global,
    mut union: UnionKeeper<K, L, S>,
) -> UnionKeeper<MapKeeper, L, Behind<S, K>> {
    let _settled = union.settle();
    let _noted = union.note_waiting();
    union.turn(MapKeeper::new(alloc))
}

/// A run stores one more upload of the other machine, and is stopped before it has a note and a line is printed.
fn stopped_unanswered<K: Keeper, S: Shelf>(
    rt: &impl Abort,
    alloc: Global,
    union: &mut UnionKeeper<K, MapLedger, S>,
) {
    let _unprinted = answered(alloc, union, "\u{2}\t3");
    assert!(rt; has(&mut union.present, &OF_LOST));
    assert!(rt; union.waiting.remove(&OF_LOST).is_some());
}

/// The present database can't be opened, and another one is.
fn set_aside<K: Keeper + Drop, L: Ledger, S: Shelf>(
    alloc: Global,
    union: UnionKeeper<K, L, S>,
) -> UnionKeeper<MapKeeper, L, S> {
    UnionKeeper::new(alloc, MapKeeper::new(alloc), union.ledger, union.shelf)
}

fn has<K: Keeper>(keeper: &mut K, key: &Key) -> bool {
    matches!(keeper.get(key), Ok(Some(_)))
}

/// The note of an entry goes.
fn forget(ledger: &mut MapLedger, key: &Key) -> bool {
    ledger.notes.remove(key).is_some()
}

/// Whether a key's sequence belongs to the machine whose name is this byte.
fn owns<L: Ledger>(ledger: &mut L, key: &Key, name: u8) -> bool {
    let owner = ledger.owner_of(key.seqnum_id);
    matches!(owner, Ok(Some(machine)) if machine == MachineDigest::of(&[name]))
}

/// At last the first machine's entry is in the first and in the fourth database, and the other's in the second. The
/// sequences are the machines' own.
fn check_databases<K: Keeper, L: Ledger, S: Shelf, A: Keeper, B: Keeper>(
    rt: &impl Abort,
    union: &mut UnionKeeper<K, L, Behind<Behind<S, A>, B>>,
) {
    assert!(rt; has(&mut union.shelf.shelf.last, &OF_ONE));
    assert!(rt; !has(&mut union.shelf.shelf.last, &OF_OTHER));
    assert!(rt; !has(&mut union.shelf.last, &OF_ONE));
    assert!(rt; has(&mut union.shelf.last, &OF_OTHER));
    assert!(rt; has(&mut union.present, &OF_ONE));
    assert!(rt; !has(&mut union.present, &OF_OTHER));
    assert!(rt; owns(&mut union.ledger, &OF_ONE, 1));
    assert!(rt; owns(&mut union.ledger, &OF_OTHER, 2));
}

#[test]
fn worked_runs_are_answered_so(rt: HostRuntime) -> Result<(), Fail> {
    let alloc = rt.alloc();
    let maps = MapKeeper::new(alloc);
    let mut first = UnionKeeper::new(alloc, maps, MapLedger::new(alloc), EmptyShelf);
    run_of_one(&rt, &mut first)?;
    let mut second = turned(alloc, first);
    stopped_run(&rt, &mut second)?;
    assert!(rt; matches!(caught_up(alloc, &mut second), Some(CaughtUp::Done)));
    run_behind_unread(&rt, &mut second)?;
    let mut third = turned(alloc, second);
    stopped_unanswered(&rt, alloc, &mut third);
    let mut fourth = set_aside(alloc, third);
    assert!(rt; !forget(&mut fourth.ledger, &OF_LOST));
    assert!(rt; forget(&mut fourth.ledger, &OF_ONE));
    run_of_one(&rt, &mut fourth)?;
    check_databases(&rt, &mut fourth);
    Ok(())
}

/// The first machine brings an upload of the other's sequence. It is refused by the number of the entry, and nothing of it is
/// stored.
#[test]
fn an_upload_of_another_machine_is_refused(rt: HostRuntime) -> Result<(), Fail> {
    let alloc = rt.alloc();
    let maps = MapKeeper::new(alloc);
    let mut union = UnionKeeper::new(alloc, maps, MapLedger::new(alloc), EmptyShelf);
    let lines = "ack 02000000000000000000000000000000 0 1 1 0\n\
        no 03000000000000000000000000000000 0 71 0\n";
    let answers = answered(alloc, &mut union, "\u{2}\t2\n\u{1}\t3\n");
    assert!(rt; answers.is_some_and(|it| it.as_slice() == lines.as_bytes()));
    assert!(rt; has(&mut union.present, &OF_OTHER));
    assert!(rt; !has(&mut union.present, &OF_LOST));
    Ok(())
}
