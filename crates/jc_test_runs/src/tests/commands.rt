//! Commands over one database in files: of an upload that is told, and of its entry in tables of schema 1.

ghost use Rattle.std.specs.Prelude.{⊤};

use super::new_folder;
use crate::{Telling, with_entry, with_old_entry};
use jc_base::{Entry, Id128, Key};
use jc_collector::{collect, export, migrate};
use jc_command_args::Tables;
use jc_command_shared::{Status, Text};
use jc_database::{Databases, OpenFromFiles, OverFiles, over_files};
use jc_test_told::Machines;
use sqlite::Unknown;
use std::alloc::Global;
use std::fs;
use std::test::Fail;

/// What is done with a database.
#[derive(Clone, Copy)]
pub(super) enum Work {
    /// It is made with the first machine's entry.
    Make,
    /// The same in tables of schema 1.
    MakeOld,
    /// The first machine's upload is collected, and exported.
    Collect,
    Export,
    Migrate,
}

#[derive(Drop)]
struct Command<'a> {
    rt: &'a HostRuntime,
    work: Work,
    database: &'a str,
}

impl<'a> OverFiles for Command<'a> {
    /// What it prints, if it succeeds.
    type Outcome = Option<Vec<u8>>;

    ghost ends = { λ _ _. ⊤ };

    fn over<F: OpenFromFiles>(self, start: F::Start) -> Option<Vec<u8>> {
        let mut system = Telling::<Machines>::new(self.rt);
        let mut output = Text {
            inner: Vec::new(self.rt.alloc()),
        };
        let is_done = match self.work {
            Work::Make => is_made::<_, F>(&mut system, start, self.database),
            Work::MakeOld => is_made_old::<_, F>(&mut system, start, self.database),
            Work::Collect => is_collected::<_, F>(&mut system, start, self.database, &mut output),
            Work::Export => is_exported::<_, F>(&mut system, start, self.database, &mut output),
            Work::Migrate => is_migrated::<_, F>(&mut system, start, self.database, &mut output),
        };
        if is_done { Some(output.inner) } else { None }
    }
}

/// The first machine's entry.
fn first_entry(alloc: Global) -> Option<Entry> {
    let mut id = [0; 16];
    id[0] = 1;
    let key = Key {
        seqnum_id: Id128(id),
        seqnum: 1,
    };
    Entry::from_text(alloc, key, 1, 1, b"").ok()?
}

fn is_made<Y: Databases, F: OpenFromFiles>(
    system: &mut Y,
    start: F::Start,
    database: &str,
) -> bool {
    match first_entry(system.alloc()) {
        Some(entry) => with_entry::<_, F>(system, database, start, entry).is_some(),
        None => false,
    }
}

fn is_made_old<Y: Databases, F: OpenFromFiles>(
    system: &mut Y,
    start: F::Start,
    database: &str,
) -> bool {
    match first_entry(system.alloc()) {
        Some(entry) => with_old_entry::<_, F>(system, database, start, entry).is_some(),
        None => false,
    }
}

fn is_collected<Y: Databases, F: OpenFromFiles>(
    system: &mut Y,
    start: F::Start,
    database: &str,
    output: &mut Text<Vec<u8>>,
) -> bool {
    let mut input = b"".as_slice();
    match collect::<_, F, _, _>(
        system,
        start,
        database,
        Tables::ByKey,
        &["1"],
        Some("exported"),
        &mut input,
        output,
    ) {
        Ok(closed) => closed.value == Status::Success,
        Err(_) => false,
    }
}

fn is_exported<Y: Databases, F: OpenFromFiles>(
    system: &mut Y,
    start: F::Start,
    database: &str,
    output: &mut Text<Vec<u8>>,
) -> bool {
    export::<_, F, _>(system, start, database, output).is_ok()
}

fn is_migrated<Y: Databases, F: OpenFromFiles>(
    system: &mut Y,
    start: F::Start,
    database: &str,
    output: &mut Text<Vec<u8>>,
) -> bool {
    match migrate::<_, F, _>(system, start, database, Tables::ByKey, output) {
        Ok(examined) => examined.value == Status::Success,
        Err(_) => false,
    }
}

/// Whether this is done, and prints this.
pub(super) fn prints(rt: &HostRuntime, work: Work, database: &str, text: &str) -> bool {
    match over_files(Command { rt, work, database }, Unknown) {
        Some(printed) => printed.as_slice() == text.as_bytes(),
        None => false,
    }
}

const ENTRY: &str = "__REALTIME_TIMESTAMP=1\n__MONOTONIC_TIMESTAMP=1\n\
    __SEQNUM=1\n__SEQNUM_ID=01000000000000000000000000000000\n\n";

/// What is collected is exported. What stands in tables of schema 1 is so once it is migrated.
#[test]
fn an_entry_is_exported(rt: HostRuntime) -> Result<(), Fail> {
    let folder = new_folder(&rt, "commands")?;
    let folder = folder.as_str();
    let new = format!(in rt.alloc(); "{folder}new.db")?;
    let new = new.as_str();
    let answer = "ack 01000000000000000000000000000000 0 1 1 0\n";
    assert!(rt; prints(&rt, Work::Collect, new, answer));
    assert!(rt; prints(&rt, Work::Export, new, ENTRY));
    let old = format!(in rt.alloc(); "{folder}old.db")?;
    let old = old.as_str();
    assert!(rt; prints(&rt, Work::MakeOld, old, ""));
    assert!(rt; prints(&rt, Work::Migrate, old, "ok 1\n"));
    assert!(rt; prints(&rt, Work::Export, old, ENTRY));
    Ok(fs::remove_dir_all(&rt, folder)?)
}
