//! Runs that are stopped before they close their database, over tables of either kind: what they acknowledge, and what
//! the next run finds. And some that come to their end, which list a journal.

use super::folder::{new_folder, path_in};
use super::output::ALWAYS;
use super::pieces::bytes_of;
use super::same::{same, same_bytes};
use super::stopping::{Stopping, Told};
use jc_command_args::Tables;
use jc_database::over_files;
use jc_test_samples::answer_lines;
use sqlite::Unknown;
use std::alloc::Global;
use std::process::Abort;
use std::test::Fail;
use std::{fs, io};

/// Which run is made, and where it is stopped.
#[derive(Clone, Copy)]
pub(super) enum Run {
    /// One over deliveries. Then the next run opens the database.
    Deliveries,
    /// One over the uploads that lines name, and then the next run.
    Lines,
    /// One over such uploads into a union, of which no database is finished, with notes in memory.
    Union,
    /// One that shows the entries, which isn't stopped.
    Show,
}

/// What came of it.
#[derive(Clone, Copy, Debug, PartialEq, Eq)]
pub(super) enum Came {
    Failed,
    /// It ended at an output that can't be flushed.
    Unwritten,
    /// It went up to where it was stopped.
    Stopped,
    /// It did, and the next run found so many entries.
    Found(u64),
    /// It came to its end.
    Ended,
}

/// A run, the pieces of its uploads, how often its output can be flushed, what comes of it, and the lines that it prints.
struct Row {
    of: &'static str,
    run: Run,
    database: &'static str,
    uploads: &'static [&'static str],
    flushes: u64,
    comes: Came,
    prints: &'static [&'static str],
}

/// Each run goes on from what the one before it acknowledged, although that one didn't close the database.
const ROWS: [Row; 14] = [
    Row {
        of: "deliveries",
        run: Run::Deliveries,
        database: "db",
        uploads: &["head:1:0 ENTRY"],
        flushes: ALWAYS,
        comes: Came::Found(1),
        prints: &["ack S 0 1 1 0"],
    },
    Row {
        of: "lines",
        run: Run::Lines,
        database: "db",
        uploads: &["head:1:0 ENTRY", "head:1:0 ENTRY_2"],
        flushes: ALWAYS,
        comes: Came::Found(2),
        prints: &["ack S 0 1 0 0", "ack S 0 1 1 0"],
    },
    Row {
        of: "deliveries behind lines",
        run: Run::Deliveries,
        database: "db",
        uploads: &["head:1:0 ENTRY_2", "head:1:0 ENTRY_3"],
        flushes: ALWAYS,
        comes: Came::Found(3),
        prints: &["ack S 0 1 0 0", "ack S 0 1 1 0"],
    },
    Row {
        of: "lines once more",
        run: Run::Lines,
        database: "db",
        uploads: &["head:1:0 ENTRY", "head:1:0 ENTRY_2"],
        flushes: ALWAYS,
        comes: Came::Found(3),
        prints: &["ack S 0 1 0 0", "ack S 0 1 0 0"],
    },
    Row {
        of: "lines into a union",
        run: Run::Union,
        database: "union.db",
        uploads: &["head:1:0 ENTRY", "head:1:0 ENTRY_2"],
        flushes: ALWAYS,
        comes: Came::Stopped,
        prints: &["ack S 0 1 1 0", "ack S 0 1 1 0"],
    },
    Row {
        of: "lines into a union that has some",
        run: Run::Union,
        database: "union.db",
        uploads: &["head:1:0 ENTRY_2", "head:1:0 ENTRY_3"],
        flushes: ALWAYS,
        comes: Came::Stopped,
        prints: &["ack S 0 1 0 0", "ack S 0 1 1 0"],
    },
    // An answer counts as printed once it is flushed: nothing is taken up behind one that isn't. Names that wait together
    // are one group, whose answers are flushed at once.
    Row {
        of: "an answer that isn't flushed",
        run: Run::Deliveries,
        database: "flush.db",
        uploads: &["head:1:0 ENTRY", "head:1:0 ENTRY_2"],
        flushes: 0,
        comes: Came::Unwritten,
        prints: &["ack S 0 1 1 0"],
    },
    Row {
        of: "a second answer that isn't flushed",
        run: Run::Deliveries,
        database: "flush.db",
        uploads: &["head:1:0 ENTRY", "head:1:0 ENTRY_2", "head:1:0 ENTRY_3"],
        flushes: 1,
        comes: Came::Unwritten,
        prints: &["ack S 0 1 0 0", "ack S 0 1 1 0"],
    },
    Row {
        of: "a refusal that isn't flushed",
        run: Run::Deliveries,
        database: "flush.db",
        uploads: &["head:1:0 \"=x\""],
        flushes: 0,
        comes: Came::Unwritten,
        prints: &["no S 0 10 0"],
    },
    Row {
        of: "an answer to a name that isn't flushed",
        run: Run::Lines,
        database: "flush.db",
        uploads: &["head:1:0 ENTRY_2", "head:1:0 ENTRY_3"],
        flushes: 0,
        comes: Came::Unwritten,
        prints: &["ack S 0 1 0 0", "ack S 0 1 1 0"],
    },
    Row {
        of: "answers that are all flushed",
        run: Run::Deliveries,
        database: "flush.db",
        uploads: &["head:1:0 ENTRY_2", "head:1:0 ENTRY_3"],
        flushes: 2,
        comes: Came::Found(3),
        prints: &["ack S 0 1 0 0", "ack S 0 1 0 0"],
    },
    Row {
        of: "one entry",
        run: Run::Deliveries,
        database: "shown.db",
        uploads: &["head:1:0 ENTRY"],
        flushes: ALWAYS,
        comes: Came::Found(1),
        prints: &["ack S 0 1 1 0"],
    },
    Row {
        of: "a listing that isn't flushed",
        run: Run::Show,
        database: "shown.db",
        uploads: &[],
        flushes: 0,
        comes: Came::Unwritten,
        prints: &["000102030405060708090a0b0c0d0e0f 1 1000000 5 hi"],
    },
    Row {
        of: "a listing",
        run: Run::Show,
        database: "shown.db",
        uploads: &[],
        flushes: 1,
        comes: Came::Ended,
        prints: &["000102030405060708090a0b0c0d0e0f 1 1000000 5 hi"],
    },
];

#[test]
fn what_the_next_run_has(rt: HostRuntime) -> Result<(), Fail> {
    check_rows(&rt, &told_of_rows(&rt, "by-key", Tables::ByKey)?)?;
    check_rows(&rt, &told_of_rows(&rt, "by-number", Tables::ByNumber)?)
}

/// The rows, of which nothing is known where they are used: what names them has all of them to prove with.
fn rows() -> &'static [Row] {
    &ROWS
}

/// What came of the rows' runs.
fn told_of_rows(rt: &HostRuntime, name: &str, tables: Tables) -> io::Result<Vec<Told>> {
    let folder = new_folder(rt, name)?;
    let mut told = Vec::new(rt.alloc());
    for row in rows() {
        told.push(stop(rt, folder.as_str(), tables, row)?)?;
    }
    fs::remove_dir_all(rt, folder.as_str())?;
    Ok(told)
}

fn check_rows(rt: &(impl Abort + AllocGlobal), told: &[Told]) -> Result<(), Fail> {
    for (row, told) in rows().iter().zip(told) {
        check_row(rt, row, told)?;
    }
    Ok(())
}

fn check_row(rt: &(impl Abort + AllocGlobal), row: &Row, told: &Told) -> Result<(), Fail> {
    same(rt, row.of, &told.came, &row.comes);
    let wanted = answer_lines(rt.alloc(), row.prints)?;
    same_bytes(rt, row.of, &told.output, wanted.as_bytes());
    Ok(())
}

/// Makes the run of a row, and stops it.
fn stop(rt: &HostRuntime, folder: &str, tables: Tables, row: &Row) -> io::Result<Told> {
    let path = path_in(rt.alloc(), folder, row.database)?;
    let names = write_uploads(rt, folder, row.uploads)?;
    let uploads = uploads_of(rt.alloc(), row.uploads)?;
    let stopping = Stopping {
        rt,
        path: path.as_str(),
        tables,
        run: row.run,
        uploads: &uploads,
        flushes: row.flushes,
        names: names.as_bytes(),
    };
    Ok(over_files(stopping, Unknown))
}

/// Writes uploads into files, and answers lines that name them.
fn write_uploads(rt: &HostRuntime, folder: &str, uploads: &[&str]) -> io::Result<String> {
    let mut names = String::new(rt.alloc());
    for pieces in uploads {
        let path = format!(in rt.alloc(); "{folder}{}", names.len())?;
        fs::write(rt, path.as_str(), &bytes_of(rt.alloc(), pieces)?)?;
        names.push_str(path.as_str())?;
        names.push_str("\n")?;
    }
    Ok(names)
}

fn uploads_of(alloc: Global, uploads: &[&str]) -> io::Result<Vec<Vec<u8>>> {
    let mut all = Vec::new(alloc);
    for pieces in uploads {
        all.push(bytes_of(alloc, pieces)?)?;
    }
    Ok(all)
}
