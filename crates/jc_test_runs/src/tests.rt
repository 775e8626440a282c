//! Runs of `collect --sequences` over databases in files, one after the other.

ghost use Rattle.std.specs.Prelude.{⊤};

mod commands;

use crate::Telling;
use commands::{Work, prints};
use jc_command::{Begun, Ended, NoteFolders};
use jc_command_args::Tables;
use jc_command_shared::Text;
use jc_database::{OpenFromFiles, OverFiles, over_files};
use jc_ledger::Ledger;
use jc_ledger_files::LedgerInFiles;
use jc_runs::{run_as_step, runs_keep, stopped_run_as_step};
use jc_sequences::{Faults, Folders};
use jc_test_told::Machines;
use sqlite::Unknown;
use std::test::Fail;
use std::{env, fs, io, process};

/// How far a run goes.
#[derive(Clone, Copy)]
enum Until {
    End,
    /// It is stopped before it closes its database.
    Stop,
}

/// A run over a database, of uploads whose names stand in a list's lines behind the machine that brings each.
#[derive(Drop)]
struct Run<'a> {
    rt: &'a HostRuntime,
    sequences: &'a str,
    database: &'a str,
    /// The file of the list, or `-`.
    list: &'a str,
    /// What standard input has.
    lines: &'a [u8],
    until: Until,
}

/// What became of a run, by what it handed back.
#[derive(Clone, Copy, PartialEq)]
enum Came {
    /// It ended with this status, and handed back its database's files and its notes.
    Ended(u8),
    /// It failed with this status before it opened a database, and handed back its notes alone.
    Unopened(u8),
    /// It failed with this status as it opened its database, and handed back what is left of that, and its notes.
    Refused(u8),
    /// It was stopped, and handed back its notes.
    Stopped,
    /// It handed back something else, or nothing.
    Lost,
}

/// What became of a run, and what it printed.
#[derive(Drop)]
struct Printed {
    came: Came,
    output: Vec<u8>,
}

impl<'a> OverFiles for Run<'a> {
    type Outcome = io::Result<Printed>;

    ghost ends = { λ _ _. ⊤ };

    fn over<F: OpenFromFiles>(self, start: F::Start) -> io::Result<Printed> {
        run_over::<F, Unknown>(self, start)
    }
}

// These have no contract, so that none names what stands for the notes in folders, which is large. They are over any
// `S`, since the checker has a fault where `Folders` is put for `N` over `Unknown`.

fn run_over<F: OpenFromFiles, S: Begun>(run: Run<'_>, start: F::Start) -> io::Result<Printed> {
    let faults = Faults::new();
    let folders = Folders::new(run.rt, &faults);
    match run.until {
        Until::End => run_to_end::<F, S, Folders<'_>>(run, folders, start),
        Until::Stop => Ok(run_to_stop::<F, S, Folders<'_>>(run, folders, start)),
    }
}

/// The arguments of a run.
fn words_of(run: &Run<'_>) -> io::Result<Vec<String>> {
    let alloc = run.rt.alloc();
    let words = [
        "journal-collect",
        "collect",
        "--sequences",
        run.sequences,
        "--files-from",
        run.list,
        run.database,
    ];
    let mut all = Vec::new(alloc);
    for word in words {
        all.push(String::from_str(alloc, word)?)?;
    }
    Ok(all)
}

/// A run that ends is a step, and behind any steps what is acknowledged is kept.
fn run_to_end<F: OpenFromFiles, S: Begun, N: NoteFolders<S>>(
    run: Run<'_>,
    folders: N,
    start: F::Start,
) -> io::Result<Printed>
where
    N::Notes: LedgerInFiles,
{
    let alloc = run.rt.alloc();
    let words = words_of(&run)?;
    let mut system = Telling::<Machines>::new(run.rt);
    let mut input = run.lines;
    let mut output = Text {
        inner: Vec::new(alloc),
    };
    let mut errors = Text {
        inner: Vec::new(alloc),
    };
    let ended = run_as_step::<_, F, S, N, _, _, _>(
        &mut system,
        folders,
        start,
        words,
        &mut input,
        &mut output,
        &mut errors,
    );
    runs_keep();
    Ok(Printed {
        came: came_of(&ended),
        output: output.inner,
    })
}

fn came_of<C: Drop, R: Drop, L: Ledger + Drop, N: Drop>(ended: &Ended<C, R, L, N>) -> Came {
    match (&ended.files, &ended.ledger, &ended.left) {
        (Some(_files), Some(_notes), None) => Came::Ended(ended.status),
        (None, None, Some(left)) => match left.files {
            Some(_) => Came::Refused(ended.status),
            None => Came::Unopened(ended.status),
        },
        _ => Came::Lost,
    }
}

/// So is one that is stopped.
fn run_to_stop<F: OpenFromFiles, S: Begun, N: NoteFolders<S>>(
    run: Run<'_>,
    folders: N,
    start: F::Start,
) -> Printed
where
    N::Notes: LedgerInFiles,
{
    let alloc = run.rt.alloc();
    let mut system = Telling::<Machines>::new(run.rt);
    let mut names = run.lines;
    let mut output = Text {
        inner: Vec::new(alloc),
    };
    let mut errors = Text {
        inner: Vec::new(alloc),
    };
    let stopped = stopped_run_as_step::<_, F, S, N, _, _, _>(
        &mut system,
        folders,
        run.sequences,
        start,
        run.database,
        Tables::ByKey,
        None,
        &mut names,
        None,
        &mut output,
        &mut errors,
    );
    runs_keep();
    Printed {
        came: match stopped {
            Ok(_) => Came::Stopped,
            Err(_) => Came::Lost,
        },
        output: output.inner,
    }
}

/// Such a run over a database and notes in a folder, of what a list names.
fn collected_by(
    rt: &HostRuntime,
    folder: &str,
    database: &str,
    list: &str,
    lines: &str,
    until: Until,
) -> io::Result<Printed> {
    let sequences = format!(in rt.alloc(); "{folder}sequences")?;
    let database = format!(in rt.alloc(); "{folder}{database}")?;
    let run = Run {
        rt,
        sequences: sequences.as_str(),
        database: database.as_str(),
        list,
        lines: lines.as_bytes(),
        until,
    };
    over_files(run, Unknown)
}

/// The same, of the lines on standard input.
fn collected(
    rt: &HostRuntime,
    folder: &str,
    database: &str,
    lines: &str,
    until: Until,
) -> io::Result<Printed> {
    collected_by(rt, folder, database, "-", lines, until)
}

/// The path of a new folder of this process, with a `/` at its end.
fn new_folder(rt: &HostRuntime, name: &str) -> io::Result<String> {
    let id = process::id(rt.process());
    let path = env::temp_dir(rt)?;
    let all = path.as_str();
    let folder = format!(in rt.alloc(); "{all}/journal-collect-{id}-{name}/")?;
    fs::create_dir(rt, folder.as_str())?;
    Ok(folder)
}

fn are(printed: &Printed, came: Came, lines: &str) -> bool {
    printed.came == came && printed.output.as_slice() == lines.as_bytes()
}

const ONE_IS_NEW: &str = "ack 01000000000000000000000000000000 0 1 1 0\n";

const ONE_IS_THERE: &str = "ack 01000000000000000000000000000000 0 1 0 0\n";

const OTHER_IS_NEW: &str = "ack 02000000000000000000000000000000 0 1 1 0\n";

const BOTH_ARE_THERE: &str = "ack 02000000000000000000000000000000 0 1 0 0\n\
    no - - 61 0\n\
    ack 01000000000000000000000000000000 0 1 0 0\n";

/// Two machines and three databases. The second machine's run is stopped, and the next one over its database finds what
/// was acknowledged. The first machine's upload comes to that again, behind the name of one that can't be read, and
/// then to the third database, when the window with its note is gone.
#[test]
fn uploads_that_are_told_are_collected(rt: HostRuntime) -> Result<(), Fail> {
    let folder = new_folder(&rt, "runs")?;
    let folder = folder.as_str();
    let new = collected(&rt, folder, "first.db", "\u{1}\t1\n", Until::End)?;
    assert!(rt; are(&new, Came::Ended(0), ONE_IS_NEW));
    let other = collected(&rt, folder, "second.db", "\u{2}\t2\n", Until::Stop)?;
    assert!(rt; are(&other, Came::Stopped, OTHER_IS_NEW));
    let lines = "\u{2}\t2\n\u{1}\tgone\n\u{1}\t1\n";
    let again = collected(&rt, folder, "second.db", lines, Until::End)?;
    assert!(rt; are(&again, Came::Ended(3), BOTH_ARE_THERE));
    let window = format!(in rt.alloc(); "{folder}sequences/01000000000000000000000000000000/0")?;
    fs::remove_file(&rt, window.as_str())?;
    let anew = collected(&rt, folder, "third.db", "\u{1}\t1\n", Until::End)?;
    assert!(rt; are(&anew, Came::Ended(0), ONE_IS_NEW));
    Ok(fs::remove_dir_all(&rt, folder)?)
}

/// A folder is no database. The next run has the notes as they were.
#[test]
fn a_run_without_a_database_hands_back_its_notes(rt: HostRuntime) -> Result<(), Fail> {
    let folder = new_folder(&rt, "unopened")?;
    let folder = folder.as_str();
    let no_database = format!(in rt.alloc(); "{folder}folder.db")?;
    fs::create_dir(&rt, no_database.as_str())?;
    let failed = collected(&rt, folder, "folder.db", "\u{1}\t1\n", Until::End)?;
    assert!(rt; are(&failed, Came::Unopened(3), ""));
    let next = collected(&rt, folder, "next.db", "\u{1}\t1\n", Until::End)?;
    assert!(rt; are(&next, Came::Ended(0), ONE_IS_NEW));
    Ok(fs::remove_dir_all(&rt, folder)?)
}

/// A file that is no database is handed back. The next run has the notes as they were.
#[test]
fn a_run_over_another_file_hands_it_back(rt: HostRuntime) -> Result<(), Fail> {
    let folder = new_folder(&rt, "refused")?;
    let folder = folder.as_str();
    let no_database = format!(in rt.alloc(); "{folder}text.db")?;
    fs::write(&rt, no_database.as_str(), b"no database".as_slice())?;
    let refused = collected(&rt, folder, "text.db", "\u{1}\t1\n", Until::End)?;
    assert!(rt; are(&refused, Came::Refused(1), ""));
    let next = collected(&rt, folder, "next.db", "\u{1}\t1\n", Until::End)?;
    assert!(rt; are(&next, Came::Ended(0), ONE_IS_NEW));
    Ok(fs::remove_dir_all(&rt, folder)?)
}

/// A run over a database that has an entry, and no note of it, finds it there. What it collects stands in a list that is told.
#[test]
fn a_database_with_an_entry_is_collected_into(rt: HostRuntime) -> Result<(), Fail> {
    let folder = new_folder(&rt, "filled")?;
    let folder = folder.as_str();
    let path = format!(in rt.alloc(); "{folder}filled.db")?;
    assert!(rt; prints(&rt, Work::Make, path.as_str(), ""));
    let again = collected_by(&rt, folder, "filled.db", "list", "", Until::End)?;
    assert!(rt; are(&again, Came::Ended(0), ONE_IS_THERE));
    Ok(fs::remove_dir_all(&rt, folder)?)
}
