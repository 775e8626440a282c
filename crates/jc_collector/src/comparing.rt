//! `check --sequences`: whether the entries of a database are those that are noted.

ghost use Rattle.std.specs.Prelude.{◌≡◌, ◌≢◌, ◌⊎◌, Some, IfOk, IfErr};
ghost use Rattle.std.specs.Io.KnownBytes.{Keeps};
ghost use Rattle.jc_store.specs.Meaning.{IsSound};
ghost use Rattle.jc_collector.specs.Compared.{ComparesNoted, ComparingFails, LeavesCompared, Stays, comparison_found};
ghost use Rattle.jc_collector.specs.Database.{CheckFailsBy, WhyNoHealth};
ghost use Rattle.jc_collector.specs.Open.{EndsOver};
ghost use Rattle.jc_command_shared.specs.Deeds.{OpensOnce};
ghost use Rattle.jc_command_shared.specs.Failure.{status_of};

use crate::closing::{Closed, close_after};
use crate::database::{Opened, check_name, open_there};
use crate::failed::FailedCommand;
use crate::failures::why_unanswered;
use crate::health::{Examined, refused_as};
use crate::into_union::list_present;
use crate::unopened::Unopened;
use jc_base::{Code, Ending, EntrySource, Fault, Limits, SliceStream, Step};
use jc_command_shared::{Failure, Found, Output, Status, System, print_found};
use jc_database::{Databases, OpenFromFiles, StoreInFiles};
use jc_keeper::KeepStop;
use jc_ledger::digest_of;
use jc_notes::NotesRead;
use jc_store::{Listed, TableKeeper};
use jc_stream::Stream;

/// What `check --sequences` prints of a database.
#[derive(Clone, Copy)]
pub enum Comparison {
    /// Each of its entries is the one that is noted under its key, but for so many that aren't noted.
    Agrees { count: u64, lacking: u64 },
    /// It has no journal, or a row that isn't an entry; or an entry passes a limit, at this byte of what is exported; or
    /// the entry of this number, from 0 in the order of keys, differs from its note.
    Bad(Fault),
}

impl Comparison {
    fn found(&self) -> Found
        ensures { result ≡ comparison_found self.now }
    {
        match *self {
            Comparison::Agrees { count, lacking } => Found::Count {
                entries: count,
                left: Some(lacking),
            },
            Comparison::Bad(fault) => Found::bad(fault),
        }
    }
}

/// Compares the entries of a database with their notes in a folder, and notes nothing.
pub fn check_noted<'a, Y: Databases, F: OpenFromFiles, O: Output>(
    rt: &mut Y,
    start: F::Start,
    database: &'a str,
    folder: &'a str,
    output: &mut O,
) -> Result<Examined<Status, F::Files>, FailedCommand<'a, F::Left>>
    // It prints what was found, and the files keep the journal that they had; or it says that they have none.
    ensures compared { IfOk result (λ examined. ComparesNoted F.first F.in_files examined.files examined.value
        (O.contents output.old) (O.contents output.new)) }
    ensures failed { IfErr result (λ failed. (failed.failure ≡ Failure.ReadFailed) ⊎ CheckFailsBy database.now failed.failure) }
    ensures untouched { IfErr result (λ failed. status_of failed.failure ≢ Status.Failed
        → Keeps (O.contents output.old) (O.contents output.new)) }
    ensures touched { OpensOnce database.now (Y.deeds rt.old) (Y.deeds rt.new) }
{
    check_name(database)?;
    let Examined { value, files } = compared::<_, F>(rt, start, database, folder)?;
    let value = print_found(&value.found(), output)?;
    Ok(Examined { value, files })
}

fn compared<'a, Y: Databases, F: OpenFromFiles>(
    rt: &mut Y,
    start: F::Start,
    database: &'a str,
    folder: &'a str,
) -> Result<Examined<Comparison, F::Files>, FailedCommand<'a, F::Left>>
    ensures kept { IfOk result (λ examined. LeavesCompared F.first F.in_files examined.value examined.files) }
    ensures failed { IfErr result (λ failed. (failed.failure ≡ Failure.ReadFailed) ⊎ WhyNoHealth database.now failed.failure) }
    ensures touched { OpensOnce database.now (Y.deeds rt.old) (Y.deeds rt.new) }
{
    match open_there::<_, F>(rt, database, start) {
        Ok(Opened::ByKey(keeper)) => {
            Ok(Examined::closed(compare_and_close(rt, keeper, folder)?))
        }
        Ok(Opened::ByNumber(keeper)) => {
            Ok(Examined::closed(compare_and_close(rt, keeper, folder)?))
        }
        Err(Unopened { failure, left }) => match failure {
            Failure::Bad(fault) => Ok(refused_as(Comparison::Bad(fault))),
            failure => Err(FailedCommand { failure, left }),
        },
    }
}

/// Compares the entries of a keeper's journal with their notes, and closes its database.
fn compare_and_close<'a, Y: System, F: StoreInFiles, L: Listed>(
    rt: &Y,
    keeper: TableKeeper<F, L>,
    folder: &str,
) -> Result<Closed<Comparison, F::Files>, FailedCommand<'a, F::Left>>
    ensures sound { IfOk result (λ closed. F.in_files.clean closed.files
        → IsSound F.Store keeper.conn) }
    ensures kept { IfOk result (λ closed. EndsOver L.meaning F.Store F.in_files keeper.conn closed.files Stays) }
    ensures failed { IfErr result (λ failed. ComparingFails failed.failure) }
{
    let (keeper, text) = list_present::<F, L>(rt.alloc(), keeper);
    let comparison = compare_listed(rt, text, folder);
    close_after(keeper, comparison)
}

/// Compares the entries of a text with their notes, if a keeper gave one.
fn compare_listed<'a, Y: System>(
    rt: &Y,
    text: Result<Vec<u8>, KeepStop>,
    folder: &str,
) -> Result<Comparison, Failure<'a>>
    ensures failed { IfErr result ComparingFails }
{
    match text {
        Ok(text) => compare(rt, &text, folder),
        Err(stop) => Err(why_unanswered(stop)),
    }
}

/// Compares the entries of a text with their notes.
fn compare<'a, Y: System>(rt: &Y, text: &[u8], folder: &str) -> Result<Comparison, Failure<'a>>
    ensures failed { IfErr result ComparingFails }
{
    let mut entries = Stream::new(rt.alloc(), SliceStream::new(text), Limits::default())?;
    compare_entries(rt, &mut entries, folder)
}

/// Compares the entries that a source gives with their notes.
fn compare_entries<'a, Y: System, S: EntrySource>(
    rt: &Y,
    entries: &mut S,
    folder: &str,
) -> Result<Comparison, Failure<'a>>
    ensures failed { IfErr result ComparingFails }
{
    let mut notes = NotesRead::new(rt.alloc());
    let mut count = 0;
    let mut lacking = 0;
    'entries: loop {
        let step = entries.next()?;
        match step {
            Step::Entry(entry) => match notes.find(rt, folder, &entry.key())? {
                Some(digest) if digest != digest_of(&entry) => {
                    return Ok(Comparison::Bad(Fault {
                        code: Code::Conflict,
                        place: count,
                    }));
                }
                Some(_) => count += 1,
                None => {
                    count += 1;
                    lacking += 1;
                }
            },
            Step::End { left: _ } => return Ok(Comparison::Agrees { count, lacking }),
            Step::Bad(fault) => return Ok(Comparison::Bad(fault)),
        }
    }
}
