//! `check`: whether a database has a journal, and how many entries it keeps.

ghost use Rattle.std.specs.Prelude.{◌≡◌, ◌≢◌, None, Some, IfOk, IfErr, MatchOption};
ghost use Rattle.std.specs.FinMap.{len};
ghost use Rattle.std.specs.Io.KnownBytes.{Keeps};
ghost use Rattle.jc_store.specs.Meaning.{IsSound, KeepsJournal};
ghost use Rattle.jc_collector.specs.Checked.{Counts, IsHealth, PrintsHealth, count_line, health_found, health_status};
ghost use Rattle.jc_collector.specs.Database.{CheckFailsBy, IsStoreFailure, WhyNoHealth};
ghost use Rattle.jc_collector.specs.Open.{EndsOver};
ghost use Rattle.jc_collector.specs.Kinds.{LeadsThere};
ghost use Rattle.jc_collector.specs.OverFiles.{Prints};
ghost use Rattle.jc_command_shared.specs.Failure.{status_of};
ghost use Rattle.jc_command_shared.specs.Deeds.{OpensOnce};

use crate::closing::{Closed, close_after};
use crate::database::{Opened, check_name, open_there};
use crate::failed::FailedCommand;
use crate::failures::why_unanswered;
use crate::unopened::Unopened;
use jc_base::Fault;
use jc_command_shared::{Failure, Found, Output, Status, print_found};
use jc_database::{Databases, OpenFromFiles, StoreInFiles};
use jc_keeper::Keeper;
use jc_store::{Listed, TableKeeper};
use sqlite::Alter;

/// What `check` and `migrate` print of a database.
#[derive(Clone, Copy)]
pub enum Health {
    /// It keeps this many entries.
    Whole(u64),
    /// It has no journal, or one with a row that isn't an entry; the place is that row's number, from 0.
    Bad(Fault),
}

/// What is said of a database, and its files, closed, if it has a journal.
#[derive(Drop)]
pub struct Examined<T: Drop, C: Drop> {
    pub value: T,
    pub files: Option<C>,
}

impl<T: Drop, C: Drop> Examined<T, C> {
    /// What is said of a database that was closed.
    pub fn closed(closed: Closed<T, C>) -> Examined<T, C>
        ensures value { result.value ≡ closed.value }
        ensures files { result.files ≡ Some closed.files }
    {
        let Closed { value, files } = closed;
        Examined {
            value,
            files: Some(files),
        }
    }
}

impl Health {
    fn found(&self) -> Found
        ensures { result ≡ health_found self.now }
    {
        match *self {
            Health::Whole(entries) => Found::Count {
                entries,
                left: None,
            },
            Health::Bad(fault) => Found::bad(fault),
        }
    }
}

/// Prints what is in a database.
pub fn check<'a, Y: Databases, F: OpenFromFiles, O: Output>(
    rt: &mut Y,
    start: F::Start,
    database: &'a str,
    output: &mut O,
) -> Result<Examined<Status, F::Files>, FailedCommand<'a, F::Left>>
    // It prints how many entries the files had, and they keep them; or the database is refused.
    ensures counted { IfOk result (λ examined. MatchOption examined.files (examined.value ≡ Status.Refused)
        (λ files. LeadsThere F.first F.in_files files
        (Prints count_line (O.contents output.old) (O.contents output.new)))) }
    ensures printed { IfOk result (λ examined. (health : Health) × IsHealth health
        × PrintsHealth health examined.value (O.contents output.old) (O.contents output.new)) }
    ensures failed { IfErr result (λ failed. CheckFailsBy database.now failed.failure) }
    ensures untouched { IfErr result (λ failed. status_of failed.failure ≢ Status.Failed
        → Keeps (O.contents output.old) (O.contents output.new)) }
    ensures touched { OpensOnce database.now (Y.deeds rt.old) (Y.deeds rt.new) }
{
    check_name(database)?;
    let Examined { value, files } = read_health::<_, F>(rt, start, database)?;
    let value = print_health(value, output)?;
    Ok(Examined { value, files })
}

/// Counts the entries of the journal in the database at a path.
fn read_health<'a, Y: Databases, F: OpenFromFiles>(
    rt: &mut Y,
    start: F::Start,
    database: &'a str,
) -> Result<Examined<Health, F::Files>, FailedCommand<'a, F::Left>>
    ensures counted { IfOk result (λ examined. MatchOption examined.files (health_status examined.value ≡ Status.Refused)
        (λ files. LeadsThere F.first F.in_files files (Counts examined.value))) }
    ensures health { IfOk result (λ examined. IsHealth examined.value) }
    ensures failed { IfErr result (λ failed. WhyNoHealth database.now failed.failure) }
    ensures touched { OpensOnce database.now (Y.deeds rt.old) (Y.deeds rt.new) }
{
    match open_there::<_, F>(rt, database, start) {
        Ok(Opened::ByKey(keeper)) => Ok(Examined::closed(count_and_close(keeper)?)),
        Ok(Opened::ByNumber(keeper)) => Ok(Examined::closed(count_and_close(keeper)?)),
        Err(Unopened { failure, left }) => match failure {
            Failure::Bad(fault) => Ok(refused(fault)),
            failure => Err(FailedCommand { failure, left }),
        },
    }
}

/// What is said of a database that has no journal, so that its files aren't given back.
pub(crate) fn refused_as<T: Drop, C: Drop>(value: T) -> Examined<T, C>
    ensures value { result.value ≡ value }
    ensures files { result.files ≡ None }
{
    Examined { value, files: None }
}

/// What is said of a database with this fault. It has no journal, and so its files aren't given back.
pub(crate) fn refused<C: Drop>(fault: Fault) -> Examined<Health, C>
    ensures value { result.value ≡ Health.Bad fault }
    ensures files { result.files ≡ None }
{
    Examined {
        value: Health::Bad(fault),
        files: None,
    }
}

/// Counts the entries of a keeper's journal, and closes its database.
pub(crate) fn count_and_close<'a, F: StoreInFiles, L: Listed>(
    mut keeper: TableKeeper<F, L>,
) -> Result<Closed<Health, F::Files>, FailedCommand<'a, F::Left>>
    ensures sound { IfOk result (λ closed. F.in_files.clean closed.files
        → IsSound F.Store keeper.conn) }
    ensures counted { IfOk result (λ closed. EndsOver L.meaning F.Store F.in_files keeper.conn closed.files
        (Counts closed.value)) }
    ensures health { IfOk result (λ closed. IsHealth closed.value) }
    ensures failed { IfErr result (λ failed. IsStoreFailure failed.failure) }
{
    let counted = count(&mut keeper);
    close_after(keeper, counted)
}

/// How many entries a keeper's journal has.
fn count<'a, S: Alter, L: Listed>(keeper: &mut TableKeeper<S, L>) -> Result<Health, Failure<'a>>
    ensures counted { ⟦<TableKeeper<S, L> as Keeper>⟧.sound keeper.new → ⟦<TableKeeper<S, L> as Keeper>⟧.made keeper.old
        → IfOk result (λ health. health ≡ Health.Whole (len (⟦<TableKeeper<S, L> as Keeper>⟧.journal keeper.old))) }
    ensures before { IsSound S.Store keeper.new.conn → IsSound S.Store keeper.old.conn }
    ensures keeps { KeepsJournal L.meaning S.Store keeper.old.conn keeper.new.conn }
    ensures health { IfOk result IsHealth }
    ensures failed { IfErr result IsStoreFailure }
{
    match keeper.count() {
        Ok(count) => Ok(Health::Whole(count)),
        Err(stop) => Err(why_unanswered(stop)),
    }
}

/// Prints what was found, and answers its status.
pub(crate) fn print_health<'a, O: Output>(
    health: Health,
    output: &mut O,
) -> Result<Status, Failure<'a>>
    ensures printed { IfOk result (λ status. PrintsHealth health status (O.contents output.old) (O.contents output.new)) }
    ensures failed { IfErr result (λ failure. failure ≡ Failure.WriteFailed) }
{
    print_found(&health.found(), output)
}
