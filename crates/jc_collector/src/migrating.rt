//! `migrate`: a journal goes over from tables of an earlier kind to others.

ghost use Rattle.std.specs.Prelude.{◌≡◌, ◌≢◌, IfOk, IfErr, MatchOption};
ghost use Rattle.std.specs.Io.KnownBytes.{Keeps};
ghost use Rattle.jc_store.specs.Meaning.{IsSound, MovesJournal};
ghost use Rattle.jc_schema_one.specs.Tables.{one};
ghost use Rattle.jc_schema_two.specs.Tables.{two};
ghost use Rattle.jc_schema_three.specs.Tables.{three};
ghost use Rattle.jc_command_args.specs.declared.request.Tables.TheVariants.{ByKey, ByNumber};
ghost use Rattle.jc_collector.specs.Checked.{Counts, IsHealth, PrintsHealth, count_line, health_status};
ghost use Rattle.jc_collector.specs.Database.{CheckFailsBy, IsStoreFailure, WhyNoHealth};
ghost use Rattle.jc_collector.specs.Earlier.{EndsByNumber, LeadsFrom, conn_before};
ghost use Rattle.jc_collector.specs.OverFiles.{Prints};
ghost use Rattle.jc_collector.specs.declared.health.Health.{Health};
ghost use Rattle.jc_command_shared.specs.Failure.{status_of};
ghost use Rattle.jc_command_shared.specs.Deeds.{OpensOnce};

use crate::closing::Closed;
use crate::database::{check_name, open_old};
use crate::earlier::{Earlier, EarlierFiles, open_earlier};
use crate::failed::FailedCommand;
use crate::health::{Examined, Health, count_and_close, print_health, refused};
use crate::unopened::Unopened;
use jc_base::Code;
use jc_command_args::Tables;
use jc_command_shared::{Failure, Output, Status};
use jc_database::{Databases, OpenFromFiles, StoreInFiles, close_keeper};
use jc_records::{ReplaceStop, replace_tables};
use jc_schema_one::{MigrateStop, SqlKeeper1, raise_version};
use jc_schema_three::{SchemaThree, Three};
use jc_schema_two::SchemaTwo;
use jc_store::{Layout, Successor, TableKeeper};

/// Puts the journal of a database from tables of an earlier kind into these, and prints what is in them; or what is wrong
/// with the database, which then stays as it is. Those of schema 1 become tables of either kind, and those by key become
/// tables by number.
pub fn migrate<'a, Y: Databases, F: OpenFromFiles, O: Output>(
    rt: &mut Y,
    start: F::Start,
    database: &'a str,
    tables: Tables,
    output: &mut O,
) -> Result<Examined<Status, F::Files>, FailedCommand<'a, F::Left>>
    // It prints how many entries the files had in tables of an earlier kind, and they have them in these.
    ensures moved { IfOk result (λ examined. MatchOption examined.files (examined.value ≡ Status.Refused)
        (λ files. LeadsFrom tables F.first F.in_files files
        (Prints count_line (O.contents output.old) (O.contents output.new)))) }
    ensures printed { IfOk result (λ examined. (health : Health) × IsHealth health
        × PrintsHealth health examined.value (O.contents output.old) (O.contents output.new)) }
    ensures failed { IfErr result (λ failed. CheckFailsBy database.now failed.failure) }
    ensures untouched { IfErr result (λ failed. status_of failed.failure ≢ Status.Failed
        → Keeps (O.contents output.old) (O.contents output.new)) }
    ensures touched { OpensOnce database.now (Y.deeds rt.old) (Y.deeds rt.new) }
{
    check_name(database)?;
    let Examined { value, files } = migrated_to::<_, F>(rt, start, database, tables)?;
    let value = print_health(value, output)?;
    Ok(Examined { value, files })
}

/// Puts the journal of the database at a path into these tables, and counts its entries.
fn migrated_to<'a, Y: Databases, F: OpenFromFiles>(
    rt: &mut Y,
    start: F::Start,
    database: &'a str,
    tables: Tables,
) -> Result<Examined<Health, F::Files>, FailedCommand<'a, F::Left>>
    ensures moved { IfOk result (λ examined. MatchOption examined.files (health_status examined.value ≡ Status.Refused)
        (λ files. LeadsFrom tables F.first F.in_files files (Counts examined.value))) }
    ensures health { IfOk result (λ examined. IsHealth examined.value) }
    ensures failed { IfErr result (λ failed. WhyNoHealth database.now failed.failure) }
    ensures touched { OpensOnce database.now (Y.deeds rt.old) (Y.deeds rt.new) }
{
    match tables {
        Tables::ByKey => migrated_by_key::<_, F>(rt, start, database),
        Tables::ByNumber => migrated_by_number::<_, F>(rt, start, database),
    }
}

/// Puts the journal of the database at a path from tables of schema 1 into tables by key, and counts its entries.
fn migrated_by_key<'a, Y: Databases, F: OpenFromFiles>(
    rt: &mut Y,
    start: F::Start,
    database: &'a str,
) -> Result<Examined<Health, F::Files>, FailedCommand<'a, F::Left>>
    ensures moved { IfOk result (λ examined. MatchOption examined.files (health_status examined.value ≡ Status.Refused)
        (λ files. LeadsFrom ByKey F.first F.in_files files (Counts examined.value))) }
    ensures health { IfOk result (λ examined. IsHealth examined.value) }
    ensures failed { IfErr result (λ failed. WhyNoHealth database.now failed.failure) }
    ensures touched { OpensOnce database.now (Y.deeds rt.old) (Y.deeds rt.new) }
{
    match open_old::<_, F>(rt, database, start) {
        Ok(keeper) => Ok(Examined::closed(count_and_close(go_over::<F, SchemaTwo>(keeper)?)?)),
        Err(Unopened { failure, left }) => match failure {
            Failure::Bad(fault) => Ok(refused(fault)),
            failure => Err(FailedCommand { failure, left }),
        },
    }
}

/// Puts the journal of the database at a path from tables of an earlier kind into tables by number, and counts its entries.
fn migrated_by_number<'a, Y: Databases, F: OpenFromFiles>(
    rt: &mut Y,
    start: F::Start,
    database: &'a str,
) -> Result<Examined<Health, F::Files>, FailedCommand<'a, F::Left>>
    ensures moved { IfOk result (λ examined. MatchOption examined.files (health_status examined.value ≡ Status.Refused)
        (λ files. LeadsFrom ByNumber F.first F.in_files files (Counts examined.value))) }
    ensures health { IfOk result (λ examined. IsHealth examined.value) }
    ensures failed { IfErr result (λ failed. WhyNoHealth database.now failed.failure) }
    ensures touched { OpensOnce database.now (Y.deeds rt.old) (Y.deeds rt.new) }
{
    match open_earlier::<_, F>(rt, database, start) {
        Ok(taken) => Ok(Examined::closed(number_fields(taken)?)),
        Err(Unopened { failure, left }) => match failure {
            Failure::Bad(fault) => Ok(refused(fault)),
            failure => Err(FailedCommand { failure, left }),
        },
    }
}

/// Puts a journal into tables by number, counts its entries, and closes its database.
fn number_fields<'a, F: StoreInFiles>(
    taken: EarlierFiles<F>,
) -> Result<Closed<Health, F::Files>, FailedCommand<'a, F::Left>>
    ensures sound { IfOk result (λ closed. F.in_files.clean closed.files
        → IsSound F.Store (conn_before taken)) }
    ensures moved { IfOk result (λ closed. EndsByNumber F.Store F.in_files taken closed.files (Counts closed.value)) }
    ensures health { IfOk result (λ closed. IsHealth closed.value) }
    ensures failed { IfErr result (λ failed. IsStoreFailure failed.failure) }
{
    match taken {
        Earlier::Oldest(keeper) => count_and_close(raised(keeper)?),
        Earlier::ByKey(keeper) => count_and_close(replaced(keeper)?),
    }
}

/// Gives the tables of schema 1 the version 3. If they keep theirs, their database is closed.
fn raised<'a, F: StoreInFiles>(
    keeper: SqlKeeper1<F>,
) -> Result<TableKeeper<F, SchemaThree>, Failure<'a>>
    ensures before { IfOk result (λ moved. IsSound F.Store moved.conn → IsSound F.Store keeper.conn) }
    ensures moved { IfOk result (λ moved. MovesJournal one three F.Store keeper.conn moved.conn) }
    ensures failed { IfErr result IsStoreFailure }
{
    match raise_version::<F, Three>(keeper) {
        Ok(keeper) => Ok(keeper),
        Err(MigrateStop { code, keeper }) => Err(stayed(code, keeper)),
    }
}

/// Puts a journal from tables by key into tables by number. If it stays where it is, its database is closed.
fn replaced<'a, F: StoreInFiles>(
    keeper: TableKeeper<F, SchemaTwo>,
) -> Result<TableKeeper<F, SchemaThree>, Failure<'a>>
    ensures before { IfOk result (λ moved. IsSound F.Store moved.conn → IsSound F.Store keeper.conn) }
    ensures moved { IfOk result (λ moved. MovesJournal two three F.Store keeper.conn moved.conn) }
    ensures failed { IfErr result IsStoreFailure }
{
    match replace_tables::<F, SchemaTwo, SchemaThree>(keeper) {
        Ok(keeper) => Ok(keeper),
        Err(ReplaceStop { code, keeper }) => Err(stayed(code, keeper)),
    }
}

/// Puts a journal into tables of a layout. If it stays where it is, its database is closed.
fn go_over<'a, F: StoreInFiles, L: Successor>(
    keeper: SqlKeeper1<F>,
) -> Result<TableKeeper<F, L>, Failure<'a>>
    ensures before { IfOk result (λ moved. IsSound F.Store moved.conn → IsSound F.Store keeper.conn) }
    ensures moved { IfOk result (λ moved. MovesJournal one L.meaning F.Store keeper.conn moved.conn) }
    ensures failed { IfErr result IsStoreFailure }
{
    match jc_schema_one::migrate::<F, L>(keeper) {
        Ok(keeper) => Ok(keeper),
        Err(MigrateStop { code, keeper }) => Err(stayed(code, keeper)),
    }
}

/// Why a journal stays where it is. Its database is closed.
fn stayed<'a, F: StoreInFiles, L: Layout>(code: Code, keeper: TableKeeper<F, L>) -> Failure<'a>
    ensures { IsStoreFailure result }
{
    let _ = close_keeper(keeper);
    why_stayed(code)
}

/// Why a journal stays in the tables of the older version.
fn why_stayed<'a>(code: Code) -> Failure<'a>
    ensures { IsStoreFailure result }
{
    match code {
        Code::OutOfMemory => Failure::OutOfMemory,
        _ => Failure::StoreFailed,
    }
}
