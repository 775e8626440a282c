//! The databases that `migrate` takes over to tables of version 3, opened.

ghost use Rattle.std.specs.Prelude.{IfOk, IfErr, IfSome, IsSome};
ghost use Rattle.sqlite.specs.Recovery.{Image};
ghost use Rattle.jc_database.specs.Left.{IsFrom, LeavesAsBefore};
ghost use Rattle.jc_collector.specs.Database.{WhyNoJournal, WhyNoTables};
ghost use Rattle.jc_collector.specs.Earlier.{IsEarlierFound, IsTakenFrom};
ghost use Rattle.jc_command_shared.specs.Deeds.{OpensOnce};
ghost use Rattle.jc_collector.specs.Unopened.{HandsBack};

use crate::database::{adopt_tables, connect_there, has_fields, schema_of};
use crate::unopened::Unopened;
use jc_database::{Databases, OpenFromFiles, StoreInFiles};
use jc_schema_one::SqlKeeper1;
use jc_schema_two::SchemaTwo;
use jc_store::TableKeeper;
use sqlite::Connection;
use std::alloc::Global;

/// A keeper of a journal in tables of an earlier kind than those of version 3.
#[derive(Drop)]
pub(crate) enum Earlier<O: Drop, K: Drop> {
    Oldest(O),
    ByKey(K),
}

/// A keeper of the journal in a database's files, whose tables are of an earlier kind.
pub(crate) type EarlierFiles<F> = Earlier<SqlKeeper1<F>, TableKeeper<F, SchemaTwo>>;

/// The journal in tables of an earlier kind in the database at `path`, which has to be there.
pub(crate) fn open_earlier<'a, Y: Databases, F: OpenFromFiles>(
    rt: &mut Y,
    path: &'a str,
    start: F::Start,
) -> Result<EarlierFiles<F>, Unopened<'a, F::Left>>
    ensures found { IfOk result (IsEarlierFound F.Store F.first) }
    ensures failed { IfErr result (λ unopened. WhyNoJournal path.now unopened.failure) }
    ensures handed { IfErr result (λ unopened. HandsBack path.now unopened.left unopened.failure (Y.deeds rt.old) (Y.deeds rt.new)) }
    ensures crash { IfErr result (λ unopened. IfSome unopened.left (LeavesAsBefore F.in_files F.first)) }
    ensures touched { OpensOnce path.now (Y.deeds rt.old) (Y.deeds rt.new) }
{
    let conn = connect_there(rt, path, start)?;
    adopt_earlier(rt.alloc(), conn)
}

/// Takes the journal that stands in the tables of a database.
fn adopt_earlier<'a, F: StoreInFiles>(
    alloc: Global,
    conn: Connection<F>,
) -> Result<EarlierFiles<F>, Unopened<'a, F::Left>>
    ensures adopted { IfOk result (IsTakenFrom F.Store conn) }
    ensures failed { IfErr result (λ unopened. WhyNoTables unopened.failure) }
    ensures kept { IfErr result (λ unopened. IsSome unopened.left) }
    ensures crash { IfErr result (λ unopened. IfSome unopened.left (λ left. (before : Image) → IsFrom F.Store before conn → LeavesAsBefore F.in_files before left)) }
{
    if !has_fields(schema_of(&conn)) {
        return match adopt_tables(alloc, conn) {
            Ok(keeper) => Ok(Earlier::Oldest(keeper)),
            Err(unopened) => Err(unopened),
        };
    }
    match adopt_tables(alloc, conn) {
        Ok(keeper) => Ok(Earlier::ByKey(keeper)),
        Err(unopened) => Err(unopened),
    }
}
