//! A database that has an entry.

ghost use Rattle.std.specs.Prelude.{IfSome};
ghost use Rattle.std.specs.FinMap.{empty, insert};
ghost use Rattle.jc_database.specs.Files.{BeginsWith, HoldsJournal};
ghost use Rattle.jc_collector.specs.Earlier.{meaning_before, oldest};
ghost use Rattle.jc_collector.specs.Kinds.{BeginsIn};
ghost use Rattle.jc_command_args.specs.declared.request.Tables.{Tables};
ghost use Rattle.jc_command_args.specs.declared.request.Tables.TheVariants.{ByKey};

use jc_base::{Ending, Entry, ListSource};
use jc_database::{Databases, OpenFromFiles, close_keeper};
use jc_keeper::{Absorbed, Keeper};
use jc_schema_one::SchemaOne;
use jc_schema_two::SchemaTwo;
use jc_store::{Layout, TableKeeper};
use std::collections::VecDeque;

/// Makes a database at `path` with this entry alone. If the disks returned what was written, a run begins with its files,
/// closed, and with the journal that has the entry.
pub fn with_entry<Y: Databases, F: OpenFromFiles>(
    system: &mut Y,
    path: &str,
    start: F::Start,
    entry: Entry,
) -> Option<F::Files>
    ensures { IfSome result (λ files. F.in_files.clean files → (made : Tables)
        → BeginsIn made ByKey (F.in_files.image files) (insert empty entry.key entry.body)) }
{
    filled::<_, F, SchemaTwo>(system, path, start, entry)
}

/// Makes such a database in tables of schema 1. A run of `migrate` begins with its files.
pub fn with_old_entry<Y: Databases, F: OpenFromFiles>(
    system: &mut Y,
    path: &str,
    start: F::Start,
    entry: Entry,
) -> Option<F::Files>
    ensures { IfSome result (λ files. F.in_files.clean files
        → BeginsWith (meaning_before oldest) (F.in_files.image files) (insert empty entry.key entry.body)) }
{
    filled::<_, F, SchemaOne>(system, path, start, entry)
}

/// Makes such a database in tables of a layout.
fn filled<Y: Databases, F: OpenFromFiles, L: Layout>(
    system: &mut Y,
    path: &str,
    start: F::Start,
    entry: Entry,
) -> Option<F::Files>
    ensures { IfSome result (λ files. F.in_files.clean files
        → HoldsJournal L.meaning (F.in_files.image files) (insert empty entry.key entry.body)) }
{
    let alloc = system.alloc();
    let mut entries = VecDeque::new(alloc);
    entries.push_back(entry).ok()?;
    let conn = system.open_database::<F>(path, start).ok()?;
    let mut keeper = TableKeeper::<F, L>::create(alloc, conn).ok()?;
    let mut source = ListSource::new(entries, Ending::End { left: 0 });
    match keeper.absorb(&mut source) {
        Ok(Absorbed::Taken { .. }) => close_keeper(keeper).ok(),
        _ => None,
    }
}
