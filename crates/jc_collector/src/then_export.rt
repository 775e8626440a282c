//! `--then-export`: a journal goes to a file once the uploads are answered.

ghost use Rattle.std.specs.Prelude.{◌≡◌, ◌⊎◌, ◌≤◌, Ok, Err, IfOk, IfErr, IsSome, OnErr, OnOk, option_map};
ghost use Rattle.sqlite.specs.Held.{state};
ghost use Rattle.sqlite.specs.View.{doubt};
ghost use Rattle.jc_command_shared.specs.Deeds.{LeavesOld, Replaces};
ghost use Rattle.jc_keeper.specs.Listing.{export_text};
ghost use Rattle.jc_store.specs.Crash.{LeavesNoMore};
ghost use Rattle.jc_store.specs.Meaning.{IsSound, KeepsJournal};
ghost use Rattle.jc_collector.specs.Database.{IsBadName, IsOutFailure};
ghost use Rattle.jc_collector.specs.Exported.{LeavesOldIf, MayReplace, MayReplaceIf, ReplacesIf};

use crate::database::check_name;
use crate::listing::export_journal;
use jc_command_shared::{
    Failure, Status, System, UNFINISHED, create_file, folder_and_name, name_beside, put_in_place,
};
use jc_keeper::Keeper;
use jc_store::{Listed, TableKeeper};
use sqlite::Alter;
use std::io::ErrorKind;
use std::os::unix::fs::MetadataExt;

/// The endings of the names of files that a database has beside its own.
const BESIDE: [&str; 3] = ["-wal", "-shm", "-journal"];

/// Refuses a database's name that SQLite takes for something else than a path, and a path for an export whose file would
/// take the place of the database or of a file beside it.
pub(crate) fn check_names<'a, Y: System>(
    rt: &Y,
    database: &str,
    then_export: Option<&str>,
) -> Result<(), Failure<'a>>
    ensures { IfErr result (λ failure. ((failure ≡ Failure.BadDatabaseName) × IsBadName database.now)
        ⊎ ((failure ≡ Failure.BadExportName) × IsSome (option_map (λ name. name.now) then_export.entry))
        ⊎ (failure ≡ Failure.OutOfMemory)) }
{
    check_name(database)?;
    check_export(rt, database, then_export)
}

/// Refuses such a path for an export. A database that is a link has those files beside the one that it leads to.
fn check_export<'a, Y: System>(
    rt: &Y,
    database: &str,
    path: Option<&str>,
) -> Result<(), Failure<'a>>
    ensures { IfErr result (λ failure. ((failure ≡ Failure.BadExportName) × IsSome (option_map (λ name. name.now) path.entry))
        ⊎ (failure ≡ Failure.OutOfMemory)) }
{
    let Some(path) = path else {
        return Ok(());
    };
    let takes_place = match rt.canonicalize(database) {
        Ok(resolved) => takes_place(rt, resolved.into_string().as_str(), path),
        Err(error) if error.kind() == ErrorKind::OutOfMemory => return Err(Failure::OutOfMemory),
        // It isn't there yet.
        Err(_) => takes_place(rt, database, path),
    };
    if takes_place {
        return Err(Failure::BadExportName);
    }
    Ok(())
}

/// Whether a file at `path`, or one that is written beside it first, is the database's own, by whatever names.
fn takes_place<Y: System>(rt: &Y, database: &str, path: &str) -> bool {
    let (folder, name) = folder_and_name(path);
    let (home, own) = folder_and_name(database);
    is_same_file(rt, path, database) || is_of_database(name, own) && is_same_file(rt, folder, home)
}

/// Whether a file of this name, or that which becomes it, is that of the database with the name `own` in the same folder.
fn is_of_database(name: &str, own: &str) -> bool {
    match name.strip_prefix(own) {
        Some("") => true,
        Some(ending) => BESIDE.contains(&ending),
        None => own.strip_prefix(name) == Some(UNFINISHED),
    }
}

/// Whether two paths lead to one file, or to one folder, that is there.
fn is_same_file<Y: System>(rt: &Y, first: &str, second: &str) -> bool {
    match (rt.metadata(first), rt.metadata(second)) {
        (Ok(first), Ok(second)) => first.dev() == second.dev() && first.ino() == second.ino(),
        _ => false,
    }
}

/// Puts a keeper's journal into the file at a path, if one is given and all uploads were answered. The status stays that of
/// the answers.
#[tactic(auto, using(crate::specs::ExportedLaws::may_stay))]
pub(crate) fn export_after<'a, Y: System, S: Alter, L: Listed>(
    rt: &mut Y,
    keeper: &mut TableKeeper<S, L>,
    answered: Result<Status, Failure<'a>>,
    path: Option<&'a str>,
) -> Result<Status, Failure<'a>>
    ensures answered { IfOk result (λ status. answered.entry ≡ Ok status) }
    ensures passed_on { IfErr answered.entry (λ failure. result ≡ Err failure) }
    ensures before { IsSound S.Store keeper.new.conn → IsSound S.Store keeper.old.conn }
    ensures keeps { KeepsJournal L.meaning S.Store keeper.old.conn keeper.new.conn }
    ensures clean { doubt (state S.Store keeper.old.conn).is_clean ≤ doubt (state S.Store keeper.new.conn).is_clean }
    ensures crash { LeavesNoMore (state S.Store keeper.old.conn) (state S.Store keeper.new.conn) }
    ensures failed { IfErr result (λ failure. (answered.entry ≡ Err failure) ⊎ IsOutFailure failure) }
    // The file has the export of this journal, and no more. If it fails, what was there stays.
    ensures exported { ⟦<TableKeeper<S, L> as Keeper>⟧.sound keeper.new → ⟦<TableKeeper<S, L> as Keeper>⟧.made keeper.old
        → OnOk result (ReplacesIf (option_map (λ name. name.now) path.entry)
        (export_text (⟦<TableKeeper<S, L> as Keeper>⟧.journal keeper.old)) (Y.deeds rt.old) (Y.deeds rt.new)) }
    ensures stays { OnErr result (LeavesOldIf (option_map (λ name. name.now) path.entry) (Y.deeds rt.old) (Y.deeds rt.new)) }
    ensures touched { MayReplaceIf (option_map (λ name. name.now) path.entry) (Y.deeds rt.old) (Y.deeds rt.new) }
{
    let status = answered?;
    let Some(path) = path else {
        return Ok(status);
    };
    export_file(rt, keeper, path)?;
    Ok(status)
}

/// Puts what `export` prints of a keeper's journal into the file at a path, which stays as it was if that fails.
#[tactic(auto, using(jc_command_shared::specs::DeedLaws::nothing_changes, jc_command_shared::specs::DeedLaws::may_change_one))]
fn export_file<'a, Y: System, S: Alter, L: Listed>(
    rt: &mut Y,
    keeper: &mut TableKeeper<S, L>,
    path: &str,
) -> Result<(), Failure<'a>>
    ensures before { IsSound S.Store keeper.new.conn → IsSound S.Store keeper.old.conn }
    ensures keeps { KeepsJournal L.meaning S.Store keeper.old.conn keeper.new.conn }
    ensures clean { doubt (state S.Store keeper.old.conn).is_clean ≤ doubt (state S.Store keeper.new.conn).is_clean }
    ensures crash { LeavesNoMore (state S.Store keeper.old.conn) (state S.Store keeper.new.conn) }
    ensures failed { IfErr result IsOutFailure }
    ensures exported { ⟦<TableKeeper<S, L> as Keeper>⟧.sound keeper.new → ⟦<TableKeeper<S, L> as Keeper>⟧.made keeper.old
        → OnOk result (Replaces path.now (export_text (⟦<TableKeeper<S, L> as Keeper>⟧.journal keeper.old))
        (Y.deeds rt.old) (Y.deeds rt.new)) }
    ensures stays { OnErr result (LeavesOld path.now (Y.deeds rt.old) (Y.deeds rt.new)) }
    ensures touched { MayReplace path.now (Y.deeds rt.old) (Y.deeds rt.new) }
{
    let beside = name_beside(rt.alloc(), path)?;
    let mut file = create_file(rt, beside.as_str())?;
    let listed = export_journal(rt.alloc(), keeper, &mut file);
    put_in_place(rt, &file, beside.as_str(), path, listed)
}
