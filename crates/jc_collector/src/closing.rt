//! The databases that commands worked on, closed.

ghost use Rattle.std.specs.Prelude.{◌≡◌, ◌⊎◌, Ok, Err, IfOk, IfErr, IsErrAnd, IsSomeAnd};
ghost use Rattle.sqlite.specs.Recovery.{Image};
ghost use Rattle.jc_store.specs.Meaning.{AreMade, IsSound, journal_of};
ghost use Rattle.jc_database.specs.Files.{KeepsAlways};
ghost use Rattle.jc_collector.specs.Kinds.{conn_of, journal_in, kind_of, meaning_of};
ghost use Rattle.jc_collector.specs.UnionLeft.{IsLeftAs, handed_back};

use crate::database::{Opened, OpenedFiles};
use crate::failed::FailedCommand;
use jc_command_shared::Failure;
use jc_database::{StoreInFiles, close_keeper};
use jc_store::{Layout, TableKeeper};

/// What a command answers, and the files of its database, closed.
#[derive(Drop)]
pub struct Closed<T: Drop, C: Drop> {
    pub value: T,
    pub files: C,
}

/// Closes a database after something was done over it. If both fail, the first failure is reported.
pub(crate) fn close_opened<'a, T: Drop, F: StoreInFiles>(
    opened: OpenedFiles<F>,
    done: Result<T, Failure<'a>>,
) -> Result<Closed<T, F::Files>, FailedCommand<'a, F::Left>>
    ensures done { IfOk result (λ closed. done.entry ≡ Ok closed.value) }
    ensures sound { IfOk result (λ closed. F.in_files.clean closed.files
        → IsSound F.Store (conn_of opened)) }
    ensures keeps { IfOk result (λ closed. F.in_files.clean closed.files
        → AreMade (meaning_of (kind_of opened)) F.Store (conn_of opened)
        → KeepsAlways (meaning_of (kind_of opened)) F.in_files closed.files (journal_in F.Store opened)) }
    ensures passed_on { IfErr done.entry (λ failure. IsErrAnd result (λ failed. failed.failure ≡ failure)) }
    ensures failed { IfErr result (λ failed. (done.entry ≡ Err failed.failure) ⊎ (failed.failure ≡ Failure.StoreFailed)) }
    ensures left { IfErr result (λ failed. IsSomeAnd failed.left (λ files. (first : Image)
        → IsLeftAs (meaning_of (kind_of opened)) F.Store (conn_of opened) (handed_back F.in_files first files))) }
{
    match opened {
        Opened::ByKey(keeper) => close_after(keeper, done),
        Opened::ByNumber(keeper) => close_after(keeper, done),
    }
}

/// The same of a keeper over tables of one kind.
pub(crate) fn close_after<'a, T: Drop, F: StoreInFiles, L: Layout>(
    keeper: TableKeeper<F, L>,
    done: Result<T, Failure<'a>>,
) -> Result<Closed<T, F::Files>, FailedCommand<'a, F::Left>>
    ensures done { IfOk result (λ closed. done.entry ≡ Ok closed.value) }
    ensures sound { IfOk result (λ closed. F.in_files.clean closed.files
        → IsSound F.Store keeper.conn) }
    ensures keeps { IfOk result (λ closed. F.in_files.clean closed.files
        → AreMade L.meaning F.Store keeper.conn
        → KeepsAlways L.meaning F.in_files closed.files (journal_of L.meaning F.Store keeper.conn)) }
    ensures passed_on { IfErr done.entry (λ failure. IsErrAnd result (λ failed. failed.failure ≡ failure)) }
    ensures failed { IfErr result (λ failed. (done.entry ≡ Err failed.failure) ⊎ (failed.failure ≡ Failure.StoreFailed)) }
    // A crash leaves of it what it might have left before.
    ensures left { IfErr result (λ failed. IsSomeAnd failed.left (λ files. (first : Image)
        → IsLeftAs L.meaning F.Store keeper.conn (handed_back F.in_files first files))) }
{
    match close_keeper(keeper) {
        Ok(files) => match done {
            Ok(value) => Ok(Closed { value, files }),
            Err(failure) => {
                let left = Some(F::left_files(files));
                Err(FailedCommand { failure, left })
            }
        },
        Err(failed) => {
            let left = Some(failed.store.left_store());
            Err(FailedCommand {
                failure: first_failure(done),
                left,
            })
        }
    }
}

/// Why a command failed whose database couldn't be closed.
fn first_failure<'a, T: Drop>(done: Result<T, Failure<'a>>) -> Failure<'a>
    ensures first { IfErr done.entry (λ failure. result ≡ failure) }
    ensures why { (done.entry ≡ Err result) ⊎ (result ≡ Failure.StoreFailed) }
{
    match done {
        Ok(_) => Failure::StoreFailed,
        Err(failure) => failure,
    }
}
