//! The present database of a union, closed.

ghost use Rattle.std.specs.Prelude.{◌≡◌, ◌⊎◌, Ok, Err, IfOk, IfErr, IsSomeAnd};
ghost use Rattle.sqlite.specs.Recovery.{Image};
ghost use Rattle.jc_database.specs.Files.{KeepsAlways};
ghost use Rattle.jc_store.specs.Meaning.{AreMade, IsSound, journal_of};
ghost use Rattle.jc_collector.specs.Noted.{failure_of};
ghost use Rattle.jc_collector.specs.UnionLeft.{IsLeftAs, handed_back};

use super::opening::{OpenStop, TableUnion};
use crate::closing::{Closed, close_after};
use crate::failed::FailedCommand;
use crate::unopened::Unopened;
use jc_base::{Code, Fault};
use jc_command_shared::{Failure, Status};
use jc_database::StoreInFiles;
use jc_keeper::KeepStop;
use jc_ledger::{Ledger, Past, UnionKeeper};
use jc_store::Listed;

/// What a run over a union answered, the files of its present database, closed, and the ledger.
#[derive(Drop)]
pub struct NotedRun<C: Drop, L: Ledger + Drop> {
    pub status: Status,
    pub files: C,
    pub ledger: L,
}

/// What is left of a run over a union that failed: of its database's files, if that is handed back, and the ledger.
#[derive(Drop)]
pub struct NotedLeft<R: Drop, L: Ledger + Drop> {
    pub files: Option<R>,
    pub ledger: L,
}

/// Why a run over a union failed, and what is left of it, if it had a ledger.
#[derive(Drop)]
pub struct FailedRun<'a, R: Drop, L: Ledger + Drop> {
    pub failure: Failure<'a>,
    pub left: Option<NotedLeft<R, L>>,
}

impl<'a, R: Drop, L: Ledger + Drop> From<Failure<'a>> for FailedRun<'a, R, L> {
    ghost use Rattle.std.specs.Prelude.{◌≡◌, None};

    ghost from_gives = { λ failure run. (run.failure ≡ failure) × (run.left ≡ None) };

    fn from(failure: Failure<'a>) -> Self {
        FailedRun {
            failure,
            left: None,
        }
    }
}

impl<'a, R: Drop, L: Ledger + Drop> FailedRun<'a, R, L> {
    /// One whose present database wasn't opened: the ledger goes back as it is.
    pub(super) fn unopened(unopened: Unopened<'a, R>, ledger: L) -> FailedRun<'a, R, L>
        ensures failure { result.failure ≡ unopened.entry.failure }
        ensures left { IsSomeAnd result.left (λ it. (it.files ≡ unopened.entry.left) × (it.ledger ≡ ledger)) }
    {
        let Unopened {
            failure,
            left: files,
        } = unopened;
        FailedRun {
            failure,
            left: Some(NotedLeft { files, ledger }),
        }
    }
}

/// What a run over a union answered, and the union, whose present database is still open.
#[derive(Drop)]
pub struct AnsweredUnion<'a, U: Drop> {
    pub answered: Result<Status, Failure<'a>>,
    pub union: U,
}

/// Closes the present database of a union after something was done over it. If both fail, the first failure is reported.
pub(super) fn close_union<'a, F: StoreInFiles, T: Listed + Drop, L: Ledger + Drop, P: Past>(
    union: TableUnion<F, T, L, P>,
    answered: Result<Status, Failure<'a>>,
) -> Result<NotedRun<F::Files, L>, FailedRun<'a, F::Left, L>>
    ensures answered { IfOk result (λ run. answered.entry ≡ Ok run.status) }
    ensures ledger { IfOk result (λ run. run.ledger ≡ union.ledger) }
    ensures sound { IfOk result (λ run. F.in_files.clean run.files → IsSound F.Store union.present.conn) }
    ensures keeps { IfOk result (λ run. F.in_files.clean run.files → AreMade T.meaning F.Store union.present.conn
        → KeepsAlways T.meaning F.in_files run.files (journal_of T.meaning F.Store union.present.conn)) }
    ensures failed { IfErr result (λ run. (answered.entry ≡ Err run.failure) ⊎ (run.failure ≡ Failure.StoreFailed)) }
    ensures left { IfErr result (λ run. IsSomeAnd run.left (λ left. (left.ledger ≡ union.ledger)
        × IsSomeAnd left.files (λ files. (first : Image) → IsLeftAs T.meaning F.Store union.present.conn (handed_back F.in_files first files)))) }
{
    let UnionKeeper {
        present,
        ledger,
        pending: _,
        waiting: _,
        refusals: _,
        shelf: _,
        machine: _,
        alloc: _,
    } = union;
    match close_after(present, answered) {
        Ok(Closed { value, files }) => Ok(NotedRun {
            status: value,
            files,
            ledger,
        }),
        Err(FailedCommand { failure, left }) => {
            let left = NotedLeft {
                files: left,
                ledger,
            };
            Err(FailedRun {
                failure,
                left: Some(left),
            })
        }
    }
}

/// Why a union isn't opened, as a command says it.
pub(super) fn why_no_union<'a>(stop: OpenStop) -> Failure<'a>
    ensures { result ≡ failure_of stop }
{
    match stop {
        OpenStop::Stopped(KeepStop::OutOfMemory) => Failure::OutOfMemory,
        OpenStop::Stopped(KeepStop::StoreFailed | KeepStop::ReadFailed) => Failure::StoreFailed,
        OpenStop::Differs { index } => Failure::Bad(Fault {
            code: Code::Conflict,
            place: index,
        }),
        OpenStop::Faulty(fault) => Failure::Bad(fault),
    }
}
