//! What a run has when what was asked for is done.

ghost use Rattle.std.specs.Prelude.{◌≡◌, None, Some, Err, IfOk, IfErr, IsErrAnd, IsOkAnd};

use jc_collector::{Closed, Examined, FailedCommand, FailedRun, NotedRun};
use jc_command_shared::{Failure, Status};
use jc_ledger::Ledger;

/// What was asked for is done.
#[derive(Drop)]
pub(crate) struct Done<C: Drop, L: Ledger + Drop> {
    pub(crate) status: Status,
    pub(crate) files: Option<C>,
    pub(crate) ledger: Option<L>,
}

impl<C: Drop, L: Ledger + Drop> Done<C, L> {
    /// By a command that works on no database.
    pub(crate) fn without<'w, R: Drop>(
        status: Result<Status, Failure<'w>>,
    ) -> Result<Done<C, L>, FailedRun<'w, R, L>>
        ensures done { IfOk result (λ done. IsOkAnd status.entry (λ status.
            (done.status ≡ status) × (done.files ≡ None))) }
        ensures failed { IfErr result (λ run. status.entry ≡ Err run.failure) }
        ensures left { IfErr result (λ run. run.left ≡ None) }
    {
        match status {
            Ok(status) => Ok(Done {
                status,
                files: None,
                ledger: None,
            }),
            Err(failure) => Err(FailedRun::from(failure)),
        }
    }

    /// By a command that works on no database, and answers nothing.
    pub(crate) fn succeeded<'w, R: Drop>(
        worked: Result<(), Failure<'w>>,
    ) -> Result<Done<C, L>, FailedRun<'w, R, L>>
        ensures done { IfOk result (λ done. IsOkAnd worked.entry (λ it.
            (done.status ≡ Status.Success) × (done.files ≡ None))) }
        ensures failed { IfErr result (λ run. worked.entry ≡ Err run.failure) }
        ensures left { IfErr result (λ run. run.left ≡ None) }
    {
        match worked {
            Ok(()) => Ok(Done {
                status: Status::Success,
                files: None,
                ledger: None,
            }),
            Err(failure) => Err(FailedRun::from(failure)),
        }
    }

    /// By a command that answers a status, and has closed its database.
    pub(crate) fn closed<'w, R: Drop>(
        closed: Result<Closed<Status, C>, FailedCommand<'w, R>>,
    ) -> Result<Done<C, L>, FailedRun<'w, R, L>>
        ensures done { IfOk result (λ done. IsOkAnd closed.entry (λ closed.
            (done.status ≡ closed.value) × (done.files ≡ Some closed.files))) }
        ensures failed { IfErr result (λ run. IsErrAnd closed.entry (λ failed. failed.failure ≡ run.failure)) }
        ensures left { IfErr result (λ run. run.left ≡ None) }
    {
        match closed {
            Ok(closed) => Ok(Done {
                status: closed.value,
                files: Some(closed.files),
                ledger: None,
            }),
            Err(failed) => Err(FailedRun::from(failed.failure)),
        }
    }

    /// By a command over the union of databases, which has closed the present one.
    pub(crate) fn noted(run: NotedRun<C, L>) -> Done<C, L>
        ensures status { result.status ≡ run.status }
        ensures files { result.files ≡ Some run.files }
        ensures ledger { result.ledger ≡ Some run.ledger }
    {
        Done {
            status: run.status,
            files: Some(run.files),
            ledger: Some(run.ledger),
        }
    }

    /// By a command that lists a journal, and has closed its database.
    pub(crate) fn listed<'w, R: Drop>(
        closed: Result<Closed<(), C>, FailedCommand<'w, R>>,
    ) -> Result<Done<C, L>, FailedRun<'w, R, L>>
        ensures done { IfOk result (λ done. IsOkAnd closed.entry (λ closed.
            (done.status ≡ Status.Success) × (done.files ≡ Some closed.files))) }
        ensures failed { IfErr result (λ run. IsErrAnd closed.entry (λ failed. failed.failure ≡ run.failure)) }
        ensures left { IfErr result (λ run. run.left ≡ None) }
    {
        match closed {
            Ok(closed) => Ok(Done {
                status: Status::Success,
                files: Some(closed.files),
                ledger: None,
            }),
            Err(failed) => Err(FailedRun::from(failed.failure)),
        }
    }

    /// By a command that says what there is of a journal. It has no notes.
    // They are handed in, since the checker has a fault here where no argument is an `Option`.
    pub(crate) fn examined<'w, R: Drop>(
        examined: Result<Examined<Status, C>, FailedCommand<'w, R>>,
        ledger: Option<L>,
    ) -> Result<Done<C, L>, FailedRun<'w, R, L>>
        ensures done { IfOk result (λ done. IsOkAnd examined.entry (λ examined.
            (done.status ≡ examined.value) × (done.files ≡ examined.files))) }
        ensures failed { IfErr result (λ run. IsErrAnd examined.entry (λ failed. failed.failure ≡ run.failure)) }
        ensures left { IfErr result (λ run. run.left ≡ None) }
    {
        match examined {
            Ok(examined) => Ok(Done {
                status: examined.value,
                files: examined.files,
                ledger,
            }),
            Err(failed) => Err(FailedRun::from(failed.failure)),
        }
    }
}
