//! The failures that a store's own ones become.

ghost use Rattle.std.specs.Prelude.{◌≡◌};
ghost use Rattle.jc_collector.specs.Failures.{adopt_failure, keep_failure, out_failure};

use jc_base::{Code, Fault};
use jc_command_shared::Failure;
use jc_keeper::{KeepStop, OutStop};
use jc_store::AdoptFault;

/// Why a database wasn't taken as a keeper's.
pub(crate) fn why_refused<'a>(fault: AdoptFault) -> Failure<'a>
    ensures { result ≡ adopt_failure fault.code fault.row }
{
    match fault.code {
        Code::StoreFailed => Failure::StoreFailed,
        Code::OutOfMemory => Failure::OutOfMemory,
        code => Failure::Bad(Fault {
            code,
            place: fault.row,
        }),
    }
}

/// Why a keeper gave no answer.
pub(crate) fn why_unanswered<'a>(stop: KeepStop) -> Failure<'a>
    ensures { result ≡ keep_failure stop }
{
    match stop {
        KeepStop::ReadFailed => Failure::ReadFailed,
        KeepStop::StoreFailed => Failure::StoreFailed,
        KeepStop::OutOfMemory => Failure::OutOfMemory,
    }
}

/// Why a listing stopped.
pub(crate) fn why_stopped<'a>(stop: OutStop) -> Failure<'a>
    ensures { result ≡ out_failure stop.code }
{
    match stop.code {
        Code::StoreFailed => Failure::StoreFailed,
        Code::OutOfMemory => Failure::OutOfMemory,
        _ => Failure::WriteFailed,
    }
}
