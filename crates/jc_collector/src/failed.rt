//! Commands over a database that failed, and what is left of its files.

use crate::unopened::Unopened;
use jc_command_shared::Failure;

/// Why a command over a database failed, and what is left of its files, if they were opened.
#[derive(Drop)]
pub struct FailedCommand<'a, L: Drop> {
    pub failure: Failure<'a>,
    pub left: Option<L>,
}

impl<'a, L: Drop> From<Failure<'a>> for FailedCommand<'a, L> {
    ghost use Rattle.std.specs.Prelude.{◌≡◌, None};

    ghost from_gives = { λ failure failed. (failed.failure ≡ failure) × (failed.left ≡ None) };

    fn from(failure: Failure<'a>) -> Self {
        FailedCommand {
            failure,
            left: None,
        }
    }
}

impl<'a, L: Drop> From<Unopened<'a, L>> for FailedCommand<'a, L> {
    ghost use Rattle.std.specs.Prelude.{◌≡◌};

    ghost from_gives = { λ unopened failed. (failed.failure ≡ unopened.failure) × (failed.left ≡ unopened.left) };

    fn from(unopened: Unopened<'a, L>) -> Self {
        let Unopened { failure, left } = unopened;
        FailedCommand { failure, left }
    }
}

impl<'a, L: Drop> From<FailedCommand<'a, L>> for Failure<'a> {
    ghost use Rattle.std.specs.Prelude.{◌≡◌};

    ghost from_gives = { λ failed failure. failure ≡ failed.failure };

    fn from(failed: FailedCommand<'a, L>) -> Self {
        let FailedCommand { failure, left: _ } = failed;
        failure
    }
}
