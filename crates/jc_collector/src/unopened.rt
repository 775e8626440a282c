//! Databases that weren't opened, and what is left of their files.

ghost use Rattle.std.specs.Prelude.{◌≡◌, None};

use jc_command_shared::Failure;

/// Why there is no journal in a database, and what is left of its files, if they were opened.
#[derive(Drop)]
pub struct Unopened<'a, L: Drop> {
    pub failure: Failure<'a>,
    pub left: Option<L>,
}

impl<'a, L: Drop> Unopened<'a, L> {
    /// One of which no file was opened.
    pub(crate) fn early(failure: Failure<'a>) -> Unopened<'a, L>
        ensures failure { result.failure ≡ failure.entry }
        ensures left { result.left ≡ None }
    {
        Unopened {
            failure,
            left: None,
        }
    }
}

impl<'a, L: Drop> From<Unopened<'a, L>> for Failure<'a> {
    ghost from_gives = { λ unopened failure. failure ≡ unopened.failure };

    fn from(unopened: Unopened<'a, L>) -> Self {
        let Unopened { failure, left: _ } = unopened;
        failure
    }
}
