//! How a run ends, as the shell sees it.

ghost use Rattle.std.specs.Prelude.{◌≡◌};
ghost use Rattle.jc_command_shared.specs.Status.{number_of};

/// How a run ends. (own)
#[derive(Clone, Copy, Debug, PartialEq, Eq)]
pub enum Status {
    /// All went well.
    Success = 0,
    /// What was read or asked for is refused.
    Refused = 1,
    /// The command line is wrong.
    Misused = 2,
    /// A device, the store or memory failed.
    Failed = 3,
    /// Nothing that was read is about what was asked for.
    Unanswered = 4,
}

impl Status {
    /// The number that the process ends with.
    pub fn number(self) -> u8
        ensures { result ≡ number_of self }
    {
        self as u8
    }
}
