//! Ids, as a command line has them.

ghost use Rattle.std.specs.Prelude.{◌≡◌, IfOk, IfErr};
ghost use Rattle.jc_command_shared.specs.Ids.{IsIdOf, IsIdText};

use crate::Failure;
use jc_base::Id128;

/// The id that 32 hexadecimal digits spell.
pub fn source_id<'a>(digits: &str) -> Result<Id128, Failure<'a>>
    ensures id { IfOk result (IsIdOf digits.now) }
    ensures bad { IfErr result (λ failure. (failure ≡ Failure.BadId) × (¬ IsIdText digits.now)) }
{
    Id128::from_hex(digits.as_bytes()).ok_or(Failure::BadId)
}
