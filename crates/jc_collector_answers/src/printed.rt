//! The lines of answers that were given together.

ghost use Rattle.std.specs.Prelude.{◌≡◌, ◌≤◌, IfErr, length};
ghost use Rattle.jc_collector_answers.specs.Grouped.{these};
ghost use Rattle.jc_collector_answers.specs.Kept.{HoldsPrinted};
ghost use Rattle.jc_collector_answers.specs.Tied.{IsAlone, PrintsWith, most_together};

use crate::judged::status_with;
use crate::named::worse;
use jc_command_shared::{Failure, Output, Status, write_front};
use jc_upload::Answer;

/// Prints the lines of answers, flushes them together, and answers their status.
pub(crate) fn print_answers<'a, O: Output>(
    answers: &[Answer],
    output: &mut O,
) -> Result<Status, Failure<'a>>
    requires few { length answers.now ≤ most_together }
    ensures printed { HoldsPrinted (λ Holds. PrintsWith Holds (length answers.now)) (these answers.now) result
        (O.contents output.old) (O.contents output.new) }
    ensures failed { IfErr result (λ failure. failure ≡ Failure.WriteFailed) }
{
    let mut status = Status::Success;
    for answer in answers {
        let printed = print_line(answer, output)?;
        status = worse(status, printed);
    }
    if output.flush().is_err() {
        return Err(Failure::WriteFailed);
    }
    Ok(status)
}

/// Prints the line of an answer, and answers its status. It isn't flushed yet.
fn print_line<'a, O: Output>(answer: &Answer, output: &mut O) -> Result<Status, Failure<'a>>
    ensures printed { HoldsPrinted (λ Holds. PrintsWith Holds 1) (IsAlone answer.now) result (O.contents output.old) (O.contents output.new) }
    ensures failed { IfErr result (λ failure. failure ≡ Failure.WriteFailed) }
{
    let line = answer.line();
    let count = write_front(output, line.bytes());
    if count < line.bytes().len() {
        return Err(Failure::WriteFailed);
    }
    output.answered(answer);
    Ok(status_with(Status::Success, answer))
}
