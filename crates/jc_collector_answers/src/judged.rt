//! The status of a run, by the answers that it printed.

ghost use Rattle.std.specs.Prelude.{◌≡◌, List};
ghost use Rattle.jc_collector_answers.specs.Answered.{judged, status_with};
ghost use Rattle.jc_command_shared.specs.Lines.{AreAnswers};
ghost use Rattle.jc_collect.specs.Answer.{is_failure_code};
ghost use Rattle.jc_upload.specs.Answer.{IsAnswer, answer_text};
ghost use Rattle.jc_upload.specs.declared.answer.Answer.{Answer as AnswerValue};

use jc_base::Code;
use jc_command_shared::{Status, line_length};
use jc_upload::Answer;

/// The status of a run that printed these lines.
pub(crate) fn status_of_lines(lines: &[u8]) -> Status
    ensures { (answers : List AnswerValue) → AreAnswers answers lines.now → result ≡ judged answers }
{
    let mut status = Status::Success;
    let mut rest = lines;
    while !rest.is_empty() {
        let (line, behind) = rest.split_at(line_length(rest));
        status = status_behind(status, line);
        rest = behind;
    }
    status
}

/// The status of a run that printed a line after others, which gave the status `before`.
fn status_behind(before: Status, line: &[u8]) -> Status
    ensures { (answer : AnswerValue) → IsAnswer answer → line.now ≡ answer_text answer → result ≡ status_with before answer }
{
    match Answer::read(line) {
        Some(answer) => status_with(before, &answer),
        None => before,
    }
}

/// The status of a run that printed an answer after others, which gave the status `before`.
pub(crate) fn status_with(before: Status, answer: &Answer) -> Status
    ensures { result ≡ status_with before answer.now }
{
    match answer {
        Answer::Ack { .. } => before,
        Answer::No { code, .. } => {
            if before == Status::Failed || is_failure(*code) {
                Status::Failed
            } else {
                Status::Refused
            }
        }
    }
}

/// Whether an answer's code says that reading, the store or memory failed.
fn is_failure(code: u16) -> bool
    ensures { result ≡ is_failure_code code }
{
    code == Code::ReadFailed.number()
        || code == Code::StoreFailed.number()
        || code == Code::OutOfMemory.number()
}
