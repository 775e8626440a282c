//! Lines of answers.

ghost use Rattle.std.specs.Prelude.{◌≡◌, ℕ, List, IfOk, IfErr, IfSome};
ghost use Rattle.jc_upload.specs.Upload.{TakesAnswer, TakesAnswers};
ghost use Rattle.jc_command_shared.specs.Lines.{AreAnswers};
ghost use Rattle.jc_sender.specs.Taken.{WhyNoAnswers, WhyNoneCame};

use jc_base::Entry;
use jc_command_shared::{Failure, line_length, read_whole};
use jc_upload::{Answer, Uploader};
use std::alloc::Global;
use std::io::Read;

/// The answers whose lines a reader gives.
pub(crate) fn answers_on<'a, I: Read>(
    alloc: Global,
    input: &mut I,
) -> Result<Vec<Answer>, Failure<'a>>
    ensures all { IfOk result (λ answers. (text : List ℕ) × IfSome (I.remaining input.old) (λ held. text ≡ held)
        × AreAnswers answers.items text) }
    ensures failed { IfErr result (WhyNoneCame (I.remaining input.old)) }
{
    let text = read_whole(alloc, input)?;
    read_answers(alloc, &text)
}

/// The answers whose lines the text is. If a line isn't an answer's, the failure has the number of the first such line,
/// from 1.
fn read_answers<'a>(alloc: Global, text: &[u8]) -> Result<Vec<Answer>, Failure<'a>>
    ensures all { IfOk result (λ answers. AreAnswers answers.items text.now) }
    ensures failed { IfErr result (WhyNoAnswers text.now) }
{
    let mut answers = Vec::new(alloc);
    let mut rest = text;
    while !rest.is_empty() {
        let (line, behind) = rest.split_at(line_length(rest));
        match Answer::read(line) {
            Some(answer) => answers.push(answer)?,
            None => return Err(Failure::BadAnswer(answers.len() as u64 + 1)),
        }
        rest = behind;
    }
    Ok(answers)
}

/// Takes answers in their order.
pub(crate) fn take_answers(uploader: &mut Uploader, entries: &[Entry], answers: &[Answer])
    ensures { TakesAnswers entries.now answers.now uploader.old uploader.new }
{
    for answer in answers {
        take_answer(uploader, entries, answer);
    }
}

fn take_answer(uploader: &mut Uploader, entries: &[Entry], answer: &Answer)
    ensures { TakesAnswer entries.now answer.now uploader.old uploader.new }
{
    uploader.on_answer(entries, answer);
}
