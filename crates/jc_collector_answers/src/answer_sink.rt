//! The sink that answers are printed through.

ghost use Rattle.std.specs.Prelude.{◌≡◌, [], ◌∷◌, List, ℕ, Option, Some, IfSome, IsTrue, false};
ghost use Rattle.std.specs.Io.KnownBytes.{Appends, Keeps};
ghost use Rattle.std.specs.List.{All};
ghost use Rattle.jc_collector_answers.specs.Answered.{Appends-prop, begun, judged};
ghost use Rattle.jc_collect.specs.Run.{lines_of_answers};
ghost use Rattle.jc_upload.specs.Answer.{IsAnswer};
ghost use Rattle.jc_upload.specs.declared.answer.Answer.{Answer as Told};

use crate::judged::status_of_lines;
use jc_base::{ByteSink, WriteFailed, count_failure};
use jc_command_shared::{Output, Status, write_front};
use jc_upload::Answer;
use std::io::Write;
use std::snapshot::Snapshot;

/// Passes answer lines on to a writer, each of them as one piece, flushes it after each, and keeps what was printed.
/// Once it has failed it takes no more. What went out of a line before that is kept, too.
#[derive(Drop)]
pub(crate) struct AnswerSink<'a, O: Write> {
    output: &'a mut O,
    /// The writer as it was before the first line.
    before: Snapshot<O>,
    /// What was printed.
    lines: &'a mut Vec<u8>,
    failed: bool,
    failures: u64,
    ghost printed: { Appends (O.contents before.value) (O.contents output.now) lines.now.items } by { Prim.hlevel (Appends-prop) },
}

impl<'a, O: Output> AnswerSink<'a, O> {
    /// A sink that keeps in `lines` what it prints.
    pub(crate) fn new(output: &'a mut O, lines: &'a mut Vec<u8>) -> AnswerSink<'a, O>
        requires { lines.old.items ≡ [] }
        ensures written { ⟦<AnswerSink<'a, O> as ByteSink>⟧.written result ≡ Some (begun (O.contents output.old) []) }
        ensures borrowed_device { ⟦<AnswerSink<'a, O> as ByteSink>⟧.borrowed_device result ≡ output.entry.ghost_name ∷ [] }
    {
        AnswerSink {
            before: Snapshot::of(output),
            output,
            lines,
            failed: false,
            failures: 0,
        }
    }

    /// The writer, and the status by the answers that were printed; `None` if the sink has failed.
    #[tactic(auto, using(crate::proofs::Printing::went_out))]
    pub(crate) fn end(self) -> (&'a mut O, Option<Status>)
        ensures borrowed_device { result.0.ghost_name ∷ [] ≡ ⟦<AnswerSink<'a, O> as ByteSink>⟧.borrowed_device self.entry }
        ensures printed { IfSome result.1 (λ status. (before : Option (List ℕ)) (answers : List Told) → All IsAnswer answers
            → ⟦<AnswerSink<'a, O> as ByteSink>⟧.written self.entry ≡ Some (begun before (lines_of_answers answers))
            → (status ≡ judged answers) × Appends before (O.contents result.0.now) (lines_of_answers answers)) }
        // Whether it has failed or not, what it has written went out, and nothing else.
        ensures front { (before : Option (List ℕ)) (text : List ℕ)
            → ⟦<AnswerSink<'a, O> as ByteSink>⟧.written self.entry ≡ Some (begun before text)
            → Appends before (O.contents result.0.now) text }
    {
        let AnswerSink {
            output,
            before,
            lines,
            failed,
            failures: _,
        } = self;
        drop(before);
        if failed {
            return (output, None);
        }
        (output, Some(status_of_lines(lines)))
    }
}

impl<O: Output> ByteSink for AnswerSink<'_, O> {
    // What the writer had comes with the lines, so that a proof over any sink keeps it.
    ghost written = { λ s. Some (begun (O.contents s.before.value) s.lines.now.items) };

    ghost failures = { λ s. s.failures };

    ghost borrowed_device = { λ s. s.output.ghost_name ∷ [] };

    #[tactic(auto, using(crate::proofs::Printing::goes_on))]
    fn write(&mut self, line: &[u8]) -> Result<usize, WriteFailed> {
        if self.failed || self.lines.reserve(line.len()).is_err() {
            self.failed = true;
            count_failure(&mut self.failures);
            return Err(WriteFailed);
        }
        if line.is_empty() {
            return Ok(0);
        }
        let count = write_front(self.output, line);
        self.lines.extend_from_slice(&line[..count]).unwrap();
        // If the line isn't printed whole, the next call fails. This one answers what went out of it.
        self.failed = !flushed(self.output, Answer::read(line), count == line.len());
        if count == 0 {
            count_failure(&mut self.failures);
            return Err(WriteFailed);
        }
        Ok(count)
    }
}

/// Tells the output of the answer that went out, and flushes it, if that was all of its line. False if it wasn't, or if
/// flushing failed.
pub(crate) fn flushed<O: Output>(output: &mut O, answer: Option<Answer>, all: bool) -> bool
    ensures keeps { Keeps (O.contents output.old) (O.contents output.new) }
    ensures all { IsTrue result → IsTrue all }
{
    if !all {
        return false;
    }
    if let Some(answer) = answer {
        output.answered(&answer);
    }
    output.flush().is_ok()
}
