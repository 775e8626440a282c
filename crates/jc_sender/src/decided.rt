//! `acknowledged`: whether answers acknowledge all of an upload.

ghost use Rattle.std.specs.Prelude.{◌≡◌, ◌≢◌, ◌⊎◌, ◌∷◌, [], ℕ, List, Some, IfOk, IfErr, MatchOption};
ghost use Rattle.std.specs.Io.KnownBytes.{Keeps};
ghost use Rattle.jc_command_shared.specs.Lines.{lines_of};
ghost use Rattle.jc_sender.specs.declared.decided.Sent.{Sent as SentValue};
ghost use Rattle.jc_sender.specs.Acknowledged.{BringsAll, IsBy, IsHeadOf, Says, Tells, TellsOfSome, TellsOfUpload, after, whole_head};

use jc_base::Id128;
use jc_command_shared::{
    Failure, Output, Status, System, line_length, open_file, printed, read_front, read_whole,
};
use jc_upload::{Answer, Kind, UploadHead};
use std::alloc::Global;
use std::io::Read;

/// The bytes of an upload's header.
const HEAD_LENGTH: u64 = 48;

/// All of an export stream, in one upload that is to be whole.
#[derive(Clone, Copy)]
pub(crate) struct Sent {
    source: Id128,
    /// How many entries the upload's header says that it has.
    count: u64,
}

/// What answers say of an upload.
#[derive(Clone, Copy)]
enum Outcome {
    /// All of it is stored.
    Acknowledged,
    /// It is refused, by this answer.
    Refused(Answer),
    /// None is about it.
    Unanswered,
}

/// Whether one of the answers on standard input acknowledges all of the upload in a file. If none does, and some refuse
/// it, the last of these lines is printed. A line that is no answer says nothing.
pub fn acknowledged<'a, R: System, I: Read, O: Output>(
    rt: &R,
    upload: &'a str,
    input: &mut I,
    output: &mut O,
) -> Result<Status, Failure<'a>>
    ensures told { IfOk result (λ status. TellsOfSome (I.remaining input.old) status (O.contents output.old) (O.contents output.new)) }
    // If it is told what the file has, it is told of these bytes.
    ensures bytes { (held : List ℕ) → R.told upload.now ≡ Some held
        → IfOk result (λ status. TellsOfUpload held (I.remaining input.old) status (O.contents output.old) (O.contents output.new)) }
    ensures failed { IfErr result (λ failure. (failure ≡ Failure.CannotOpen upload.entry) ⊎ (failure ≡ Failure.BadUpload)
        ⊎ (failure ≡ Failure.ReadFailed) ⊎ (failure ≡ Failure.WriteFailed) ⊎ (failure ≡ Failure.OutOfMemory)) }
    ensures untouched { IfErr result (λ failure. failure ≢ Failure.WriteFailed
        → Keeps (O.contents output.old) (O.contents output.new)) }
{
    let file = open_file(rt, upload)?;
    acknowledged_of(rt.alloc(), file, input, output)
}

/// The same of the upload that a reader gives.
fn acknowledged_of<'a, F: Read + Drop, I: Read, O: Output>(
    alloc: Global,
    file: F,
    input: &mut I,
    output: &mut O,
) -> Result<Status, Failure<'a>>
    ensures told { IfOk result (λ status. TellsOfSome (I.remaining input.old) status (O.contents output.old) (O.contents output.new)) }
    // If its bytes are known, it is told of these.
    ensures bytes { (upload : List ℕ) → F.remaining file ≡ Some upload
        → IfOk result (λ status. TellsOfUpload upload (I.remaining input.old) status (O.contents output.old) (O.contents output.new)) }
    ensures failed { IfErr result (λ failure. (failure ≡ Failure.BadUpload) ⊎ (failure ≡ Failure.ReadFailed)
        ⊎ (failure ≡ Failure.WriteFailed) ⊎ (failure ≡ Failure.OutOfMemory)) }
    // It is no such upload, if its bytes are known.
    ensures refused { (upload : List ℕ) (sent : SentValue) → F.remaining file ≡ Some upload → BringsAll upload sent
        → IfErr result (λ failure. failure ≢ Failure.BadUpload) }
    ensures untouched { IfErr result (λ failure. failure ≢ Failure.WriteFailed
        → Keeps (O.contents output.old) (O.contents output.new)) }
{
    let front = read_front(alloc, file, HEAD_LENGTH)?;
    let Some(sent) = sent_by(&front) else {
        return Err(Failure::BadUpload);
    };
    let text = read_whole(alloc, input)?;
    tell(outcome_in(sent, &text), output)
}

/// What an upload with these bytes for its header brings, if it is all of an export stream and is to be whole.
#[tactic(auto, using(crate::proofs::Acknowledging::head_long))]
fn sent_by(front: &[u8]) -> Option<Sent>
    ensures { MatchOption result ((sent : SentValue) → ¬ IsHeadOf front.now sent) (IsHeadOf front.now) }
{
    match <[u8; 48]>::try_from(front) {
        Ok(bytes) => sent_of(&bytes),
        Err(_) => None,
    }
}

fn sent_of(bytes: &[u8; 48]) -> Option<Sent>
    ensures { MatchOption result ((sent : SentValue) → ¬ IsHeadOf bytes.now sent) (IsHeadOf bytes.now) }
{
    match UploadHead::read(bytes) {
        Ok(head) => whole_source(head),
        Err(_) => None,
    }
}

/// The same by the header.
fn whole_source(head: UploadHead) -> Option<Sent>
    ensures { MatchOption result ((sent : SentValue) → head ≢ whole_head sent) (λ sent. head ≡ whole_head sent) }
{
    let UploadHead {
        version,
        kind,
        source,
        start,
    } = head;
    let count = version.whole_entries()?;
    (kind == Kind::Export && start == 0).then_some(Sent { source, count })
}

/// What the lines of a text say of an upload.
fn outcome_in(sent: Sent, text: &[u8]) -> Outcome
    ensures { Says sent (lines_of text.now) result }
{
    let mut outcome = Outcome::Unanswered;
    let mut rest = text;
    while !rest.is_empty() {
        let (line, behind) = rest.split_at(line_length(rest));
        outcome = after(outcome, outcome_of(sent, line));
        rest = behind;
    }
    outcome
}

/// What some lines say, and others behind them.
fn after(before: Outcome, behind: Outcome) -> Outcome
    ensures { result ≡ after before behind }
{
    match behind {
        Outcome::Unanswered => before,
        Outcome::Acknowledged => behind,
        Outcome::Refused(_) => match before {
            Outcome::Acknowledged => before,
            _ => behind,
        },
    }
}

/// What a line says of it.
fn outcome_of(sent: Sent, line: &[u8]) -> Outcome
    ensures { Says sent (line.now ∷ []) result }
{
    match Answer::read(line) {
        Some(answer) => outcome_by(sent, answer),
        None => Outcome::Unanswered,
    }
}

/// What an answer says of it.
fn outcome_by(sent: Sent, answer: Answer) -> Outcome
    ensures { IsBy sent answer result }
{
    match answer {
        Answer::Ack {
            source,
            start: 0,
            count,
            new: _,
            left: 0,
        } if source == sent.source && count == sent.count => Outcome::Acknowledged,
        Answer::No {
            of: Some((source, 0)),
            code: _,
            place: _,
        } if source == sent.source => Outcome::Refused(answer),
        _ => Outcome::Unanswered,
    }
}

/// Prints the line of a refusal, and answers the status.
fn tell<'a, O: Output>(outcome: Outcome, output: &mut O) -> Result<Status, Failure<'a>>
    ensures told { IfOk result (λ status. Tells outcome status (O.contents output.old) (O.contents output.new)) }
    ensures failed { IfErr result (λ failure. failure ≡ Failure.WriteFailed) }
{
    match outcome {
        Outcome::Acknowledged => Ok(Status::Success),
        Outcome::Unanswered => Ok(Status::Unanswered),
        Outcome::Refused(answer) => {
            let written = output.write_all(answer.line().bytes());
            printed(written, output)?;
            output.answered(&answer);
            Ok(Status::Refused)
        }
    }
}
