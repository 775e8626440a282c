//! Answers to uploads.

ghost use Rattle.std.specs.Prelude.{◌≡◌, ◌∷◌, ◌++◌, codes, IfSome, Some};
ghost use Rattle.jc_upload.specs.Answer.{IsAnswer, answer_text};
ghost use Rattle.jc_upload.specs.Reading.{ack_at, no_at, answer_at};

use crate::line::{Line, Words};
use jc_base::Id128;

/// What the collector answers to an upload, on one line.
#[derive(Clone, Copy, Debug, PartialEq, Eq)]
pub enum Answer {
    /// The upload's complete entries are stored.
    Ack {
        source: Id128,
        /// As the upload's header has it.
        start: u64,
        /// Complete entries in the upload.
        count: u64,
        /// Those of them that weren't there before.
        new: u64,
        /// Bytes at the end that are an unfinished entry.
        left: u64,
    },
    /// The upload was refused and changed nothing; or reading it, the store or memory failed.
    No {
        /// The source and the start; `None` if the header couldn't be read.
        of: Option<(Id128, u64)>,
        /// What is wrong.
        code: u16,
        /// Where it is wrong.
        place: u64,
    },
}

impl Answer {
    /// The answer's line, with its newline. Takes no memory.
    pub fn line(&self) -> Line
        ensures text { result ≡ answer_text self.now }
        ensures lawful { IsAnswer self.now }
    {
        let mut line = Line::new();
        match self {
            Answer::Ack {
                source,
                start,
                count,
                new,
                left,
            } => {
                line.word(b"ack", b' ');
                line.id(source, b' ');
                line.number(*start, b' ');
                line.number(*count, b' ');
                line.number(*new, b' ');
                line.number(*left, b'\n');
            }
            Answer::No { of, code, place } => {
                line.word(b"no", b' ');
                line.pair(*of, b' ');
                line.number(u64::from(*code), b' ');
                line.number(*place, b'\n');
            }
        }
        line
    }

    /// The answer whose line this is; `None` if it isn't one. Takes no memory.
    pub fn read(line: &[u8]) -> Option<Answer>
        ensures found { IfSome result (λ answer. IsAnswer answer × (line.now ≡ answer_text answer)) }
        ensures only { (answer : Answer) → IsAnswer answer → line.now ≡ answer_text answer
            → result ≡ Some answer }
    {
        read_answer(line)
    }
}

/// A line is at most one answer's.
pub fn one_answer()
    ensures { (a b : Answer) → IsAnswer a → IsAnswer b → answer_text a ≡ answer_text b → a ≡ b }
{}

#[tactic(auto, unfolding(crate::specs::Reading::answer_at))]
fn read_answer(line: &[u8]) -> Option<Answer>
    ensures { result ≡ answer_at line.now }
{
    let mut words = Words::new(line);
    let word = words.word(b' ')?;
    if word == b"ack".as_slice() {
        read_ack(words)
    } else if word == b"no".as_slice() {
        read_no(words)
    } else {
        None
    }
}

#[tactic(auto, unfolding(crate::specs::Reading::ack_at))]
fn read_ack(mut words: Words<'_>) -> Option<Answer>
    ensures { result ≡ ack_at words.entry.rest.now }
{
    let source = words.id(b' ')?;
    let start = words.number(b' ')?;
    let count = words.number(b' ')?;
    let new = words.number(b' ')?;
    let left = words.number(b'\n')?;
    let answer = Answer::Ack {
        source,
        start,
        count,
        new,
        left,
    };
    words.is_empty().then_some(answer)
}

#[tactic(auto, unfolding(crate::specs::Reading::no_at))]
fn read_no(mut words: Words<'_>) -> Option<Answer>
    ensures { result ≡ no_at words.entry.rest.now }
{
    let of = words.pair(b' ')?;
    let code = words.number(b' ')?;
    let place = words.number(b'\n')?;
    let code = u16::try_from(code).ok()?;
    words.is_empty().then_some(Answer::No { of, code, place })
}
