//! Resume points.

ghost use Rattle.std.specs.Prelude.{◌≡◌, ◌<◌, IfOk, IfSome, Some};
ghost use Rattle.jc_upload.specs.Resume.{HasLast, IsPoint, Point, resume_text, start};
ghost use Rattle.jc_upload.specs.Reading.{point_of, point_at, resume_at};

use crate::line::{Line, Words};
use jc_base::{Entry, Id128, Key, NUMBER_END, OutOfMemory};
use std::alloc::Global;
use std::marker::Model;

/// How many of a source's entries are acknowledged, and the key of the last of them, which is a lawful entry's. There is
/// no such key exactly at position 0, which is the default.
#[derive(Clone, Copy, Debug, PartialEq, Eq)]
pub struct Resume {
    position: u64,
    last: Option<Key>,
}

impl Model for Resume {
    ghost use Rattle.jc_upload.specs.Resume.{Point, HasLast};

    ghost Value = { Point };

    ghost view = { λ resume. record { position = resume.position; last = resume.last } };

    ghost invariant = { λ resume. HasLast resume.position resume.last };

    ghost inverse = { λ point. record { position = point.position; last = point.last } };
}

impl Resume {
    pub fn position(&self) -> u64
        ensures { result ≡ self.now.position }
    {
        self.position
    }

    pub fn last(&self) -> Option<Key>
        ensures part { result ≡ self.now.last }
        ensures lawful { HasLast self.now.position self.now.last }
    {
        self.last
    }

    /// The point after this entry, which is the source's `position`-th, counted from 1.
    pub(crate) fn behind(entry: &Entry, position: u64) -> Resume
        requires { 0 < position }
        ensures { result ≡ record { position = position; last = Some entry.now.key } }
    {
        Resume {
            position,
            last: Some(entry.key()),
        }
    }

    /// The point's text, one line.
    pub fn text(&self, alloc: Global) -> Result<Vec<u8>, OutOfMemory>
        ensures { IfOk result (λ text. text.items ≡ resume_text self.now) }
    {
        let Resume { position, last } = *self;
        let mut line = Line::new();
        line.word(b"resume", b' ');
        line.number(position, b' ');
        line.pair(last.map(|key| (key.seqnum_id, key.seqnum)), b'\n');
        Ok(Vec::from_slice(alloc, line.bytes())?)
    }

    /// The point whose text this is; `None` if it isn't one. Takes no memory.
    pub fn read(text: &[u8]) -> Option<Resume>
        ensures found { IfSome result (λ point. IsPoint point × (text.now ≡ resume_text point)) }
        ensures only { (point : Point) → IsPoint point → text.now ≡ resume_text point
            → result ≡ Some point }
    {
        read_resume(text)
    }
}

impl Default for Resume {
    ghost is_default = { λ point. point ≡ start };

    /// The point before a source's first entry.
    fn default() -> Resume {
        Resume {
            position: 0,
            last: None,
        }
    }
}

/// A text is at most one resume point's.
pub fn one_resume()
    ensures { (a b : Point) → IsPoint a → IsPoint b → resume_text a ≡ resume_text b → a ≡ b }
{}

#[tactic(auto, unfolding(crate::specs::Reading::resume_at))]
fn read_resume(text: &[u8]) -> Option<Resume>
    ensures { result ≡ resume_at text.now }
{
    let mut words = Words::new(text);
    let word = words.word(b' ')?;
    if word == b"resume".as_slice() {
        read_point(words)
    } else {
        None
    }
}

#[tactic(auto, unfolding(crate::specs::Reading::point_at))]
fn read_point(mut words: Words<'_>) -> Option<Resume>
    ensures { result ≡ point_at words.entry.rest.now }
{
    let position = words.number(b' ')?;
    let last = words.pair(b'\n')?;
    let point = point_of(position, last)?;
    words.is_empty().then_some(point)
}

fn point_of(position: u64, last: Option<(Id128, u64)>) -> Option<Resume>
    ensures { result ≡ point_of position last }
{
    match last {
        None if position == 0 => Some(Resume::default()),
        Some((seqnum_id, seqnum)) if position > 0 && seqnum > 0 && seqnum < NUMBER_END => {
            // That an id is 16 bytes is known by this call's contract.
            let _bytes = seqnum_id.as_bytes();
            let last = Some(Key { seqnum_id, seqnum });
            Some(Resume { position, last })
        }
        _ => None,
    }
}
