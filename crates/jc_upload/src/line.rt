//! Lines of text: a buffer that holds one, and a reader of its words.

ghost use Rattle.std.specs.Prelude.{ℕ, ◌≡◌, ◌↔◌, ◌+◌, ◌^◌, ◌<◌, ◌≤◌, ◌==◌, [], ◌∷◌, ◌++◌, length, decimal, IsTrue, IfSome, MatchOption, None, Some};
ghost use Rattle.std.specs.List.{position};
ghost use Rattle.hex.specs.Hex.{encode_lower};
ghost use Rattle.jc_base.specs.Number.{IsId};
ghost use Rattle.jc_upload.specs.Answer.{IsPair};
ghost use Rattle.jc_upload.specs.Line.{pair_text};
ghost use Rattle.jc_upload.specs.Reading.{Gives, GivesBytes, number_of, id_of, word_at, number_at, id_at, dash_at, pair_at};

use itoa::Buffer;
use jc_base::Id128;
use std::marker::Model;
use std::str;

/// A line of text, kept inside.
#[derive(Debug, Drop)]
pub struct Line {
    bytes: [u8; 128],
    len: usize,
}

impl Model for Line {
    ghost use Rattle.std.specs.Prelude.{◌≤◌, List, ℕ, take};

    ghost Value = { List ℕ };

    ghost view = { λ line. take line.len line.bytes };

    ghost invariant = { λ line. line.len ≤ 128 };
}

impl Line {
    /// The line's bytes, at most 128, with the newline at their end.
    pub fn bytes(&self) -> &[u8]
        ensures value { result.now ≡ self.now }
        ensures short { length result.now ≤ 128 }
    {
        &self.bytes[..self.len]
    }

    pub(crate) fn new() -> Line
        ensures { result ≡ [] }
    {
        Line {
            bytes: [0; 128],
            len: 0,
        }
    }

    fn push(&mut self, piece: &[u8])
        requires { length self.old + length piece.now ≤ 128 }
        ensures { self.new ≡ self.old ++ piece.now }
    {
        let end = self.len + piece.len();
        self.bytes[self.len..end].copy_from_slice(piece);
        self.len = end;
    }

    /// Adds a word and the byte that ends it.
    pub(crate) fn word(&mut self, word: &[u8], end: u8)
        requires { length self.old + length word.now + 1 ≤ 128 }
        ensures text { self.new ≡ self.old ++ (word.now ++ end ∷ []) }
        ensures longer { length self.new ≡ length self.old + length word.now + 1 }
    {
        self.push(word);
        self.push(&[end]);
    }

    /// Adds a number as a plain decimal.
    pub(crate) fn number(&mut self, number: u64, end: u8)
        requires { length self.old + 21 ≤ 128 }
        ensures text { self.new ≡ self.old ++ (decimal number ++ end ∷ []) }
        ensures longer { length self.new ≤ length self.old + 21 }
    {
        self.word(Buffer::new().format(number).as_bytes(), end);
    }

    /// Adds an id in lower-case hexadecimal digits.
    pub(crate) fn id(&mut self, id: &Id128, end: u8)
        requires { length self.old + 33 ≤ 128 }
        ensures text { self.new ≡ self.old ++ (encode_lower id.now.0 ++ end ∷ []) }
        ensures lawful { IsId id.now.0 }
        ensures longer { length self.new ≤ length self.old + 33 }
    {
        self.word(&id.to_hex(), end);
    }

    /// Adds an id and a number, or a dash for each.
    pub(crate) fn pair(&mut self, pair: Option<(Id128, u64)>, end: u8)
        requires { length self.old + 54 ≤ 128 }
        ensures text { self.new ≡ self.old ++ pair_text pair end }
        ensures lawful { IfSome pair IsPair }
        ensures longer { length self.new ≤ length self.old + 54 }
    {
        match pair {
            Some((id, number)) => {
                self.id(&id, b' ');
                self.number(number, end);
            }
            None => {
                self.word(b"-", b' ');
                self.word(b"-", end);
            }
        }
    }
}

/// What is left of a line that is being read.
#[derive(Drop)]
pub struct Words<'a> {
    pub rest: &'a [u8],
}

impl<'a> Words<'a> {
    pub fn new(line: &'a [u8]) -> Words<'a>
        ensures { result.rest.now ≡ line.now }
    {
        Words { rest: line }
    }

    /// Whether nothing is left.
    pub fn is_empty(&self) -> bool
        ensures { IsTrue result ↔ (self.now.rest.now ≡ []) }
    {
        self.rest.is_empty()
    }

    /// The bytes before the next byte `end`, which is taken too; `None` if there is none.
    #[tactic(auto, unfolding(crate::specs::Reading::word_at))]
    pub fn word(&mut self, end: u8) -> Option<&'a [u8]>
        ensures { GivesBytes result self.new.rest.now (word_at end self.old.rest.now) }
    {
        let at = place_of(end, self.rest)?;
        let word = &self.rest[..at];
        self.rest = &self.rest[at + 1..];
        Some(word)
    }

    /// A plain decimal below 2^64.
    #[tactic(auto, unfolding(crate::specs::Reading::number_at))]
    pub fn number(&mut self, end: u8) -> Option<u64>
        ensures { Gives result self.new.rest.now (number_at end self.old.rest.now) }
    {
        let word = self.word(end)?;
        number_of(word)
    }

    /// An id in lower-case hexadecimal digits.
    #[tactic(auto, unfolding(crate::specs::Reading::id_at))]
    pub fn id(&mut self, end: u8) -> Option<Id128>
        ensures { Gives result self.new.rest.now (id_at end self.old.rest.now) }
    {
        let word = self.word(end)?;
        id_of(word)
    }

    /// An id and a number; `Some(None)` if there is a dash for each.
    #[tactic(auto, unfolding(crate::specs::Reading::pair_at))]
    pub(crate) fn pair(&mut self, end: u8) -> Option<Option<(Id128, u64)>>
        ensures { Gives result self.new.rest.now (pair_at end self.old.rest.now) }
    {
        let word = self.word(b' ')?;
        if word == b"-".as_slice() {
            self.dash(end)?;
            return Some(None);
        }
        let id = id_of(word)?;
        let number = self.number(end)?;
        Some(Some((id, number)))
    }

    #[tactic(auto, unfolding(crate::specs::Reading::dash_at))]
    fn dash(&mut self, end: u8) -> Option<()>
        ensures { MatchOption result (dash_at end self.old.rest.now ≡ None)
            (λ _. dash_at end self.old.rest.now ≡ Some self.new.rest.now) }
    {
        let word = self.word(end)?;
        (word == b"-".as_slice()).then_some(())
    }
}

fn place_of(end: u8, bytes: &[u8]) -> Option<usize>
    ensures place { result ≡ position (λ b. b == end) bytes.now }
    ensures within { IfSome result (λ at. at < length bytes.now) }
{
    bytes.iter().position(|byte| *byte == end)
}

/// The number whose plain decimal the word is.
fn number_of(word: &[u8]) -> Option<u64>
    ensures { result ≡ number_of word.now }
{
    let number = parsed(word)?;
    is_decimal(number, word).then_some(number)
}

/// The number that the word spells, in any way that `parse` takes.
fn parsed(word: &[u8]) -> Option<u64>
    ensures { (n : ℕ) → n < 2 ^ 64 → word.now ≡ decimal n → result ≡ Some n }
{
    str::from_utf8(word).ok()?.parse().ok()
}

fn is_decimal(number: u64, word: &[u8]) -> bool
    ensures same { IsTrue result ↔ (word.now ≡ decimal number) }
    ensures small { number < 2 ^ 64 }
{
    Buffer::new().format(number).as_bytes() == word
}

/// The id whose lower-case digits the word is.
fn id_of(word: &[u8]) -> Option<Id128>
    ensures { result ≡ id_of word.now }
{
    let id = Id128::from_hex(word)?;
    is_lower_hex(&id, word).then_some(id)
}

fn is_lower_hex(id: &Id128, word: &[u8]) -> bool
    ensures same { IsTrue result ↔ (word.now ≡ encode_lower id.now.0) }
    ensures lawful { IsId id.now.0 }
{
    id.to_hex().as_slice() == word
}
