//! Output that goes to a terminal, and errors on one that has a board.

ghost use Rattle.std.specs.Prelude.{◌≡◌, None, if◌then◌else◌, length, min, take};
ghost use Rattle.jc_render.specs.Terminal.{IsMasked, Masks};

use crate::Board;
use crate::board::CLEAR;
use std::io;
use std::io::Write;

/// The most bytes that a terminal gets at once.
const PIECE: usize = 512;

/// A writer that passes on what it takes, and tells on a board how much that was. A terminal gets another character, as
/// long, for each that it obeys or that turns a line. What isn't UTF-8 is passed on.
#[derive(Drop)]
pub struct Masked<'a, O: Write + Drop> {
    inner: O,
    is_terminal: bool,
    ahead: Ahead,
    board: Option<Board<'a>>,
}

impl<'a, O: Write + Drop> Masked<'a, O> {
    pub fn new(inner: O, is_terminal: bool, board: Option<Board<'a>>) -> Masked<'a, O>
        ensures { ⟦<Masked<'a, O> as Write>⟧.contents result ≡ (if is_terminal then None else O.contents inner) }
    {
        Masked {
            inner,
            is_terminal,
            ahead: Ahead { first: 0, last: 0 },
            board,
        }
    }

    /// Clears the line of the board.
    pub fn wipe(&mut self)
        ensures { ⟦<Masked<'a, O> as Write>⟧.contents self.new ≡ ⟦<Masked<'a, O> as Write>⟧.contents self.old }
    {
        wipe(&mut self.board);
    }
}

fn wipe(board: &mut Option<Board<'_>>) {
    if let Some(board) = board {
        board.wipe();
    }
}

impl<O: Write + Drop> Write for Masked<'_, O> {
    ghost contents = { λ s. (if s.is_terminal then None else O.contents s.inner) };

    fn write(&mut self, buf: &[u8]) -> io::Result<usize> {
        let count = if self.is_terminal {
            // A line of the board would be in its way.
            wipe(&mut self.board);
            let mut piece = [0; PIECE];
            let count = self.ahead.mask(buf, &mut piece);
            self.inner.write_all(&piece[..count])?;
            count
        } else {
            self.inner.write(buf)?
        };
        if let Some(board) = &mut self.board {
            board.count(&buf[..count]);
            // On a terminal that has half a line, the board's would take its place.
            if !self.is_terminal || buf[..count].ends_with(b"\n") {
                board.tell_if_due();
            }
        }
        Ok(count)
    }

    fn flush(&mut self) -> io::Result<()> {
        self.inner.flush()
    }
}

/// The last two bytes of what a terminal got.
#[derive(Clone, Copy)]
struct Ahead {
    first: u8,
    last: u8,
}

impl Ahead {
    /// What a terminal gets of as many bytes as there is room for, and how many these are.
    fn mask(&mut self, bytes: &[u8], piece: &mut [u8; PIECE]) -> usize
        ensures count { result ≡ min (length bytes.now) PIECE }
        ensures masked { Masks self.old (take result bytes.now) (take result piece.new) self.new }
    {
        let count = bytes.len().min(PIECE);
        for at in 0..count {
            let shown = self.masked(bytes[at]);
            piece[at] = shown;
            *self = Ahead {
                first: self.last,
                last: shown,
            };
        }
        count
    }

    /// What a terminal gets of a byte: another one if it would be the end of a character that isn't shown.
    fn masked(self, byte: u8) -> u8
        ensures { IsMasked self byte result }
    {
        match (self.first, self.last, byte) {
            (_, _, 0..=8 | 11..=31 | 127) => b'?',
            // U+00BF, U+060C, U+203D, U+2047
            (_, 0xc2, 0x80..=0x9f) => 0xbf,
            (_, 0xd8, 0x9c) => 0x8c,
            (0xe2, 0x80, 0x8e..=0x8f | 0xa8..=0xae) => 0xbd,
            (0xe2, 0x81, 0xa6..=0xa9) => 0x87,
            _ => byte,
        }
    }
}

/// A writer that passes on what it takes, and clears the line of a board, if there is one, before each of its own.
#[derive(Drop)]
pub struct Wiping<E: Write + Drop> {
    inner: E,
    has_board: bool,
    is_within_line: bool,
}

impl<E: Write + Drop> Wiping<E> {
    pub fn new(inner: E, has_board: bool) -> Wiping<E>
        ensures { ⟦<Wiping<E> as Write>⟧.contents result ≡ (if has_board then None else E.contents inner) }
    {
        Wiping {
            inner,
            has_board,
            is_within_line: false,
        }
    }
}

impl<E: Write + Drop> Write for Wiping<E> {
    ghost contents = { λ s. (if s.has_board then None else E.contents s.inner) };

    fn write(&mut self, buf: &[u8]) -> io::Result<usize> {
        if self.has_board && !self.is_within_line {
            self.inner.write_all(CLEAR.as_bytes())?;
        }
        let count = self.inner.write(buf)?;
        self.is_within_line = !buf[..count].ends_with(b"\n");
        Ok(count)
    }

    fn flush(&mut self) -> io::Result<()> {
        self.inner.flush()
    }
}
