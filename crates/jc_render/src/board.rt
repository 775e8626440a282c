//! The line of a terminal that says how far a command is.

ghost use Rattle.std.specs.Prelude.{◌≡◌, ◌↔◌, ◌⊎◌, ◌≤◌, ◌+◌, ◌-◌, ◌^◌, Some, false, IfSome, IsTrue, map, min, option_map, string_bytes};
ghost use Rattle.std.specs.declared.time.Instant.{Instant as Moment};
ghost use Rattle.jc_render.specs.Terminal.{IsDue, IsLineFor, line_text, megabytes, unit_of, units_in};
ghost use Rattle.jc_render.specs.Writers.{is_shown, line_of};

use jc_command_args::{Request, parse};
use std::io::{IsTerminal, Stderr, Write};
use std::time::Instant;
use std::{fmt, fs};

/// What brings the cursor to the line's beginning and clears the line.
pub(crate) const CLEAR: &str = "\r\x1b[K";

/// A file of so many bytes is told of before there is anything to count.
const LARGE: u64 = 10_000_000;

/// The seconds between two lines, and those before the first.
const PAUSE: u64 = 1;

/// A line of the terminal that says how far a command is.
#[derive(Drop)]
pub struct Board<'a> {
    rt: &'a HostRuntime,
    terminal: Stderr,
    line: Line,
    /// When a line was told last, or the command began; none if the clock failed.
    told: Option<Instant>,
    is_there: bool,
}

/// A board for what these words ask for, if it may take long and there is a terminal. A large file is told of at once.
pub fn board_for<'a>(rt: &'a HostRuntime, words: &[String]) -> Option<Board<'a>>
    ensures line { IfSome result (λ board. IsLineFor (map string_bytes words.now) (line_of board)) }
    ensures is_there { IfSome result (λ board. IsTrue (is_shown board) ↔ (LARGE ≤ (line_of board).size)) }
{
    let terminal = rt.stderr();
    if !terminal.is_terminal() {
        return None;
    }
    let request = parse(rt.alloc(), words).ok()?;
    let mut board = Board {
        rt,
        terminal,
        line: line_for(rt, &request)?,
        told: Instant::now(rt).ok(),
        is_there: false,
    };
    if board.line.size >= LARGE {
        board.tell();
    }
    Some(board)
}

impl Board<'_> {
    /// Counts what these bytes have of the command's units, up to the greatest count.
    pub(crate) fn count(&mut self, bytes: &[u8])
        ensures { self.new ≡ record self.old { line = record self.old.line { done = min (self.old.line.done + units_in self.old.line.unit bytes.now) (2 ^ 64 - 1) } } }
    {
        let line = &mut self.line;
        line.done = line.done.saturating_add(units_in(line.unit, bytes));
    }

    /// Tells how much is done, if the last line is a second old.
    pub(crate) fn tell_if_due(&mut self)
        ensures line { self.new.line ≡ self.old.line }
        ensures told { ((self.new.told ≡ self.old.told) × (self.new.is_there ≡ self.old.is_there))
            ⊎ ((now : Moment) × IsDue self.old.told now × (self.new.told ≡ Some now) × IsTrue self.new.is_there) }
    {
        let Ok(now) = Instant::now(self.rt) else {
            return;
        };
        if is_due(self.told, now) {
            self.told = Some(now);
            self.tell();
        }
    }

    /// Clears the line, if there is one.
    pub(crate) fn wipe(&mut self)
        ensures gone { self.new.is_there ≡ false }
        ensures line { self.new.line ≡ self.old.line }
        ensures told { self.new.told ≡ self.old.told }
    {
        if self.is_there {
            self.is_there = false;
            // What can't be told is left out: the command goes on.
            let _ = self.terminal.write_all(CLEAR.as_bytes());
        }
    }

    fn tell(&mut self)
        ensures is_there { IsTrue self.new.is_there }
        ensures line { self.new.line ≡ self.old.line }
        ensures told { self.new.told ≡ self.old.told }
    {
        self.is_there = true;
        let line = self.line;
        let _ = write!(self.terminal, "{CLEAR}{line}");
    }
}

/// Whether a second has gone by since the last line.
fn is_due(told: Option<Instant>, now: Instant) -> bool
    ensures { IsTrue result ↔ IsDue told now }
{
    match told {
        Some(told) => now.duration_since(told).as_secs() >= PAUSE,
        None => false,
    }
}

/// How many of a unit there are in what was written: bytes, or ends of lines.
fn units_in(unit: Unit, bytes: &[u8]) -> u64
    ensures { result ≡ units_in unit bytes.now }
{
    match unit {
        Unit::Exported => bytes.len() as u64,
        _ => bytes.iter().filter(|byte| **byte == b'\n').count() as u64,
    }
}

/// What can be counted of a command while it runs.
#[derive(Clone, Copy)]
pub enum Unit {
    /// Uploads that are answered, of so many.
    Uploads(u64),
    /// Uploads that are answered; how many there are isn't known.
    Listed,
    /// Bytes that `export` has written.
    Exported,
    /// Lines that `show` has written.
    Shown,
    // Nothing: what these find or did comes at their end.
    Checked,
    Migrated,
    Verified,
}

/// How far a command is: so many of its units are done.
#[derive(Clone, Copy)]
pub struct Line {
    pub unit: Unit,
    /// How many bytes the file has that it reads, or 0 if that isn't known.
    pub size: u64,
    pub done: u64,
}

/// The line of what is asked for before it begins, if it may take long.
fn line_for(rt: &HostRuntime, request: &Request<'_>) -> Option<Line>
    ensures unit { option_map (λ line. line.unit) result ≡ unit_of request.now }
    ensures done { IfSome result (λ line. line.done ≡ 0) }
{
    let (unit, path) = match request {
        Request::Collect { uploads, .. } => (Unit::Uploads(uploads.len().max(1) as u64), ""),
        Request::CollectListed { .. } | Request::CollectIntoUnion { .. } => (Unit::Listed, ""),
        Request::Export { database } => (Unit::Exported, *database),
        Request::Show { database, .. } => (Unit::Shown, *database),
        Request::Check { database } | Request::CheckNoted { database, .. } => {
            (Unit::Checked, *database)
        }
        Request::Migrate { database, .. } => (Unit::Migrated, *database),
        Request::Verify { file, .. } => (Unit::Verified, *file),
        _ => return None,
    };
    let size = fs::metadata(rt, path).map_or(0, |found| found.len());
    Some(Line {
        unit,
        size,
        done: 0,
    })
}

impl fmt::Display for Line {
    ghost output = { λ line. Some (line_text line.unit line.done line.size) };

    fn fmt<W: fmt::Write>(&self, f: &mut fmt::Formatter<W>) -> fmt::Result {
        let (done, size) = (self.done, Megabytes(self.size));
        match self.unit {
            Unit::Uploads(of) => write!(f, "collect: {done} of {of} uploads answered"),
            Unit::Listed => write!(f, "collect: {done} uploads answered"),
            Unit::Exported => {
                let written = Megabytes(done);
                write!(f, "export: {written} written, of a database of {size}")
            }
            Unit::Shown => write!(f, "show: {done} entries, of a database of {size}"),
            Unit::Checked => write!(f, "check: reads a database of {size}"),
            Unit::Migrated => write!(f, "migrate: reads and writes a database of {size}"),
            Unit::Verified => write!(f, "verify: reads {size}"),
        }
    }
}

/// A number of bytes, told in millions with one decimal place.
#[derive(Clone, Copy)]
struct Megabytes(u64);

impl fmt::Display for Megabytes {
    ghost output = { λ bytes. Some (megabytes bytes.0) };

    fn fmt<W: fmt::Write>(&self, f: &mut fmt::Formatter<W>) -> fmt::Result {
        let (whole, tenth) = (self.0 / 1_000_000, self.0 / 100_000 % 10);
        write!(f, "{whole}.{tenth} MB")
    }
}
