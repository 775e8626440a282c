//! A window's file that had something when it was asked for.

ghost use Rattle.std.specs.Prelude.{◌≡◌, ◌<◌, ◌≤◌, [], ◌∷◌, true, false, is_ok, length, IfOk, IsTrue, MatchResult, OnOk, Some};
ghost use Rattle.std.specs.IoError.{error_kind};
ghost use Rattle.sqlite_disk.specs.Disk.{Holds, MoreFaults, Only};
ghost use Rattle.sqlite_disk.specs.Events.{flushed, measured, raised, read as was_read, replay, settled, written};
ghost use Rattle.sqlite_disk.specs.Refusal.{as_number, finds_no_room, is_no_room as lacks_room};
ghost use Rattle.jc_sequences.specs.Called.{Called};

use crate::file_record::FileRecord;
use crate::open_files::WindowFile;
use crate::placed::Place;
use jc_ledger_files::{Found, WindowName};
use sqlite_disk::{Disk, Tally, is_no_room};
use sqlite_std_file::File;
use std::io;
use std::marker::PhantomData;

const SETTLED: u64 = 0;

const MEASURED: u64 = 1;

const READ: u64 = 2;

const WRITTEN: u64 = 3;

const FLUSHED: u64 = 5;

/// The file of a window, which had what `F` says when it was asked for first. It is read off that and the record of its
/// calls, as the toolchain reads a database's file: each method makes the call that it notes, and notes its answer. What it
/// has stays known while it is closed.
#[derive(Drop)]
pub struct FoundFile<D: Disk, F: Found> {
    /// It is closed if there is none.
    disk: Option<D>,
    /// The system said that there is no such file, which is noted as a length of 0, and no other call was made since.
    is_away: bool,
    name: WindowName,
    found: PhantomData<F>,
    calls: FileRecord,
    is_usable: bool,
    /// A sync failed, so it isn't opened again.
    is_lost: bool,
    failed: Failed,
    tally: Tally,
    ghost usable: { is_usable ≡ (replay (F.found name) calls.events).is_usable },
    ghost away: { IsTrue is_away → IsTrue (replay (F.found name) calls.events).is_honest → (replay (F.found name) calls.events).seen ≡ [] },
}

/// The calls of a file that failed.
#[derive(Drop)]
struct Failed {
    /// How many did, up to 2^64 - 1.
    count: u64,
    /// The kind of the last one's error.
    last: Option<io::ErrorKind>,
}

impl Failed {
    /// A call failed with this error.
    fn add(&mut self, error: &io::Error)
        ensures count { MoreFaults self.old.count self.new.count × (self.old.count ≤ self.new.count) }
        ensures last { self.new.last ≡ Some (error_kind error.now) }
    {
        self.count = self.count.saturating_add(1);
        self.last = Some(error.kind());
    }
}

impl<D: Disk + Drop, F: Found> FoundFile<D, F> {
    /// It was opened, and synced.
    fn begin(&mut self, disk: D)
        ensures name { self.new.name ≡ self.old.name }
        ensures calls { self.new.calls.events ≡ settled 0 ∷ self.old.calls.events }
    {
        self.is_away = false;
        self.disk = Some(disk);
        self.calls.note(&[SETTLED, 0, 0, 1], &[]);
        self.is_usable = true;
    }

    /// The system said that there is none, and where it would be was synced.
    fn miss(&mut self)
        ensures name { self.new.name ≡ self.old.name }
        ensures calls { self.new.calls.events ≡ measured true 0 ∷ settled 0 ∷ self.old.calls.events }
    {
        self.calls.note(&[SETTLED, 0, 0, 1], &[]);
        self.calls.note(&[MEASURED, 0, 0, 1], &[]);
        self.is_usable = true;
        self.is_away = true;
    }
}

impl<F: Found> WindowFile<F> for FoundFile<File, F> {
    ghost use Rattle.std.specs.Prelude.{is_some};

    ghost is_open = { λ f. is_some f.disk };

    ghost last_error = { λ f. f.failed.last };

    fn unopened(name: WindowName) -> FoundFile<File, F> {
        FoundFile {
            disk: None,
            is_away: false,
            name,
            found: PhantomData,
            calls: FileRecord::new(),
            is_usable: false,
            is_lost: false,
            failed: Failed {
                count: 0,
                last: None,
            },
            tally: Tally {
                caught: 0,
                refused: 0,
            },
        }
    }

    fn open(&mut self, place: &mut Place<'_>, makes: bool) -> io::Result<()> {
        if self.is_lost {
            return Err(io::ErrorKind::Other.into());
        }
        if self.disk.is_some() && self.is_usable {
            return Ok(());
        }
        match place.open(self.name, makes, self.is_away) {
            Ok(Some(disk)) => {
                self.begin(disk);
                Ok(())
            }
            Ok(None) => {
                self.miss();
                Ok(())
            }
            Err(error) => Err(error),
        }
    }

    fn last_error(&self) -> Option<io::ErrorKind> {
        self.failed.last
    }

    fn close(&mut self) {
        self.disk = None;
    }
}

/// A count that rises if this happened, up to 2^64 - 1.
fn count_if(rises: bool, count: u64) -> u64
    ensures { result ≡ raised rises count }
{
    if rises {
        return count.saturating_add(1);
    }
    count
}

/// Measures a file that is open, and notes it.
fn measure<D: Disk>(disk: &mut Option<D>, calls: &mut FileRecord) -> io::Result<usize>
    ensures noted { MatchResult result
        (λ n. calls.new.events ≡ measured true n ∷ calls.old.events)
        (λ _. calls.new.events ≡ measured false 0 ∷ calls.old.events) }
    ensures made { IfOk result (λ n. Called disk.old disk.new (λ before after. IsTrue (D.is_clean after) → n ≡ length (D.seen before))) }
{
    match disk {
        Some(disk) if disk.may_be_used() => match disk.len() {
            Ok(len) => {
                calls.note(&[MEASURED, len as u64, 0, 1], &[]);
                Ok(len)
            }
            Err(error) => {
                calls.note(&[MEASURED, 0, 0, 0], &[]);
                Err(error)
            }
        },
        _ => {
            calls.note(&[MEASURED, 0, 0, 0], &[]);
            Err(io::ErrorKind::Other.into())
        }
    }
}

/// Reads, and notes it.
fn read<D: Disk>(
    disk: &mut Option<D>,
    calls: &mut FileRecord,
    at: usize,
    buf: &mut [u8],
) -> io::Result<()>
    ensures noted { MatchResult result
        (λ _. calls.new.events ≡ was_read at (length buf.old) true buf.new ∷ calls.old.events)
        (λ _. calls.new.events ≡ was_read at (length buf.old) false [] ∷ calls.old.events) }
    ensures made { OnOk result (Called disk.old disk.new (λ before after. IsTrue (D.is_clean after) → 0 < length buf.old → Holds (D.seen before) at buf.new)) }
{
    let (from, count) = (at as u64, buf.len() as u64);
    match disk {
        Some(disk) if disk.may_be_used() => match disk.read_at(at, buf) {
            Ok(()) => {
                calls.note(&[READ, from, count, 1], buf);
                Ok(())
            }
            Err(error) => {
                calls.note(&[READ, from, count, 0], &[]);
                Err(error)
            }
        },
        _ => {
            calls.note(&[READ, from, count, 0], &[]);
            Err(io::ErrorKind::Other.into())
        }
    }
}

/// Writes, and notes it.
fn write<D: Disk>(
    disk: &mut Option<D>,
    calls: &mut FileRecord,
    at: usize,
    bytes: &[u8],
) -> io::Result<()>
    ensures noted { MatchResult result
        (λ _. calls.new.events ≡ written at bytes.now true (length bytes.now) ∷ calls.old.events)
        (λ e. calls.new.events ≡ written at bytes.now false (as_number (lacks_room e)) ∷ calls.old.events) }
    ensures made { OnOk result (Called disk.old disk.new (λ before after. 0 < length bytes.now → Holds (D.seen after) at bytes.now)) }
{
    let (from, count) = (at as u64, bytes.len() as u64);
    match disk {
        Some(disk) if disk.may_be_used() => match disk.write_at(at, bytes) {
            Ok(()) => {
                calls.note(&[WRITTEN, from, count, 1], bytes);
                Ok(())
            }
            Err(error) => {
                calls.note(&[WRITTEN, from, u64::from(is_no_room(&error)), 0], bytes);
                Err(error)
            }
        },
        _ => {
            let error: io::Error = io::ErrorKind::Other.into();
            calls.note(&[WRITTEN, from, u64::from(is_no_room(&error)), 0], bytes);
            Err(error)
        }
    }
}

/// Syncs, and notes it.
fn flush<D: Disk>(disk: &mut Option<D>, calls: &mut FileRecord) -> io::Result<()>
    ensures noted { calls.new.events ≡ flushed (is_ok result) (as_number (finds_no_room result)) ∷ calls.old.events }
    ensures made { OnOk result (Called disk.old disk.new (λ before after. Only (D.seen before) (D.may_leave after))) }
{
    match disk {
        Some(disk) if disk.may_be_used() => match disk.sync() {
            Ok(()) => {
                calls.note(&[FLUSHED, 0, 0, 1], &[]);
                Ok(())
            }
            Err(error) => {
                calls.note(&[FLUSHED, 0, u64::from(is_no_room(&error)), 0], &[]);
                Err(error)
            }
        },
        _ => {
            let error: io::Error = io::ErrorKind::Other.into();
            calls.note(&[FLUSHED, 0, u64::from(is_no_room(&error)), 0], &[]);
            Err(error)
        }
    }
}

impl<D: Disk, F: Found> Disk for FoundFile<D, F> {
    ghost use Rattle.std.specs.Prelude.{false, refl};
    ghost use Rattle.std.proofs.Common.{inl};
    ghost use Rattle.sqlite_disk.specs.Events.{replay};
    ghost use Rattle.sqlite_disk.specs.Fair.{fair_if_honest};
    ghost use Rattle.sqlite_disk.specs.History.{MayLeave};

    ghost seen = { λ f. (replay (F.found f.name) f.calls.events).seen };

    ghost may_leave = { λ f. let m = replay (F.found f.name) f.calls.events in MayLeave false m.seen m.synced m.steps };

    ghost is_usable = { λ f. (replay (F.found f.name) f.calls.events).is_usable };

    ghost faults = { λ f. f.failed.count };

    ghost tally_of = { λ f. f.tally };

    ghost is_clean = { λ f. (replay (F.found f.name) f.calls.events).is_honest };

    ghost key_of = { λ _. 0 };

    ghost is_fair = { λ f. (replay (F.found f.name) f.calls.events).is_fair };

    ghost fair_if_clean = { λ f. fair_if_honest (F.found f.name) f.calls.events };

    ghost seen_may_stay = { λ f. inl refl };

    // A torn write may leave any bytes.
    fn mixes(&self) -> bool {
        false
    }

    fn key(&self) -> u64 {
        0
    }

    fn tally(&self) -> Tally {
        self.tally
    }

    fn may_be_used(&self) -> bool {
        self.is_usable
    }

    fn len(&mut self) -> io::Result<usize> {
        if self.is_away {
            return Ok(0);
        }
        match measure(&mut self.disk, &mut self.calls) {
            Ok(len) => Ok(len),
            Err(error) => {
                self.failed.add(&error);
                Err(error)
            }
        }
    }

    fn read_at(&mut self, at: usize, buf: &mut [u8]) -> io::Result<()> {
        if buf.is_empty() {
            return Ok(());
        }
        self.is_away = false;
        match read(&mut self.disk, &mut self.calls, at, buf) {
            Ok(()) => Ok(()),
            Err(error) => {
                self.failed.add(&error);
                Err(error)
            }
        }
    }

    // No digests are kept of windows, so nothing is read that would be tested by one.
    fn read_checked(
        &mut self,
        _key: u64,
        _want: u64,
        _at: usize,
        _buf: &mut [u8],
    ) -> io::Result<()> {
        let error: io::Error = io::ErrorKind::Unsupported.into();
        self.failed.add(&error);
        Err(error)
    }

    fn write_at(&mut self, at: usize, bytes: &[u8]) -> io::Result<()> {
        if bytes.is_empty() {
            return Ok(());
        }
        self.is_away = false;
        match write(&mut self.disk, &mut self.calls, at, bytes) {
            Ok(()) => Ok(()),
            Err(error) => {
                self.failed.add(&error);
                self.tally.refused = count_if(is_no_room(&error), self.tally.refused);
                Err(error)
            }
        }
    }

    // The file of a window is only added to.
    fn set_len(&mut self, _len: usize) -> io::Result<()> {
        let error: io::Error = io::ErrorKind::Unsupported.into();
        self.failed.add(&error);
        self.tally.refused = count_if(is_no_room(&error), self.tally.refused);
        Err(error)
    }

    fn sync(&mut self) -> io::Result<()> {
        self.is_away = false;
        match flush(&mut self.disk, &mut self.calls) {
            Ok(()) => Ok(()),
            Err(error) => {
                self.is_usable = false;
                self.is_lost = true;
                self.failed.add(&error);
                self.tally.refused = count_if(is_no_room(&error), self.tally.refused);
                Err(error)
            }
        }
    }
}
