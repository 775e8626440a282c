//! What the present database lists is noted.

ghost use Rattle.std.specs.Prelude.{◌≡◌, ◌≢◌, ◌⊎◌, Err, IfOk, IfErr, OnOk};
ghost use Rattle.std.specs.List.{All};
ghost use Rattle.jc_base.specs.Device.{Rose};
ghost use Rattle.jc_base.specs.LogEntry.{IsEntry};
ghost use Rattle.jc_keeper.specs.Listing.{entries_of, export_text};
ghost use Rattle.jc_collector.specs.Noting.{CatchesUp};
ghost use Rattle.jc_collector.specs.UnionOpened.{IsTold};

use super::opening::OpenStop;
use jc_base::{Limits, SliceStream};
use jc_export::canonical_texts_read_back;
use jc_keeper::KeepStop;
use jc_ledger::{CaughtUp, Ledger, catch_up};
use jc_stream::Stream;
use std::alloc::Global;

/// Notes those entries of a text that aren't noted, if there is a text. It is what the present database lists.
pub(super) fn note_listed<L: Ledger>(
    alloc: Global,
    ledger: &mut L,
    text: Result<Vec<u8>, KeepStop>,
) -> Result<(), OpenStop>
    ensures notes { CatchesUp L.Ledger (λ now. IfOk text (λ bytes. bytes.items ≡ export_text now) × OnOk text (All IsEntry (entries_of now)))
        ledger.old ledger.new result }
    ensures owners { L.sound ledger.new → L.owner ledger.new ≡ L.owner ledger.old }
    ensures listed { IfErr text (λ stop. result ≡ Err (OpenStop.Stopped stop)) }
    ensures store { result ≡ Err (OpenStop.Stopped KeepStop.StoreFailed)
        → (text ≡ Err KeepStop.StoreFailed) ⊎ Rose (L.failures ledger.old) (L.failures ledger.new) }
    ensures read { result ≡ Err (OpenStop.Stopped KeepStop.ReadFailed) → text ≡ Err KeepStop.ReadFailed }
{
    match text {
        Ok(bytes) => note_text(alloc, ledger, &bytes),
        Err(stop) => Err(OpenStop::Stopped(stop)),
    }
}

fn note_text<L: Ledger>(alloc: Global, ledger: &mut L, text: &[u8]) -> Result<(), OpenStop>
    ensures notes { CatchesUp L.Ledger (λ now. (text.now ≡ export_text now) × All IsEntry (entries_of now)) ledger.old ledger.new result }
    ensures owners { L.sound ledger.new → L.owner ledger.new ≡ L.owner ledger.old }
    ensures store { result ≡ Err (OpenStop.Stopped KeepStop.StoreFailed) → Rose (L.failures ledger.old) (L.failures ledger.new) }
    ensures read { result ≢ Err (OpenStop.Stopped KeepStop.ReadFailed) }
{
    // Does nothing: the proof has from it what the texts read as.
    canonical_texts_read_back();
    let Ok(mut entries) = Stream::new(alloc, SliceStream::new(text), Limits::default()) else {
        return Err(OpenStop::Stopped(KeepStop::OutOfMemory));
    };
    match catch_up(alloc, ledger, &mut entries) {
        Ok(caught) => told(caught),
        Err(stop) => Err(OpenStop::Stopped(stop)),
    }
}

/// What became of the present database, as an opening tells it.
fn told(caught: CaughtUp) -> Result<(), OpenStop>
    ensures { IsTold caught result }
{
    match caught {
        CaughtUp::Done => Ok(()),
        CaughtUp::Differs { index } => Err(OpenStop::Differs { index }),
        CaughtUp::Faulty(fault) => Err(OpenStop::Faulty(fault)),
    }
}
