//! A journal in a database in memory is exported, and taken up by another database in memory.

ghost use Rattle.std.specs.Prelude.{◌≡◌, ◌≢◌, Err, IfOk, OnOk};
ghost use Rattle.std.specs.List.{All};
ghost use Rattle.jc_base.specs.LogEntry.{IsEntry};
ghost use Rattle.jc_keeper.specs.declared.keeper.KeepStop.TheVariants.{ReadFailed};
ghost use Rattle.jc_keeper.specs.Listing.{entries_of, export_text};
ghost use Rattle.jc_theorems.specs.Copied.{IsCopied, TakesText};

use crate::MemoryKeeper;
use jc_base::{Code, Limits, SliceStream, VecSink};
use jc_keeper::{Absorbed, Form, KeepStop, Keeper, export_is_taken_up};
use jc_store::{Layout, Listed, memory_is_sound};
use jc_stream::Stream;
use std::alloc::Global;

/// What was exported of a journal, what became of it in a new one, and that one.
#[derive(Drop)]
pub struct Copied<L: Layout> {
    pub text: Vec<u8>,
    pub absorbed: Absorbed,
    pub keeper: MemoryKeeper<L>,
}

/// Has the journal of a new database take up what is exported of another one, whose tables may be laid out otherwise.
pub fn copy_journal<L: Listed, M: Layout>(
    alloc: Global,
    keeper: MemoryKeeper<L>,
    limits: &Limits,
) -> Result<Copied<M>, KeepStop>
    ensures copied { IfOk result (λ copy.
        IsCopied limits.now keeper.journal copy.text.items copy.absorbed copy.keeper.journal) }
    ensures never_read { result ≢ Err ReadFailed }
{
    // Does nothing: from its contract the proof has that what is exported makes the same journal.
    export_is_taken_up();
    let text = exported(alloc, keeper)?;
    let (absorbed, keeper) = taken_up(alloc, &text, limits)?;
    Ok(Copied {
        text,
        absorbed,
        keeper,
    })
}

/// What is exported of a journal.
fn exported<L: Listed>(alloc: Global, keeper: MemoryKeeper<L>) -> Result<Vec<u8>, KeepStop>
    ensures text { IfOk result (λ text. text.items ≡ export_text keeper.journal) }
    ensures lawful { OnOk result (All IsEntry (entries_of keeper.journal)) }
    ensures never_read { result ≢ Err ReadFailed }
{
    // Does nothing: from its contract the proof has that the database is sound.
    memory_is_sound();
    let mut conn = keeper.into_keeper().into_connection();
    let mut sink = VecSink::new(alloc);
    match L::list(&mut conn, alloc, Form::Canonical, &mut sink) {
        Ok(_) => Ok(sink.into_bytes()),
        Err(stop) => Err(stop_for(stop.code)),
    }
}

/// Why a listing into memory stopped, as a keeper's stop: its sink fails if memory is refused.
fn stop_for(code: Code) -> KeepStop
    ensures { result ≢ ReadFailed }
{
    match code {
        Code::StoreFailed => KeepStop::StoreFailed,
        _ => KeepStop::OutOfMemory,
    }
}

/// What became of a text in the empty journal of a new database, and that database.
fn taken_up<L: Layout>(
    alloc: Global,
    text: &[u8],
    limits: &Limits,
) -> Result<(Absorbed, MemoryKeeper<L>), KeepStop>
    ensures step { IfOk result (λ taken. TakesText limits.now text.now taken.0 taken.1.journal) }
    ensures never_read { result ≢ Err ReadFailed }
{
    let mut stream = Stream::new(alloc, SliceStream::new(text), *limits)?;
    let mut keeper = MemoryKeeper::new(alloc)?;
    let absorbed = keeper.absorb(&mut stream)?;
    Ok((absorbed, keeper))
}
