//! Uploads in memory, collected into a database in memory.

use super::pieces::bytes_of;
use super::same::same_bytes;
use super::stored::check_stored;
use jc_base::{Limits, OutOfMemory, VecSink};
use jc_collect::{Delivery, RunEnd};
use jc_keeper::KeepStop;
use jc_schema_three::SchemaThree;
use jc_schema_two::SchemaTwo;
use jc_store::Layout;
use jc_test_samples::answer_lines;
use jc_theorems::{MemoryKeeper, Upload, collect, collect_anew};
use std::alloc::Global;
use std::process::Abort;
use std::test::Fail;

/// A whole run into a new journal. What calls this has nothing of `collect_anew`'s contract to prove with.
fn collected_anew<L: Layout>(
    alloc: Global,
    uploads: &[Upload<'_>],
    sink: &mut VecSink,
) -> Result<(RunEnd, MemoryKeeper<L>), KeepStop> {
    collect_anew(alloc, uploads, sink, &Limits::default())
}

/// A whole run into a journal that is there.
fn collected<L: Layout>(
    alloc: Global,
    keeper: &mut MemoryKeeper<L>,
    uploads: &[Upload<'_>],
    sink: &mut VecSink,
) -> Result<RunEnd, OutOfMemory> {
    collect(alloc, keeper, uploads, sink, &Limits::default())
}

/// Ends the test unless a run has come to its end and written these lines, with `S` for the source's id.
fn check_lines(
    rt: &(impl Abort + AllocGlobal),
    end: RunEnd,
    sink: &VecSink,
    short: &[&str],
) -> Result<(), Fail> {
    assert!(rt; matches!(end, RunEnd::Done));
    let wanted = answer_lines(rt.alloc(), short)?;
    same_bytes(rt, "answers", sink.bytes(), wanted.as_bytes());
    Ok(())
}

fn collect_first<L: Layout>(
    rt: &(impl Abort + AllocGlobal),
    uploads: &[Upload<'_>],
) -> Result<MemoryKeeper<L>, Fail> {
    let mut lines = VecSink::new(rt.alloc());
    let (end, keeper) = collected_anew(rt.alloc(), uploads, &mut lines)?;
    let wanted = ["ack S 0 1 1 0", "no S 0 60 2", "ack S 0 2 2 0"];
    check_lines(rt, end, &lines, &wanted)?;
    Ok(keeper)
}

fn collect_again<L: Layout>(
    rt: &(impl Abort + AllocGlobal),
    keeper: &mut MemoryKeeper<L>,
    uploads: &[Upload<'_>],
) -> Result<(), Fail> {
    let mut lines = VecSink::new(rt.alloc());
    let end = collected(rt.alloc(), keeper, uploads, &mut lines)?;
    let wanted = ["ack S 0 1 0 0", "no S 0 60 2", "ack S 0 2 0 0"];
    check_lines(rt, end, &lines, &wanted)
}

/// A whole run, and the same uploads once more.
fn collect_twice<L: Layout>(
    rt: &(impl Abort + AllocGlobal),
    uploads: &[Upload<'_>],
) -> Result<(), Fail> {
    let mut keeper = collect_first::<L>(rt, uploads)?;
    collect_again(rt, &mut keeper, uploads)?;
    check_stored(rt, &mut keeper.into_keeper(), "ENTRY ENTRY_2 ENTRY_3")
}

#[test]
fn uploads_are_collected_in_memory(rt: HostRuntime) -> Result<(), Fail> {
    let first = bytes_of(rt.alloc(), "head:1:0 ENTRY")?;
    let conflict = bytes_of(rt.alloc(), "head:1:0 ENTRY_2 ENTRY_3 CHANGED_ENTRY")?;
    let rest = bytes_of(rt.alloc(), "head:1:0 ENTRY_2 ENTRY_3")?;
    let uploads = [
        Delivery::Stream(first.as_slice()),
        Delivery::Space(conflict.as_slice()),
        Delivery::Stream(rest.as_slice()),
    ];
    collect_twice::<SchemaTwo>(&rt, &uploads)?;
    collect_twice::<SchemaThree>(&rt, &uploads)
}
