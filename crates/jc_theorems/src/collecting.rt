//! Uploads in memory are collected into a journal in memory.

ghost use Rattle.std.specs.Prelude.{◌≡◌, ◌≢◌, Some, Err, map, IfOk, OnErr};
ghost use Rattle.std.specs.FinMap as finite;
ghost use Rattle.jc_keeper.specs.declared.keeper.KeepStop.TheVariants.{ReadFailed};
ghost use Rattle.jc_collect.specs.Delivered.{of_delivery};
ghost use Rattle.jc_collect.specs.Run.{SinkFailed};
ghost use Rattle.jc_theorems.specs.InMemory.{IsRunInMemory};

use crate::MemoryKeeper;
use jc_base::{ByteSink, ByteStream, Limits, OutOfMemory, SliceStream};
use jc_collect::{Delivery, RunEnd, run};
use jc_file::{ByteSpace, SliceSpace};
use jc_keeper::KeepStop;
use jc_store::Layout;
use std::alloc::Global;

/// The bytes of one upload, and whether they come as a stream or as a space.
pub type Upload<'a> = Delivery<&'a [u8], &'a [u8]>;

/// Collects uploads in order into a journal, which may have entries of earlier runs, and writes the lines of the answers.
/// If memory for the deliveries is refused, none was collected.
pub fn collect<L: Layout, W: ByteSink>(
    alloc: Global,
    keeper: &mut MemoryKeeper<L>,
    uploads: &[Upload<'_>],
    sink: &mut W,
    limits: &Limits,
) -> Result<RunEnd, OutOfMemory>
    ensures run { IfOk result (λ end.
        IsRunInMemory limits.now (map (of_delivery (λ b. b.now) (λ b. b.now)) uploads.now)
        keeper.old (W.written sink.old) end keeper.new (W.written sink.new)) }
    ensures stopped { IfOk result (SinkFailed (W.failures sink.old) (W.failures sink.new)) }
    ensures untouched { OnErr result (keeper.new ≡ keeper.old) }
    ensures unwritten { OnErr result (W.written sink.new ≡ W.written sink.old) }
{
    let mut deliveries = deliveries(alloc, uploads)?;
    Ok(run(alloc, keeper, &mut deliveries, sink, limits))
}

/// Collects uploads in order into the journal of a new database, and writes the lines of the answers.
pub fn collect_anew<L: Layout, W: ByteSink>(
    alloc: Global,
    uploads: &[Upload<'_>],
    sink: &mut W,
    limits: &Limits,
) -> Result<(RunEnd, MemoryKeeper<L>), KeepStop>
    ensures run { IfOk result (λ done.
        IsRunInMemory limits.now (map (of_delivery (λ b. b.now) (λ b. b.now)) uploads.now)
        (record { journal = finite.empty; failures = 0 }) (W.written sink.old) done.0 done.1 (W.written sink.new)) }
    ensures stopped { IfOk result (λ done. SinkFailed (W.failures sink.old) (W.failures sink.new) done.0) }
    ensures never_read { result ≢ Err ReadFailed }
{
    let mut keeper = MemoryKeeper::new(alloc)?;
    let end = collect(alloc, &mut keeper, uploads, sink, limits)?;
    Ok((end, keeper))
}

type InMemory<'a> = Delivery<SliceStream<'a>, SliceSpace<'a>>;

/// Uploads as deliveries, in their order.
fn deliveries<'a>(alloc: Global, uploads: &[Upload<'a>]) -> Result<Vec<InMemory<'a>>, OutOfMemory>
    ensures { IfOk result (λ deliveries.
        map (of_delivery ⟦<SliceStream<'a> as ByteStream>⟧.remaining ⟦<SliceSpace<'a> as ByteSpace>⟧.bytes) deliveries.items
        ≡ map (λ u. Some u) (map (of_delivery (λ b. b.now) (λ b. b.now)) uploads.now)) }
{
    let mut deliveries = Vec::new(alloc);
    for upload in uploads {
        deliveries.push(delivery(upload))?;
    }
    Ok(deliveries)
}

fn delivery<'a>(upload: &Upload<'a>) -> InMemory<'a>
    ensures { of_delivery ⟦<SliceStream<'a> as ByteStream>⟧.remaining ⟦<SliceSpace<'a> as ByteSpace>⟧.bytes result
        ≡ Some (of_delivery (λ b. b.now) (λ b. b.now) upload.now) }
{
    match upload {
        Delivery::Stream(bytes) => Delivery::Stream(SliceStream::new(bytes)),
        Delivery::Space(bytes) => Delivery::Space(SliceSpace { bytes }),
    }
}
