//! Uploads from devices that fail once, and runs over them.

use jc_base::faulty::{FailSink, FailStream};
use jc_base::{ByteSink, ByteStream, Limits, SliceStream, VecSink};
use jc_collect::{Delivery, RunEnd, collect_one, run};
use jc_file::faulty::FailSpace;
use jc_file::{ByteSpace, SliceSpace};
use jc_keeper::Keeper;
use jc_test_samples::{Pieces, Slow};
use jc_upload::Answer;
use std::alloc::Global;

/// An upload that comes as a stream or as a space. Either fails once.
pub type Upload<'a> = Delivery<FailStream<Pieces<SliceStream<'a>>>, FailSpace<SliceSpace<'a>>>;

/// An upload from a device that fails after so many reads: a stream that gives at most so many bytes at each of them, or,
/// if that is none, a space.
pub fn delivered(bytes: &[u8], most: u64, passes: u64) -> Upload<'_> {
    match most {
        0 => Delivery::Space(FailSpace::new(SliceSpace { bytes }, passes)),
        _ => {
            let inner = SliceStream::new(bytes);
            let most = (most as usize).max(1);
            Delivery::Stream(FailStream::new(Pieces { inner, most }, passes))
        }
    }
}

/// What an upload is answered with. What calls this has nothing of `collect_one`'s contract to prove with, so it is proved
/// in less time.
pub fn collect_delivery<K: Keeper, R: ByteStream, B: ByteSpace>(
    alloc: Global,
    keeper: &mut K,
    delivery: &mut Delivery<R, B>,
    limits: &Limits,
) -> Answer {
    collect_one(alloc, keeper, delivery, limits)
}

/// What a run prints. What calls this has nothing of `run`'s contract to prove with.
fn collect_deliveries<K: Keeper, R: ByteStream, B: ByteSpace, W: ByteSink>(
    alloc: Global,
    keeper: &mut K,
    deliveries: &mut [Delivery<R, B>],
    sink: &mut W,
    limits: &Limits,
) -> RunEnd {
    run(alloc, keeper, deliveries, sink, limits)
}

/// How a run over uploads ends, to a sink that takes one byte at each write and fails after so many, and what it took.
pub fn collect_all<K: Keeper>(
    alloc: Global,
    keeper: &mut K,
    uploads: &mut [Upload<'_>],
    passes: u64,
    limits: &Limits,
) -> (RunEnd, Vec<u8>) {
    let inner = Slow {
        inner: VecSink::new(alloc),
    };
    let mut sink = FailSink::new(inner, passes);
    let end = collect_deliveries(alloc, keeper, uploads, &mut sink, limits);
    (end, sink.inner.inner.into_bytes())
}
