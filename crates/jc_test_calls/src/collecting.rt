//! Uploads that are collected into a journal, and entries of it.

use crate::operands::numbered;
use crate::output::{Output, write_line, write_run, write_text};
use crate::recorded::{Asked, RecordedSpace};
use jc_base::{Id128, Key, Limits, OutOfMemory, SliceStream, VecSink};
use jc_collect::{Delivery, collect_one, run};
use jc_export::canonical;
use jc_file::SliceSpace;
use jc_keeper::{KeepStop, Keeper};
use jc_test_samples::Pieces;
use std::alloc::Global;

/// So many bytes are given at each read of a stream.
pub const PIECE: usize = 7;

/// Collects an upload as a space, and writes the answer's line and what was asked of the space.
pub fn space<K: Keeper>(
    alloc: Global,
    keeper: &mut K,
    upload: &[u8],
    limits: &Limits,
    output: &mut Output,
) {
    let asked = Asked::from_place(0);
    let recorded = RecordedSpace::new(upload, upload.len() as u64, &asked);
    let mut delivery: Delivery<SliceStream<'_>, _> = Delivery::Space(recorded);
    let answer = collect_one(alloc, keeper, &mut delivery, limits);
    output.put(answer.line().bytes());
    asked.write_to(output)
}

/// Collects an upload as a stream, and writes the answer's line.
pub fn stream<K: Keeper>(
    alloc: Global,
    keeper: &mut K,
    upload: &[u8],
    limits: &Limits,
    output: &mut Output,
) {
    let mut delivery: Delivery<_, SliceSpace<'_>> = Delivery::Stream(Pieces {
        inner: SliceStream::new(upload),
        most: PIECE,
    });
    let answer = collect_one(alloc, keeper, &mut delivery, limits);
    output.put(answer.line().bytes())
}

/// Collects an upload by a run, and writes what the run wrote. Its sink takes memory: without it the run stops, and what was
/// written then is no line.
pub fn run_one<K: Keeper>(
    alloc: Global,
    keeper: &mut K,
    upload: &[u8],
    limits: &Limits,
    output: &mut Output,
) {
    let mut deliveries: [Delivery<SliceStream<'_>, _>; 1] = [Delivery::Space(SliceSpace {
        bytes: upload,
    })];
    let mut sink = VecSink::new(alloc);
    let end = run(alloc, keeper, &mut deliveries, &mut sink, limits);
    write_run(output, end, sink.bytes())
}

/// Writes the stored entry under a key, an id and a number with a colon between them.
pub fn get<K: Keeper>(alloc: Global, keeper: &mut K, named: &str, output: &mut Output) {
    let Some(key) = key_of(named) else {
        return output.no_meaning();
    };
    match keeper.get(&key) {
        Ok(None) => write_line(output, "entry none", &[]),
        Ok(Some(entry)) => write_text(output, "entry", canonical(alloc, &entry)),
        Err(KeepStop::OutOfMemory) => write_text(output, "entry", Err(OutOfMemory)),
        Err(_) => write_line(output, "entry failed", &[]),
    }
}

fn key_of(named: &str) -> Option<Key> {
    let (id, seqnum) = numbered(named)?;
    let seqnum_id = Id128::from_hex(id.as_bytes())?;
    Some(Key { seqnum_id, seqnum })
}
