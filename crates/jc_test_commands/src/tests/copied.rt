//! A journal in memory, copied by what is exported of it.

use super::pieces::bytes_of;
use super::same::{same, same_bytes};
use jc_base::{Limits, VecSink};
use jc_collect::Delivery;
use jc_keeper::{Absorbed, KeepStop};
use jc_schema_two::SchemaTwo;
use jc_theorems::{Copied, MemoryKeeper, collect_anew, copy_journal};
use std::alloc::Global;
use std::process::Abort;
use std::test::Fail;

type Kept = MemoryKeeper<SchemaTwo>;

/// The journal of one upload. What calls this has nothing of `collect_anew`'s contract to prove with.
fn collected(alloc: Global, upload: &[u8]) -> Result<Kept, KeepStop> {
    let mut lines = VecSink::new(alloc);
    let uploads = [Delivery::Stream(upload)];
    let (_, keeper) = collect_anew(alloc, &uploads, &mut lines, &Limits::default())?;
    Ok(keeper)
}

/// Its copy. What calls this has nothing of `copy_journal`'s contract to prove with.
fn copied(alloc: Global, keeper: Kept) -> Result<Copied<SchemaTwo>, KeepStop> {
    copy_journal(alloc, keeper, &Limits::default())
}

/// What is exported of a journal.
fn exported(alloc: Global, keeper: Kept) -> Result<Vec<u8>, Fail> {
    let mut text = VecSink::new(alloc);
    keeper.into_keeper().export(&mut text)?;
    Ok(text.into_bytes())
}

/// Ends the test unless two entries were copied, and the same text is exported of both journals.
fn check_copy(
    rt: &(impl Abort + AllocGlobal),
    copy: Copied<SchemaTwo>,
    wanted: &[u8],
) -> Result<(), Fail> {
    let Copied {
        text,
        absorbed,
        keeper,
    } = copy;
    let all_new = Absorbed::Taken {
        count: 2,
        new: 2,
        left: 0,
    };
    same(rt, "taken up", &absorbed, &all_new);
    same_bytes(rt, "exported", &text, wanted);
    same_bytes(rt, "of the copy", &exported(rt.alloc(), keeper)?, wanted);
    Ok(())
}

#[test]
fn a_journal_in_memory_is_copied(rt: HostRuntime) -> Result<(), Fail> {
    let upload = bytes_of(rt.alloc(), "head:1:0 ENTRY ENTRY_2")?;
    let copy = copied(rt.alloc(), collected(rt.alloc(), &upload)?)?;
    check_copy(&rt, copy, &bytes_of(rt.alloc(), "ENTRY ENTRY_2")?)
}
