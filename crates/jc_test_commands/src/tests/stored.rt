//! What is stored in a journal.

use super::pieces::bytes_of;
use super::same::same_bytes;
use jc_base::{Id128, Key};
use jc_export::canonical;
use jc_keeper::Keeper;
use jc_test_samples::SEQNUM_ID;
use std::alloc::Global;
use std::process::Abort;
use std::test::Fail;

/// The canonical texts of the entries that are stored under the numbers 1 to 4, one after the other.
fn stored<K: Keeper>(alloc: Global, keeper: &mut K) -> Result<Vec<u8>, Fail> {
    let mut text = Vec::new(alloc);
    for seqnum in 1..=4 {
        add_stored(alloc, keeper, seqnum, &mut text)?;
    }
    Ok(text)
}

/// Adds the text of the entry with this number, if one is stored.
fn add_stored<K: Keeper>(
    alloc: Global,
    keeper: &mut K,
    seqnum: u64,
    text: &mut Vec<u8>,
) -> Result<(), Fail> {
    let seqnum_id = Id128(SEQNUM_ID);
    if let Some(entry) = keeper.get(&Key { seqnum_id, seqnum })? {
        text.extend_from_slice(&canonical(alloc, &entry)?)?;
    }
    Ok(())
}

/// Ends the test unless the entries with these canonical texts are stored under the numbers 1 to 4, and no others.
pub(super) fn check_stored<K: Keeper>(
    rt: &(impl Abort + AllocGlobal),
    keeper: &mut K,
    texts: &str,
) -> Result<(), Fail> {
    let found = stored(rt.alloc(), keeper)?;
    same_bytes(rt, "stored", &found, &bytes_of(rt.alloc(), texts)?);
    Ok(())
}
