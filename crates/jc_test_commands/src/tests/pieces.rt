//! Bytes, as the pieces of `add_pieces` name them.

use jc_test_samples::add_pieces;
use std::alloc::Global;
use std::io;

/// The bytes of these pieces.
pub(super) fn bytes_of(alloc: Global, pieces: &str) -> io::Result<Vec<u8>> {
    let mut bytes = Vec::new(alloc);
    add_pieces(alloc, pieces, &mut bytes)?;
    Ok(bytes)
}
