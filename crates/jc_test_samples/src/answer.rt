//! Answer lines.

use super::upload::SOURCE;
use std::alloc::{AllocError, Global};

/// The lines of answers, each given without its newline and with `S` for the id of the source, as in `ack S 0 1 1 0`.
pub fn answer_lines(alloc: Global, shorts: &[&str]) -> Result<String, AllocError> {
    let mut lines = String::new(alloc);
    for short in shorts {
        lines.push_str(short.replace(alloc, 'S', SOURCE)?.as_str())?;
        lines.push('\n')?;
    }
    Ok(lines)
}
