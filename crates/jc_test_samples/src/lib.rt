//! Samples that tests share: bytes of entries, of uploads and their answers, and of journal files. No part of the program.
#![tactic(auto)]

mod answer;
mod devices;
mod entry;
mod file;
mod pieces;
mod upload;

pub use answer::answer_lines;
pub use devices::{Pieces, Slow};
pub use entry::{ENTRY, SEQNUM_ID};
pub use file::JOURNAL_FILE;
pub use pieces::add_pieces;
pub use upload::SOURCE_ID;
