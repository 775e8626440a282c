//! A machine's commands: how a file reads, the next upload of a source, and how far answers move the source on.
#![tactic(auto)]

mod acknowledge;
mod answers;
mod decided;
mod entries;
mod input_source;
mod next_upload;
mod resume_file;
mod source;
mod verdict;
mod within;

pub use acknowledge::ack;
pub use decided::acknowledged;
pub use entries::{all_entries, count_entries};
pub use input_source::InputSource;
pub use next_upload::upload;
pub use verdict::verify;
