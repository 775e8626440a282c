//! Uploads are taken up into a journal, whatever keeps it, and each is answered by a line that is printed.
#![tactic(auto)]

mod answer_sink;
mod answering;
mod grouped;
mod judged;
mod name_lines;
mod named;
mod printed;
mod ready_lines;
mod taking;
mod uploads;

pub use answering::answer_all;
pub use name_lines::NameLines;
pub use named::{answer_names, answer_names_within};
pub use ready_lines::ReadyLines;
pub use uploads::{Upload, open_upload, open_uploads};
