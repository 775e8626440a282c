//! The notes of sequences in the files of a folder.
#![tactic(auto)]

mod faults;
mod file_folder;
mod file_record;
mod found_file;
mod listing;
mod open_files;
mod opening;
mod placed;

pub use faults::{Fault, Faults};
pub use file_folder::{FileFolder, WindowFolder};
pub use file_record::FileRecord;
pub use found_file::FoundFile;
pub use listing::list_windows;
pub use open_files::WindowFile;
pub use opening::{FileSequences, Folders, open_sequences};
pub use placed::{Place, window_path};
