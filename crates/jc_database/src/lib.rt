//! A journal's database in files, from one run to the next: opened, closed, and what a crash leaves.
#![tactic(auto)]

mod any_store;
mod closing;
mod file_store;
mod law;
mod opening;
mod refused;
mod store_in_files;

pub use any_store::{OverFiles, over_files};
pub use closing::{FailedClose, close_keeper, sound_leaves_journals, stop_keeper};
pub use file_store::OpenDisk;
pub use law::{beginning_stays, new_files_are_usual};
pub use opening::{Databases, FailedOpen, open_files};
pub use refused::{close_refused, close_unmade};
pub use store_in_files::{OpenFromFiles, StoreInFiles};
