//! What notes say: `notes` and `owners`, and whether an entry is the one that is noted.
#![tactic(auto)]

mod forgetting;
mod lines;
mod noted;
mod owners;
mod reading;
mod replacing;
mod texts;
mod verifying;

pub use forgetting::forget_after;
pub use noted::{NotesRead, say_noted};
pub use owners::{list_owners, release_sequence, rename_owner};
pub use verifying::verify_notes;
