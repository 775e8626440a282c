//! The program's commands as one function: its arguments, its streams and its status.
#![tactic(auto)]

mod begun;
mod done;
mod note_folders;
mod notes;
mod run;

pub use begun::{Begun, BegunBy};
pub use note_folders::{NoteFolders, Sequences, UnopenedNotes};
pub use run::{Ended, command, run_command};
