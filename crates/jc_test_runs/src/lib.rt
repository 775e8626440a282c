//! Runs of the program's commands over databases and notes in files, of uploads that are told.
#![tactic(auto)]

mod done;
mod filled;
mod telling;
#[cfg(test)]
mod tests;

pub use filled::{with_entry, with_old_entry};
pub use telling::Telling;
