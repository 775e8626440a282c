//! A system in memory that tells what its files have, and notes what is done to them: so what is proved over any system that
//! does so says something.
#![tactic(auto)]

mod machines;
mod memory;
mod noted;
mod samples;
#[cfg(test)]
mod tests;
mod windows;

pub use machines::Machines;
pub use memory::{Memory, MemoryFile, Told};
pub use noted::{Note, WrittenFile};
pub use samples::Samples;
pub use windows::Windows;
