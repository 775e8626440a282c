//! How runs are shown: objects of JSON, explanations of what is refused or fails, and what a terminal gets.
#![tactic(auto)]

mod board;
mod cause;
mod explain;
mod noting;
mod objects;
mod terminal;
mod why;
mod witness;
mod words;

pub use board::{Board, Line, Unit, board_for};
pub use explain::explained;
pub use noting::Noting;
pub use objects::Json;
pub use terminal::{Masked, Wiping};
pub use words::{EXPLAIN, JSON, has_objects, take_option};
