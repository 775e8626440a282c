//! What the table of codes says of one of them.
#![tactic(auto)]

mod table;

pub use table::{Coded, row_about};
