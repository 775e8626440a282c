//! One answer for each upload: deliveries are collected into a journal.
#![tactic(auto)]

mod body;
mod borrowed_device;
mod bounds;
mod chain;
mod collect;
mod complete;
mod delivery;
mod gather;
mod gathered;
mod head;
mod inspect;
mod law;
mod runs;
mod settled;
mod space_stream;
mod touched;
mod wide;

pub use bounds::Bounds;
pub use chain::{acknowledged_stored, chain_stored, each_stored, known_chain};
pub use collect::collect_one;
pub use complete::Whole;
pub use delivery::Delivery;
pub use gathered::Gathered;
pub use inspect::{Inspected, inspect_one};
pub use law::{one_answer, one_journal_stored, one_set_accepted};
pub use runs::{RunEnd, run};
pub use settled::collect_settled;
pub use wide::refuse_wide;
