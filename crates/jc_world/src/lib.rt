//! Machines and the collector that they send to, together: what holds after every order of events.
#![tactic(auto)]

mod event;
mod given;
mod law;
mod machine;
mod parts;
mod world;

pub use event::Event;
pub use law::{events_keep, schedules_keep};
pub use parts::Machines;
pub use world::{Progress, World};
