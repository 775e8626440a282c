//! Theorems over databases, which no command uses. Over a database in memory: what is proved of a run, with nothing left
//! to assume, and of a world whose collector begins another database. Over files: what a run of `collect` leaves of them
//! that is stopped before it closes its database, and what the next run finds.
#![tactic(auto)]

mod collecting;
mod copying;
mod memory_keeper;
mod stopping;
mod turning;
mod union_stopping;
mod union_worlds;
mod worlds;

pub use collecting::{Upload, collect, collect_anew};
pub use copying::{Copied, copy_journal};
pub use memory_keeper::MemoryKeeper;
pub use stopping::{
    Stopped, collect_and_stop, collect_lines_and_stop, open_after_lines, open_after_stop,
};
pub use turning::turn_world;
pub use union_stopping::{StoppedUnion, collect_into_union_and_stop};
pub use union_worlds::{TurnedUnion, world_behind_a_turn};
pub use worlds::world_after;
