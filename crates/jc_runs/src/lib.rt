//! From run to run: what any runs over databases that take turns leave behind them, and what goes for its age. No command
//! uses it.
#![tactic(auto)]

mod asked;
mod law;
mod next;
mod stopped;
mod worked;

pub use asked::run_as_step;
pub use law::runs_keep;
pub use next::{next_run, next_run_over_notes};
pub use stopped::stopped_run_as_step;
pub use worked::{BehindFour, run_behind_four};
