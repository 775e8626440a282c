//! A collector's commands: `inspect`, and over the journal in a database `collect`, `export`, `show`, `check` and
//! `migrate`.
#![tactic(auto)]

mod answered;
mod closing;
mod collecting;
mod comparing;
mod database;
mod earlier;
mod failed;
mod failures;
mod from_list;
mod health;
mod inspecting;
mod into_union;
mod listing;
mod migrating;
mod target;
mod then_export;
mod unopened;
mod uploads;

pub use answered::{Answered, answer_deliveries, answer_lines};
pub use closing::Closed;
pub use collecting::collect;
pub use comparing::{Comparison, check_noted};
pub use database::{Opened, OpenedFiles, open_or_make};
pub use failed::FailedCommand;
pub use from_list::collect_from_list;
pub use health::{Examined, Health, check};
pub use inspecting::inspect;
pub use into_union::{
    AnsweredUnion, FailedRun, NotedLeft, NotedRun, OpenStop, OpenedUnion, TableUnion,
    collect_into_union, join_open, open_union,
};
pub use listing::{export, show};
pub use migrating::migrate;
pub use unopened::Unopened;
