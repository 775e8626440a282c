//! The command line: what its arguments ask for, and what help says of it.
#![tactic(auto)]

mod arguments;
mod asked;
mod codes;
mod grammar;
mod making;
mod request;
mod texts;
mod words;

pub use codes::CODES;
pub use request::{InputKind, NotesTask, Request, Source, Tables};
pub use words::parse;
