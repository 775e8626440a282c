//! The values that every part of the collector speaks in: ids and keys, fields, limits, faults and entries.
#![tactic(auto)]

mod entry;
mod failure;
mod fault;
pub mod faulty;
mod field;
mod field_list;
mod field_ref;
mod fields;
mod from_read;
mod id;
mod limits;
mod list;
mod sink;
mod size;
mod slice_stream;
mod source;
mod stream;
mod text;
mod to_write;
mod vec_sink;

pub use entry::{Entry, NUMBER_END};
pub use failure::{OutOfMemory, ReadFailed, WriteFailed, count_failure};
pub use fault::{Code, Ending, Fault};
pub use field::{Field, split_pair};
pub use field_list::FieldList;
pub use field_ref::FieldRef;
pub use fields::Fields;
pub use from_read::FromRead;
pub use id::{Id128, Key};
pub use limits::Limits;
pub use list::ListSource;
pub use sink::{ByteSink, Written, write_all};
pub use slice_stream::SliceStream;
pub use source::{EntrySource, Step, Stop, final_answer, final_step};
pub use stream::ByteStream;
pub use text::is_text;
pub use to_write::ToWrite;
pub use vec_sink::VecSink;
