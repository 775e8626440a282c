//! What the program's commands share: the system's files, which are read or replaced, failures and their lines, statuses,
//! and what is printed.
#![tactic(auto)]

mod failure;
mod file;
mod found;
mod ids;
mod lines;
mod names;
mod new_file;
mod out_buffer;
mod output;
mod outputs;
mod status;
mod system;
mod text;

pub use failure::Failure;
pub use file::{is_regular, open_file, read_front, read_whole};
pub use found::{Found, Hex, Upload};
pub use ids::source_id;
pub use lines::line_length;
pub use names::field_name;
pub use new_file::{UNFINISHED, create_file, folder_and_name, name_beside, put_in_place};
pub use out_buffer::{OutBuffer, buffer_room};
pub use output::{print_found, printed, write_front};
pub use outputs::{Errors, Output};
pub use status::Status;
pub use system::{Host, System};
pub use text::Text;
