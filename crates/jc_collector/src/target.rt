//! Where uploads go.

use jc_command_args::Tables;

/// The database that uploads go to, and the file that its journal goes to after them.
#[derive(Drop)]
pub(crate) struct Target<'a, S> {
    /// Where the store starts from.
    pub(crate) start: S,
    pub(crate) database: &'a str,
    /// The tables that it is made in if there is none.
    pub(crate) tables: Tables,
    /// The path of that file, if there shall be one.
    pub(crate) then_export: Option<&'a str>,
}
