//! What the lines of a list of uploads are.

ghost use Rattle.std.specs.Option.{option_map};
ghost use Rattle.jc_collector_answers.specs.Named.{HasParts};

use memchr::memchr;

/// What each line of a list has.
#[derive(Clone, Copy, Debug, PartialEq, Eq)]
pub enum NameLines {
    /// The name of an upload.
    Uploads,
    /// The machine that brings an upload, a tab, and the upload's name. A line without a tab is a name alone.
    MachinesAndUploads,
}

impl NameLines {
    /// The machine that a line names, if it names one, and the upload. Takes no memory.
    pub fn parts(self, line: &[u8]) -> (Option<&[u8]>, &[u8])
        ensures { HasParts self line.now (option_map (λ machine. machine.now) result.0) result.1.now }
    {
        match self {
            NameLines::Uploads => (None, line),
            NameLines::MachinesAndUploads => match memchr(b'\t', line) {
                Some(at) => (Some(&line[..at]), &line[at + 1..]),
                None => (None, line),
            },
        }
    }
}
