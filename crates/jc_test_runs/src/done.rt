//! What is done to files, kept for proofs alone.

ghost use Rattle.std.specs.Prelude.{◌≡◌, Some};
ghost use Rattle.jc_command_shared.specs.Deeds.{changes, opens, puts};
ghost use Rattle.jc_test_runs.specs.Done.{deed_of};

use jc_ledger_files::Record;

/// Something that was done to a file. Its paths and bytes take no memory, so that it can always be noted.
#[derive(Drop)]
pub(crate) enum Done {
    /// The database at this path was opened.
    Opened(Record<u8>),
    /// The file at this path was made, or taken away.
    Changed(Record<u8>),
    /// A new file got another path in place of its own, and had these bytes.
    Put {
        from: Record<u8>,
        path: Record<u8>,
        held: Record<u8>,
    },
}

impl Done {
    pub(crate) fn opened(path: &str) -> Done
        ensures { deed_of result ≡ opens path.now }
    {
        Done::Opened(recorded(path.as_bytes()))
    }

    pub(crate) fn changed(path: &str) -> Done
        ensures { deed_of result ≡ changes path.now }
    {
        Done::Changed(recorded(path.as_bytes()))
    }

    pub(crate) fn put(from: &str, path: &str, held: &[u8]) -> Done
        ensures { deed_of result ≡ puts from.now path.now (Some held.now) }
    {
        Done::Put {
            from: recorded(from.as_bytes()),
            path: recorded(path.as_bytes()),
            held: recorded(held),
        }
    }
}

fn recorded(bytes: &[u8]) -> Record<u8>
    ensures { result.items ≡ bytes.now }
{
    let mut kept = Record::new();
    for byte in bytes.iter().rev() {
        kept = kept.with(byte);
    }
    kept
}
