//! The calls of a file, which only proofs read.

ghost use Rattle.std.specs.Prelude.{◌≡◌, List, [], ◌∷◌};
ghost use Rattle.std.specs.Borrow.{ftrue};
ghost use Rattle.sqlite_disk.specs.Events.{Event};
ghost use Rattle.jc_sequences.specs.Noted.{event_of};

use std::marker::{Model, PhantomData};

/// The calls of a file with their answers: a value of no bytes, whose methods do nothing. Nothing ties the list to memory, so
/// `new` and `note` are proved by hand, and no other proof by hand makes or changes a `FileRecord`.
#[derive(Drop)]
pub struct FileRecord {
    marker: PhantomData<u8>,
    /// The newest call comes first.
    pub ghost events: { List Event },
}

impl Model for FileRecord {
    ghost also_owns = { λ _. ftrue };
}

impl FileRecord {
    /// There was none.
    pub(crate) fn new() -> FileRecord
        ensures { result.events ≡ [] }
    {
        FileRecord {
            marker: PhantomData,
        }
    }

    /// One call more: its number, an offset or a length, a count, and whether it succeeded, as 1; and its bytes.
    pub(crate) fn note(&mut self, _numbers: &[u64], _bytes: &[u8])
        ensures { self.new.events ≡ event_of _numbers.now _bytes.now ∷ self.old.events }
    {}
}
