//! SQLite's store, chosen for what can be done over any store in files.

use crate::file_store::OpenDisk;
use crate::store_in_files::OpenFromFiles;
use sqlite::{FileFrom, FileStore, Start};

/// Something that can be done over any store that is opened from a database's files.
pub trait OverFiles: Sized {
    /// What comes of it.
    type Outcome;

    // Holds of it and each outcome that it may have.
    ghost ends: { Self → Self.Outcome → Type 0 };

    /// Does it. `start` stands for what the files hold as they are opened.
    fn over<F: OpenFromFiles>(self, start: F::Start) -> Self::Outcome
        ensures { ends self result };
}

/// Does it over SQLite's store. Here alone the program chooses that store: a function that does is dear to prove.
pub fn over_files<S: Start, W: OverFiles>(work: W, start: S) -> W::Outcome
    ensures { W.ends work result }
{
    over_any_disk::<FileFrom<S>, W>(work, start)
}

/// The same over any disk. It stands alone, so that SQLite's store is named over a disk that is a parameter.
fn over_any_disk<D: OpenDisk, W: OverFiles>(work: W, start: D::Start) -> W::Outcome
    ensures { W.ends work result }
{
    work.over::<FileStore<D>>(start)
}
