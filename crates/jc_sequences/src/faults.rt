//! What failed of the notes of sequences.

use std::cell::Cell;
use std::io::ErrorKind;

/// A file of notes, or their folder, that failed, and the kind of the system's error.
#[derive(Drop)]
pub struct Fault {
    pub path: String,
    pub kind: ErrorKind,
}

/// The fault that was noted last, for whoever says why a run failed.
#[derive(Drop)]
pub struct Faults {
    last: Cell<Option<Fault>>,
}

impl Faults {
    /// None is noted.
    pub fn new() -> Faults {
        Faults {
            last: Cell::new(None),
        }
    }

    /// The fault that was noted last. From here on none is.
    pub(crate) fn take(&self) -> Option<Fault> {
        self.last.replace(None)
    }

    /// Notes that what has this path failed. Without memory for the path nothing is noted.
    pub(crate) fn note(&self, path: Option<String>, kind: ErrorKind) {
        if let Some(path) = path {
            self.last.set(Some(Fault { path, kind }));
        }
    }
}
