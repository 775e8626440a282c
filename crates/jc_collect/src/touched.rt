//! Which windows of sequences entries are in.

ghost use Rattle.std.specs.Prelude.{◌≡◌, [], length, IfOk, OnOk};
ghost use Rattle.std.specs.BTreeSet.{insert_key};
ghost use Rattle.jc_base.specs.Journal.{key_cmp};
ghost use Rattle.jc_collect.specs.Touched.{window_of};

use jc_base::{Entry, Key, OutOfMemory};
use std::alloc::Global;
use std::collections::BTreeSet;

/// How many numbers of a sequence are in a window.
const WINDOW: u64 = 4096;

/// The windows that entries are in, each as a key whose number is the window's.
#[derive(Drop)]
pub(crate) struct Touched {
    windows: BTreeSet<Key>,
}

impl Touched {
    /// None. Takes no memory.
    pub(crate) fn new(alloc: Global) -> Touched
        ensures { result.windows.keys ≡ [] }
    {
        Touched {
            windows: BTreeSet::new(alloc),
        }
    }

    /// One entry more. Answers how many windows there are then.
    pub(crate) fn touch(&mut self, entry: &Entry) -> Result<u64, OutOfMemory>
        ensures windows { OnOk result (self.new.windows.keys ≡ insert_key key_cmp self.old.windows.keys (window_of entry.now)) }
        ensures count { IfOk result (λ count. count ≡ length self.new.windows.keys) }
    {
        let mut window = entry.key();
        window.seqnum /= WINDOW;
        self.windows.insert(window)?;
        Ok(self.windows.len() as u64)
    }
}
