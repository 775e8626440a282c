//! What an upload needs of a source's entries, gathered one by one.

ghost use Rattle.std.specs.Prelude.{◌≡◌, ◌≢◌, ◌+◌, ◌<◌, ◌≤◌, ◌^◌, ◌++◌, ◌∷◌, [], ℕ, Some, length, OnOk};
ghost use Rattle.jc_base.specs.LogEntry.{IsEntry};

use jc_base::{Entry, Key, OutOfMemory};
use std::alloc::Global;

/// How many entries a source has, and which of them an upload carries that starts behind a position.
#[derive(Debug, Drop)]
pub struct Excerpt {
    /// How many entries there are.
    pub count: u64,
    /// The key of the last one before the position.
    pub before: Option<Key>,
    /// Those behind it, the first of them if there are more than the upload may carry.
    pub carried: Vec<Entry>,
}

impl Excerpt {
    ghost use Rattle.jc_upload.specs.Excerpt.{IsExcerpt};

    /// The excerpt of no entries. Takes no memory.
    pub(crate) fn new(alloc: Global) -> Excerpt
        ensures none { (position limit : ℕ) → IsExcerpt position limit [] result }
        ensures count { result.count ≡ 0 }
    {
        Excerpt {
            count: 0,
            before: None,
            carried: Vec::new(alloc),
        }
    }

    /// Takes one more entry.
    pub(crate) fn take(
        &mut self,
        position: u64,
        limit: u64,
        entry: Entry,
    ) -> Result<(), OutOfMemory>
        requires { self.old.count + 1 < 2 ^ 64 }
        ensures lawful { IsEntry entry }
        ensures count { OnOk result (self.new.count ≡ self.old.count + 1) }
        ensures key { OnOk result (self.old.count + 1 ≡ position → self.new.before ≡ Some entry.key) }
        ensures other { OnOk result (self.old.count + 1 ≢ position → self.new.before ≡ self.old.before) }
        ensures carried { OnOk result (position ≤ self.old.count → length self.old.carried.items < limit
            → self.new.carried.items ≡ self.old.carried.items ++ entry ∷ []) }
        ensures early { OnOk result (self.old.count < position → self.new.carried.items ≡ self.old.carried.items) }
        ensures full { OnOk result (limit ≤ length self.old.carried.items → self.new.carried.items ≡ self.old.carried.items) }
    {
        let key = entry.key();
        self.count += 1;
        if self.count == position {
            self.before = Some(key);
        }
        if self.count > position && (self.carried.len() as u64) < limit {
            self.carried.push(entry)?;
        }
        Ok(())
    }
}
