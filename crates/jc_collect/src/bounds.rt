//! Bounds on what an upload has.

ghost use Rattle.std.specs.Prelude.{◌≡◌, ◌⊎◌, ◌+◌, ◌<◌, ◌≤◌, [], ◌∷◌, MatchOption};
ghost use Rattle.jc_base.specs.Pair.{weight};
ghost use Rattle.jc_collect.specs.Bounds.{AreFew, IsLeft};

use jc_base::{Entry, FieldRef};

/// The most that an upload may have in its body: entries, fields of all of them, bytes of the names and values of these
/// fields, and windows of sequences that it touches. What entries of a journal file share counts for each of them. (own)
#[derive(Clone, Copy, Debug)]
pub struct Bounds {
    pub entries: u64,
    pub fields: u64,
    pub bytes: u64,
    pub windows: u64,
}

impl Bounds {
    /// What is left of the bounds behind an entry, but for windows; `None` if it passes one of the others. Takes no memory.
    pub(crate) fn behind(self, entry: &Entry) -> Option<Bounds>
        ensures { MatchOption result (¬ AreFew self (entry.now ∷ [])) (IsLeft self (entry.now ∷ [])) }
    {
        let entries = self.entries.checked_sub(1)?;
        let mut left = Bounds { entries, ..self };
        for field in entry.fields() {
            left = left.behind_field(&field)?;
        }
        Some(left)
    }

    /// The same of an entry with which so many windows are touched.
    pub(crate) fn behind_within(
        self,
        entry: &Entry,
        windows: u64,
        most_windows: u64,
    ) -> Option<Bounds>
        ensures { MatchOption result ((most_windows < windows) ⊎ ¬ AreFew self (entry.now ∷ []))
            (λ left. IsLeft self (entry.now ∷ []) left × (windows ≤ most_windows)) }
    {
        if windows > most_windows {
            return None;
        }
        self.behind(entry)
    }

    /// What is left of the bounds behind a field; `None` if it passes one of them.
    fn behind_field(self, field: &FieldRef<'_>) -> Option<Bounds>
        ensures { MatchOption result ((self.fields < 1) ⊎ (self.bytes < weight field.now))
            (λ left. (left.entries ≡ self.entries) × (left.fields + 1 ≡ self.fields) × (left.bytes + weight field.now ≡ self.bytes)) }
    {
        let fields = self.fields.checked_sub(1)?;
        let behind_name = self.bytes.checked_sub(field.name().len() as u64)?;
        let bytes = behind_name.checked_sub(field.value().len() as u64)?;
        Some(Bounds {
            fields,
            bytes,
            ..self
        })
    }
}
