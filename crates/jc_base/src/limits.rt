//! Limits on entries and files.

ghost use Rattle.std.specs.Prelude.{◌≡◌, ◌↔◌, IsTrue, IsSome, IfSome};
ghost use Rattle.jc_base.specs.LimitBounds.{AreLimits, IsBetween, AreDefaults};

const GREATEST: u64 = 1 << 40;

/// The most that is taken of an entry or a file, in bytes but for `fields`, which counts pairs. (own)
#[derive(Clone, Copy, Debug)]
pub struct Limits {
    /// Bytes of a name, at least 64.
    pub name: u64,
    /// Bytes of a value, at least 64.
    pub value: u64,
    /// Pairs of an entry, repeats included and metadata left out, at least 8.
    pub fields: u64,
    /// Bytes of the names and values of these pairs, at least 1,024.
    pub entry: u64,
    /// Bytes of a journal file, at least 208.
    pub file: u64,
    ghost lawful: { AreLimits name value fields entry file },
}

impl Limits {
    /// These limits; `None` if one is below its least value or above 2^40. Takes no memory.
    pub fn new(name: u64, value: u64, fields: u64, entry: u64, file: u64) -> Option<Limits>
        ensures lawful { IsSome result ↔ AreLimits name value fields entry file }
        ensures values { IfSome result (λ limits. (limits.name ≡ name) × (limits.value ≡ value)
            × (limits.fields ≡ fields) × (limits.entry ≡ entry) × (limits.file ≡ file)) }
    {
        if is_between(64, name)
            && is_between(64, value)
            && is_between(8, fields)
            && is_between(1024, entry)
            && is_between(208, file)
        {
            Some(Limits {
                name,
                value,
                fields,
                entry,
                file,
            })
        } else {
            None
        }
    }
}

impl Default for Limits {
    ghost is_default = { λ limits. AreDefaults limits.name limits.value limits.fields limits.entry limits.file };

    /// The limits of the programs: names of 1,024 bytes, values of 16 MiB, 4,096 fields, entries of 32 MiB and
    /// files of 1 GiB. Takes no memory.
    fn default() -> Limits {
        Limits {
            name: 1024,
            value: 16 << 20,
            fields: 4096,
            entry: 32 << 20,
            file: 1 << 30,
        }
    }
}

fn is_between(least: u64, limit: u64) -> bool
    ensures { IsTrue result ↔ IsBetween least limit }
{
    least <= limit && limit <= GREATEST
}
