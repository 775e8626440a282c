//! What may happen in a world.

use jc_base::Entry;

/// What may happen in a world. Machines, uploads, answers and a machine's saved resume points are numbered from 0, in
/// the order in which they came to be.
#[derive(Drop)]
pub enum Event {
    /// This machine has one more entry, at the end.
    Append(usize, Entry),
    /// This machine makes its next upload, an export stream of at most so many entries.
    Make(usize, u64),
    /// This machine makes its next upload, of at most so many entries, with a header of the second version. If it is
    /// to be whole, a collector takes all of it or nothing.
    Make2(usize, u64, bool),
    /// This machine makes an upload of a journal file with these bytes, which has to read without a fault as the first
    /// of its entries.
    MakeFile(usize, Vec<u8>),
    /// The first bytes of this upload, so many, reach the collector.
    Deliver(usize, usize),
    /// Bytes reach the collector that no machine made: they have no header that names the source of one.
    Alien(Vec<u8>),
    /// This answer reaches the machine that it names.
    Hand(usize),
    /// This machine goes back to one of its saved resume points.
    Restart(usize, usize),
}
