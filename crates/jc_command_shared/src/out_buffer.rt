//! A buffer in front of a writer.

ghost use Rattle.std.specs.Prelude.{◌≡◌, ◌∷◌, [], ◌≤◌, ◌<◌, ◌+◌, IsTrue, IfOk, IfErr, IfSome, length, drop, vec_len, vec_capacity};
ghost use Rattle.std.specs.Io.KnownBytes.{Keeps, append_known};
ghost use Rattle.jc_command_shared.specs.Output.{LacksEnd};

use crate::Failure;
use crate::output::write_front;
use jc_base::{ByteSink, WriteFailed, count_failure};
use std::alloc::Global;
use std::io::Write;

/// The most bytes that are held back.
const ROOM: usize = 8192;

/// Holds bytes back from a writer until there are many. Unlike std's `BufWriter` it has a contract that says that its end
/// gives back the very writer.
#[derive(Drop)]
pub struct OutBuffer<'a, O: Write> {
    output: &'a mut O,
    held: Vec<u8>,
    /// How many of the bytes in `held` the writer has taken already.
    passed: usize,
    failures: u64,
    ghost within: { passed ≤ length held.items },
    ghost room: { 0 < vec_capacity held },
}

/// Memory for the bytes that a buffer holds back.
pub fn buffer_room<'a>(alloc: Global) -> Result<Vec<u8>, Failure<'a>>
    ensures empty { IfOk result (λ held. held.items ≡ []) }
    ensures room { IfOk result (λ held. 0 < vec_capacity held) }
    ensures failed { IfErr result (λ failure. failure ≡ Failure.OutOfMemory) }
{
    match Vec::with_capacity(alloc, ROOM) {
        Ok(held) => Ok(held),
        Err(_) => Err(Failure::OutOfMemory),
    }
}

impl<'a, O: Write> OutBuffer<'a, O> {
    /// A buffer that holds bytes back in `held`.
    #[tactic(auto, using(crate::proofs::Buffering::nothing_held))]
    pub fn new(output: &'a mut O, held: Vec<u8>) -> OutBuffer<'a, O>
        requires empty { held.items ≡ [] }
        requires room { 0 < vec_capacity held }
        ensures written { ⟦<OutBuffer<'a, O> as ByteSink>⟧.written result ≡ O.contents output.old }
        ensures borrowed_device { ⟦<OutBuffer<'a, O> as ByteSink>⟧.borrowed_device result ≡ output.entry.ghost_name ∷ [] }
    {
        OutBuffer {
            output,
            held,
            passed: 0,
            failures: 0,
        }
    }

    /// Passes on all that is held, and answers the writer, and whether it took all.
    #[tactic(auto, using(crate::proofs::Buffering::kept_whole, crate::proofs::Buffering::lacks_held))]
    pub fn end(mut self) -> (&'a mut O, bool)
        ensures borrowed_device { result.0.ghost_name ∷ [] ≡ ⟦<OutBuffer<'a, O> as ByteSink>⟧.borrowed_device self.entry }
        ensures whole { IsTrue result.1 → Keeps (⟦<OutBuffer<'a, O> as ByteSink>⟧.written self.entry) (O.contents result.0.now) }
        ensures front { LacksEnd (⟦<OutBuffer<'a, O> as ByteSink>⟧.written self.entry) (O.contents result.0.now) }
    {
        let passed = self.pass_on();
        let OutBuffer {
            output,
            held: _,
            passed: _,
            failures: _,
        } = self;
        (output, passed)
    }

    /// Passes on what is held, and answers whether the writer took all.
    #[tactic(auto, using(crate::proofs::Buffering::passed_on, crate::proofs::Buffering::passed_all))]
    fn pass_on(&mut self) -> bool
        ensures written { Keeps (⟦<OutBuffer<'a, O> as ByteSink>⟧.written self.old) (⟦<OutBuffer<'a, O> as ByteSink>⟧.written self.new) }
        ensures all { IsTrue result → self.new.held.items ≡ [] }
        ensures failures { self.new.failures ≡ self.old.failures }
        ensures same_reference { self.new.output.ghost_name ≡ self.old.output.ghost_name }
    {
        self.passed += write_front(self.output, &self.held[self.passed..]);
        if self.passed < self.held.len() {
            return false;
        }
        self.held.clear();
        self.passed = 0;
        true
    }

    /// How many of so many bytes there is room for. If there isn't for all of them, what is held is passed on first; `None`
    /// if the writer doesn't take it.
    fn room_for(&mut self, wanted: usize) -> Option<usize>
        ensures written { Keeps (⟦<OutBuffer<'a, O> as ByteSink>⟧.written self.old) (⟦<OutBuffer<'a, O> as ByteSink>⟧.written self.new) }
        ensures within { IfSome result (λ count. count ≤ wanted) }
        ensures some { IfSome result (λ count. 0 < wanted → 0 < count) }
        ensures room { IfSome result (λ count. vec_len self.new.held + count ≤ vec_capacity self.new.held) }
        ensures failures { self.new.failures ≡ self.old.failures }
        ensures same_reference { self.new.output.ghost_name ≡ self.old.output.ghost_name }
    {
        if wanted <= self.held.capacity() - self.held.len() {
            return Some(wanted);
        }
        if !self.pass_on() {
            return None;
        }
        Some(wanted.min(self.held.capacity()))
    }
}

impl<O: Write> ByteSink for OutBuffer<'_, O> {
    ghost written = { λ s. append_known (O.contents s.output.now) (drop s.passed s.held.items) };

    ghost failures = { λ s. s.failures };

    ghost borrowed_device = { λ s. s.output.ghost_name ∷ [] };

    #[tactic(auto, using(crate::proofs::Buffering::taken))]
    fn write(&mut self, piece: &[u8]) -> Result<usize, WriteFailed> {
        let Some(count) = self.room_for(piece.len()) else {
            count_failure(&mut self.failures);
            return Err(WriteFailed);
        };
        self.held.extend_from_slice(&piece[..count]).unwrap();
        Ok(count)
    }
}
