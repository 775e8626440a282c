//! Uploads are taken up one after the other, stored together, and then answered.

ghost use Rattle.std.specs.Prelude.{◌≡◌, ◌++◌, ◌∷◌, [], IsTrue, OnErr, OnOk, map};
ghost use Rattle.jc_collect.specs.Delivered.{of_delivery};
ghost use Rattle.jc_collect.specs.Each.{NoneAcknowledged};
ghost use Rattle.jc_collect.specs.Gathered.{answers_in};
ghost use Rattle.jc_collect.specs.Settled.{withdrawn};
ghost use Rattle.jc_collect.specs.Together.{HasSettled, TakesUp};

use crate::Delivery;
use crate::collect::collect_one;
use crate::settled::withdrawn;
use jc_base::{ByteStream, Limits, OutOfMemory};
use jc_file::ByteSpace;
use jc_keeper::{KeepStop, Keeper};
use jc_upload::Answer;
use std::alloc::Global;

/// With so many bytes uploads are stored before another one is taken up.
const MOST_BYTES: u64 = 4 << 20;

/// The answers to uploads, in their order. What they acknowledge may wait to be stored, until they settle.
#[derive(Drop)]
pub struct Gathered {
    answers: Vec<Answer>,
    /// How many bytes the uploads have, up to 2^64 - 1.
    bytes: u64,
}

impl Gathered {
    /// None. Takes no memory.
    pub fn new(alloc: Global) -> Gathered
        ensures { answers_in result ≡ [] }
    {
        Gathered {
            answers: Vec::new(alloc),
            bytes: 0,
        }
    }

    pub fn answers(&self) -> &[Answer]
        ensures { result.now ≡ answers_in self.now }
    {
        self.answers.as_slice()
    }

    /// Whether so much may wait in memory that it is to be stored before another upload is taken up.
    pub fn is_full(&self) -> bool {
        self.bytes >= MOST_BYTES
    }

    /// Takes an upload up as `collect_one` does, and keeps its answer. If there is no room for that, nothing is read.
    pub fn take<K: Keeper, R: ByteStream, B: ByteSpace>(
        &mut self,
        alloc: Global,
        keeper: &mut K,
        delivery: &mut Delivery<R, B>,
        limits: &Limits,
    ) -> Result<(), OutOfMemory>
        ensures took { OnOk result (TakesUp K.Keeper limits.now (of_delivery R.remaining B.bytes delivery.old) keeper.old keeper.new
            (answers_in self.old) (answers_in self.new)) }
        ensures untouched { OnErr result (keeper.new ≡ keeper.old) }
        ensures unread { OnErr result (delivery.new ≡ delivery.old) }
        ensures others { OnErr result (answers_in self.new ≡ answers_in self.old) }
    {
        self.answers.reserve(1)?;
        self.bytes = self.bytes.saturating_add(size_of(delivery));
        let answer = collect_one(alloc, keeper, delivery, limits);
        self.answers.push_reserved(answer);
        Ok(())
    }

    /// Keeps the answer to an upload of which nothing is taken up.
    pub fn put(&mut self, answer: Answer) -> Result<(), OutOfMemory>
        ensures put { OnOk result (answers_in self.new ≡ answers_in self.old ++ answer ∷ []) }
        ensures others { OnErr result (answers_in self.new ≡ answers_in self.old) }
    {
        self.answers.push(answer)?;
        Ok(())
    }

    /// Stores in one call what is acknowledged. If that fails, each that would have been acknowledged, or refused for a
    /// conflict, is answered `No` with the code of the failure, and place 0. Where none is acknowledged nothing waits, and
    /// nothing is done.
    pub fn settle<K: Keeper>(&mut self, keeper: &mut K)
        ensures { HasSettled K.Keeper keeper.old keeper.new (answers_in self.old) (answers_in self.new) }
    {
        if !is_any_acknowledged(self.answers.as_slice()) {
            return;
        }
        if let Err(stop) = keeper.settle() {
            withdraw_each(stop, self.answers.as_mut_slice());
        }
    }

    /// Forgets the answers.
    pub fn clear(&mut self)
        ensures { answers_in self.new ≡ [] }
    {
        self.answers.clear();
        self.bytes = 0;
    }
}

/// How many bytes an upload has. Of a stream that isn't known, and it may be large.
fn size_of<R: ByteStream, B: ByteSpace>(delivery: &Delivery<R, B>) -> u64 {
    match delivery {
        Delivery::Stream(_) => MOST_BYTES,
        Delivery::Space(space) => space.len(),
    }
}

/// Whether one of these answers acknowledges.
fn is_any_acknowledged(answers: &[Answer]) -> bool
    ensures none { ¬ IsTrue result → NoneAcknowledged answers.now }
    ensures any { IsTrue result → NoneAcknowledged answers.now → ⊥ }
{
    for answer in answers {
        match answer {
            Answer::Ack { .. } => return true,
            Answer::No { .. } => {}
        }
    }
    false
}

/// Answers each upload that it can't be stored.
fn withdraw_each(stop: KeepStop, answers: &mut [Answer])
    ensures { answers.new ≡ map (withdrawn stop) answers.old }
{
    for answer in answers.iter_mut() {
        *answer = withdrawn(stop, *answer);
    }
}
