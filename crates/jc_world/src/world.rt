//! A world of machines and one collector.

ghost use Rattle.std.specs.Prelude.{◌≡◌, ◌↔◌, ◌≤◌, ◌<◌, IfOk, IfSome, IsSome, IsTrue, None, OnErr, OnOk, length, map, slice_get, take};
ghost use Rattle.std.specs.Option.{option_map};
ghost use Rattle.jc_base.specs.declared.failure.OutOfMemory.{OutOfMemory};
ghost use Rattle.jc_world.specs.Kept.{IsKept};
ghost use Rattle.jc_world.specs.Schedule.{Grows, StoresAccepted, TakesEach};
ghost use Rattle.jc_world.specs.State.{AreDistinct, new_machine, new_state};
ghost use Rattle.jc_world.specs.Event.{Appends, Delivers, DeliversAlien, Hands, Happens, Makes, Makes2, MakesFile, Restarts, named};
ghost use Rattle.jc_world.specs.Stepped.{AddsAnswers, IsAnswered, Steps};
ghost use Rattle.jc_world.specs.World.{answers_of, keeper_of, limits_of, state_of};

use crate::given::{is_alien, place_of, reads_front};
use crate::machine::Machine;
use crate::{Event, events_keep, schedules_keep};
use jc_base::{Entry, Id128, Limits, OutOfMemory, SliceStream};
use jc_collect::{Delivery, collect_settled};
use jc_file::SliceSpace;
use jc_keeper::Keeper;
use jc_upload::{Answer, Resume};
use std::alloc::Global;

/// Machines that send their entries, and the collector that they send them to, with everything that was ever made or
/// answered: any order of events can be tried on it.
#[derive(Drop)]
pub struct World<K> {
    pub(crate) keeper: K,
    pub(crate) machines: Vec<Machine>,
    pub(crate) uploads: Vec<Vec<u8>>,
    pub(crate) answers: Vec<Answer>,
    pub(crate) limits: Limits,
    pub(crate) alloc: Global,
}

/// How far a run came.
#[derive(Clone, Copy, Debug, PartialEq, Eq)]
pub struct Progress {
    /// How many events were taken, those that answered false too.
    pub taken: usize,
    /// Why the next one wasn't.
    pub refusal: Option<OutOfMemory>,
}

impl<K: Keeper + Drop> World<K> {
    /// A machine without entries for each of these sources, and a collector with this keeper. `None` if two of the ids
    /// are equal. If there is no world, the keeper is dropped.
    pub fn new(
        alloc: Global,
        keeper: K,
        sources: Vec<Id128>,
        limits: Limits,
    ) -> Result<Option<World<K>>, OutOfMemory>
        ensures distinct { IfOk result (λ found. IsSome found ↔ AreDistinct sources.items) }
        ensures state { IfOk result (λ found. IfSome found (λ world.
            state_of K.journal world ≡ new_state sources.items (K.journal keeper))) }
        ensures keeper { IfOk result (λ found. IfSome found (λ world. keeper_of world ≡ keeper)) }
        ensures limits { IfOk result (λ found. IfSome found (λ world. limits_of world ≡ limits)) }
        ensures kept { IfOk result (λ found. IfSome found (λ world. IsKept limits (state_of K.journal world))) }
    {
        // Does nothing: from its contract the proof has what holds of a new world.
        events_keep();
        if !are_distinct(&sources) {
            return Ok(None);
        }
        let machines = new_machines(alloc, &sources)?;
        Ok(Some(World {
            keeper,
            machines,
            uploads: Vec::new(alloc),
            answers: Vec::new(alloc),
            limits,
            alloc,
        }))
    }

    /// A machine's entries; `None` if there is no such machine. Takes no memory.
    pub fn entries(&self, machine: usize) -> Option<&[Entry]>
        ensures { option_map (λ entries. entries.now) result
            ≡ option_map (λ m. m.entries) (slice_get (state_of K.journal self.now).machines machine) }
    {
        let machine = self.machines.get(machine)?;
        Some(machine.entries())
    }

    /// A machine's resume point; `None` if there is no such machine. Takes no memory.
    pub fn resume(&self, machine: usize) -> Option<&Resume>
        ensures { option_map (λ point. point.now) result
            ≡ option_map (λ m. m.sender.point) (slice_get (state_of K.journal self.now).machines machine) }
    {
        let machine = self.machines.get(machine)?;
        Some(machine.resume())
    }

    /// The resume points that a machine saved, the first being position 0; `None` if there is no such machine. Takes no
    /// memory.
    pub fn saved(&self, machine: usize) -> Option<&[Resume]>
        ensures { option_map (λ saved. saved.now) result
            ≡ option_map (λ m. m.saved) (slice_get (state_of K.journal self.now).machines machine) }
    {
        let machine = self.machines.get(machine)?;
        Some(machine.saved())
    }

    /// Every upload that a machine made, in order. Takes no memory.
    pub fn uploads(&self) -> &[Vec<u8>]
        ensures { map (λ upload. upload.items) result.now ≡ (state_of K.journal self.now).uploads }
    {
        &self.uploads
    }

    /// Every answer that the collector gave, in order. Takes no memory.
    pub fn answers(&self) -> &[Answer]
        ensures { result.now ≡ (state_of K.journal self.now).answers }
    {
        &self.answers
    }

    /// The collector's keeper. Takes no memory.
    pub fn keeper(&self) -> &K
        ensures { result.now ≡ keeper_of self.now }
    {
        &self.keeper
    }

    /// The collector's keeper, and nothing else of the world. Takes no memory.
    pub fn into_keeper(self) -> K
        ensures { result ≡ keeper_of self }
    {
        let World { keeper, .. } = self;
        keeper
    }

    /// Takes events in order, those that answer false too. It stops at a refusal alone.
    pub fn run(&mut self, events: &[Event]) -> Progress
        ensures each { K.sound (keeper_of self.new) → K.made (keeper_of self.old)
            → TakesEach (limits_of self.old) (state_of K.journal self.old) (take result.taken events.now)
            (state_of K.journal self.new) }
        ensures within { result.taken ≤ length events.now }
        ensures all { result.refusal ≡ None → result.taken ≡ length events.now }
        ensures refused { IsSome result.refusal → result.taken < length events.now }
        ensures kept { K.sound (keeper_of self.new) → K.made (keeper_of self.old)
            → IsKept (limits_of self.old) (state_of K.journal self.old)
            → IsKept (limits_of self.old) (state_of K.journal self.new) }
        ensures grows { K.sound (keeper_of self.new) → K.made (keeper_of self.old)
            → Grows (state_of K.journal self.old) (state_of K.journal self.new) }
        ensures stored { K.sound (keeper_of self.new) → K.made (keeper_of self.old)
            → StoresAccepted (limits_of self.old) (state_of K.journal self.old) (take result.taken events.now)
            (state_of K.journal self.new) }
        ensures answers { AddsAnswers (answers_of self.old) (answers_of self.new)
            (K.failures (keeper_of self.old)) (K.failures (keeper_of self.new)) }
        ensures before { K.sound (keeper_of self.new) → K.sound (keeper_of self.old) }
        ensures made { K.made (keeper_of self.old) → K.made (keeper_of self.new) }
        ensures settled { K.settled (keeper_of self.old) → K.settled (keeper_of self.new) }
        ensures limits { limits_of self.new ≡ limits_of self.old }
    {
        // Does nothing: from its contract the proof has what holds after any events.
        schedules_keep();
        self.take_each(events)
    }

    fn take_each(&mut self, events: &[Event]) -> Progress
        ensures each { K.sound (keeper_of self.new) → K.made (keeper_of self.old)
            → TakesEach (limits_of self.old) (state_of K.journal self.old) (take result.taken events.now)
            (state_of K.journal self.new) }
        ensures within { result.taken ≤ length events.now }
        ensures all { result.refusal ≡ None → result.taken ≡ length events.now }
        ensures refused { IsSome result.refusal → result.taken < length events.now }
        ensures answers { AddsAnswers (answers_of self.old) (answers_of self.new)
            (K.failures (keeper_of self.old)) (K.failures (keeper_of self.new)) }
        ensures before { K.sound (keeper_of self.new) → K.sound (keeper_of self.old) }
        ensures made { K.made (keeper_of self.old) → K.made (keeper_of self.new) }
        ensures settled { K.settled (keeper_of self.old) → K.settled (keeper_of self.new) }
        ensures limits { limits_of self.new ≡ limits_of self.old }
    {
        for (taken, event) in events.iter().enumerate() {
            if let Err(refusal) = self.step(event) {
                return Progress {
                    taken,
                    refusal: Some(refusal),
                };
            }
        }
        Progress {
            taken: events.len(),
            refusal: None,
        }
    }

    /// Takes one event. It answers false, and changes nothing, if the event names a machine, an upload, an answer or a
    /// saved resume point that isn't there, or breaks its condition. If memory for the world's own lists is refused,
    /// nothing changes either; what is refused while the collector takes a delivery is an answer.
    pub fn step(&mut self, event: &Event) -> Result<bool, OutOfMemory>
        ensures step { K.sound (keeper_of self.new) → K.made (keeper_of self.old)
            → Steps (Happens (limits_of self.old) (state_of K.journal self.old) event.now)
            (state_of K.journal self.old) result (state_of K.journal self.new) }
        ensures kept { K.sound (keeper_of self.new) → K.made (keeper_of self.old)
            → IsKept (limits_of self.old) (state_of K.journal self.old)
            → IsKept (limits_of self.old) (state_of K.journal self.new) }
        ensures grows { K.sound (keeper_of self.new) → K.made (keeper_of self.old)
            → Grows (state_of K.journal self.old) (state_of K.journal self.new) }
        ensures answers { AddsAnswers (answers_of self.old) (answers_of self.new)
            (K.failures (keeper_of self.old)) (K.failures (keeper_of self.new)) }
        ensures refused { OnErr result (state_of K.journal self.new ≡ state_of K.journal self.old) }
        ensures refused_keeper { OnErr result (keeper_of self.new ≡ keeper_of self.old) }
        ensures before { K.sound (keeper_of self.new) → K.sound (keeper_of self.old) }
        ensures made { K.made (keeper_of self.old) → K.made (keeper_of self.new) }
        ensures settled { K.settled (keeper_of self.old) → K.settled (keeper_of self.new) }
        ensures limits { limits_of self.new ≡ limits_of self.old }
    {
        // Does nothing: from its contract the proof has what every event keeps.
        events_keep();
        self.take(event)
    }

    fn take(&mut self, event: &Event) -> Result<bool, OutOfMemory>
        ensures step { K.sound (keeper_of self.new) → K.made (keeper_of self.old)
            → Steps (Happens (limits_of self.old) (state_of K.journal self.old) event.now)
            (state_of K.journal self.old) result (state_of K.journal self.new) }
        ensures answers { AddsAnswers (answers_of self.old) (answers_of self.new)
            (K.failures (keeper_of self.old)) (K.failures (keeper_of self.new)) }
        ensures refused { OnErr result (state_of K.journal self.new ≡ state_of K.journal self.old) }
        ensures refused_keeper { OnErr result (keeper_of self.new ≡ keeper_of self.old) }
        ensures before { K.sound (keeper_of self.new) → K.sound (keeper_of self.old) }
        ensures made { K.made (keeper_of self.old) → K.made (keeper_of self.new) }
        ensures settled { K.settled (keeper_of self.old) → K.settled (keeper_of self.new) }
        ensures limits { limits_of self.new ≡ limits_of self.old }
    {
        match event {
            Event::Append(machine, entry) => self.append(*machine, entry),
            Event::Make(machine, limit) => self.make(*machine, *limit),
            Event::Make2(machine, limit, whole) => self.make2(*machine, *limit, *whole),
            Event::MakeFile(machine, file) => self.make_file(*machine, file),
            Event::Deliver(upload, cut) => self.deliver(*upload, *cut),
            Event::Alien(bytes) => self.deliver_alien(bytes),
            Event::Hand(answer) => self.hand(*answer),
            Event::Restart(machine, point) => self.restart(*machine, *point),
        }
    }

    fn append(&mut self, machine: usize, entry: &Entry) -> Result<bool, OutOfMemory>
        ensures step { Steps (Appends (state_of K.journal self.old) machine entry.now)
            (state_of K.journal self.old) result (state_of K.journal self.new) }
        ensures answers { answers_of self.new ≡ answers_of self.old }
        ensures keeper { keeper_of self.new ≡ keeper_of self.old }
        ensures limits { limits_of self.new ≡ limits_of self.old }
    {
        if machine >= self.machines.len() {
            return Ok(false);
        }
        self.machines[machine].append(entry)?;
        Ok(true)
    }

    fn make(&mut self, machine: usize, limit: u64) -> Result<bool, OutOfMemory>
        ensures step { Steps (Makes (state_of K.journal self.old) machine limit)
            (state_of K.journal self.old) result (state_of K.journal self.new) }
        ensures answers { answers_of self.new ≡ answers_of self.old }
        ensures keeper { keeper_of self.new ≡ keeper_of self.old }
        ensures limits { limits_of self.new ≡ limits_of self.old }
    {
        let Some(machine) = self.machines.get(machine) else {
            return Ok(false);
        };
        let upload = machine.next_upload(self.alloc, limit)?;
        self.uploads.push(upload)?;
        Ok(true)
    }

    fn make2(&mut self, machine: usize, limit: u64, whole: bool) -> Result<bool, OutOfMemory>
        ensures step { Steps (Makes2 (state_of K.journal self.old) machine limit whole)
            (state_of K.journal self.old) result (state_of K.journal self.new) }
        ensures answers { answers_of self.new ≡ answers_of self.old }
        ensures keeper { keeper_of self.new ≡ keeper_of self.old }
        ensures limits { limits_of self.new ≡ limits_of self.old }
    {
        let Some(machine) = self.machines.get(machine) else {
            return Ok(false);
        };
        let upload = machine.next_upload2(self.alloc, limit, whole)?;
        self.uploads.push(upload)?;
        Ok(true)
    }

    fn make_file(&mut self, machine: usize, file: &[u8]) -> Result<bool, OutOfMemory>
        ensures step { Steps (MakesFile (limits_of self.old) (state_of K.journal self.old) machine file.now)
            (state_of K.journal self.old) result (state_of K.journal self.new) }
        ensures answers { answers_of self.new ≡ answers_of self.old }
        ensures keeper { keeper_of self.new ≡ keeper_of self.old }
        ensures limits { limits_of self.new ≡ limits_of self.old }
    {
        let Some(machine) = self.machines.get(machine) else {
            return Ok(false);
        };
        if !reads_front(self.alloc, file, machine.entries(), &self.limits)? {
            return Ok(false);
        }
        let upload = machine.file_upload(self.alloc, file)?;
        self.uploads.push(upload)?;
        Ok(true)
    }

    fn deliver(&mut self, upload: usize, cut: usize) -> Result<bool, OutOfMemory>
        ensures step { K.sound (keeper_of self.new) → K.made (keeper_of self.old)
            → Steps (Delivers (limits_of self.old) (state_of K.journal self.old) upload cut)
            (state_of K.journal self.old) result (state_of K.journal self.new) }
        ensures answers { AddsAnswers (answers_of self.old) (answers_of self.new)
            (K.failures (keeper_of self.old)) (K.failures (keeper_of self.new)) }
        ensures refused { OnErr result (state_of K.journal self.new ≡ state_of K.journal self.old) }
        ensures refused_keeper { OnErr result (keeper_of self.new ≡ keeper_of self.old) }
        ensures before { K.sound (keeper_of self.new) → K.sound (keeper_of self.old) }
        ensures made { K.made (keeper_of self.old) → K.made (keeper_of self.new) }
        ensures settled { K.settled (keeper_of self.old) → K.settled (keeper_of self.new) }
        ensures limits { limits_of self.new ≡ limits_of self.old }
    {
        let Some(bytes) = self.uploads.get(upload) else {
            return Ok(false);
        };
        if cut > bytes.len() {
            return Ok(false);
        }
        collect(
            self.alloc,
            &mut self.keeper,
            &bytes[..cut],
            &self.limits,
            &mut self.answers,
        )?;
        Ok(true)
    }

    fn deliver_alien(&mut self, bytes: &[u8]) -> Result<bool, OutOfMemory>
        ensures step { K.sound (keeper_of self.new) → K.made (keeper_of self.old)
            → Steps (DeliversAlien (limits_of self.old) (state_of K.journal self.old) bytes.now)
            (state_of K.journal self.old) result (state_of K.journal self.new) }
        ensures answers { AddsAnswers (answers_of self.old) (answers_of self.new)
            (K.failures (keeper_of self.old)) (K.failures (keeper_of self.new)) }
        ensures refused { OnErr result (state_of K.journal self.new ≡ state_of K.journal self.old) }
        ensures refused_keeper { OnErr result (keeper_of self.new ≡ keeper_of self.old) }
        ensures before { K.sound (keeper_of self.new) → K.sound (keeper_of self.old) }
        ensures made { K.made (keeper_of self.old) → K.made (keeper_of self.new) }
        ensures settled { K.settled (keeper_of self.old) → K.settled (keeper_of self.new) }
        ensures limits { limits_of self.new ≡ limits_of self.old }
    {
        if !is_alien(&self.machines, bytes) {
            return Ok(false);
        }
        collect(
            self.alloc,
            &mut self.keeper,
            bytes,
            &self.limits,
            &mut self.answers,
        )?;
        Ok(true)
    }

    fn hand(&mut self, answer: usize) -> Result<bool, OutOfMemory>
        ensures step { Steps (Hands (state_of K.journal self.old) answer)
            (state_of K.journal self.old) result (state_of K.journal self.new) }
        ensures answers { answers_of self.new ≡ answers_of self.old }
        ensures keeper { keeper_of self.new ≡ keeper_of self.old }
        ensures limits { limits_of self.new ≡ limits_of self.old }
    {
        let Some(answer) = self.answers.get(answer) else {
            return Ok(false);
        };
        let Some(source) = named(answer) else {
            return Ok(false);
        };
        let Some(machine) = place_of(&self.machines, source) else {
            return Ok(false);
        };
        self.machines[machine].hand(answer)?;
        Ok(true)
    }

    fn restart(&mut self, machine: usize, point: usize) -> Result<bool, OutOfMemory>
        ensures step { Steps (Restarts (state_of K.journal self.old) machine point)
            (state_of K.journal self.old) result (state_of K.journal self.new) }
        ensures answers { answers_of self.new ≡ answers_of self.old }
        ensures keeper { keeper_of self.new ≡ keeper_of self.old }
        ensures limits { limits_of self.new ≡ limits_of self.old }
    {
        if machine >= self.machines.len() {
            return Ok(false);
        }
        Ok(self.machines[machine].restart(point))
    }
}

/// Has a delivery collected, and stored if it is acknowledged, and adds the answer. Room for it is made before.
fn collect<K: Keeper>(
    alloc: Global,
    keeper: &mut K,
    bytes: &[u8],
    limits: &Limits,
    answers: &mut Vec<Answer>,
) -> Result<(), OutOfMemory>
    ensures ok { K.sound keeper.new → K.made keeper.old
        → OnOk result (IsAnswered limits.now bytes.now (K.journal keeper.old) answers.old.items answers.new.items (K.journal keeper.new)) }
    ensures err { OnErr result (keeper.new ≡ keeper.old) }
    ensures err_answers { OnErr result (answers.new.items ≡ answers.old.items) }
    ensures answered { AddsAnswers answers.old.items answers.new.items (K.failures keeper.old) (K.failures keeper.new) }
    ensures before { K.sound keeper.new → K.sound keeper.old }
    ensures made { K.made keeper.old → K.made keeper.new }
    ensures settled { K.settled keeper.old → K.settled keeper.new }
{
    answers.reserve(1)?;
    let mut delivery: Delivery<SliceStream<'_>, SliceSpace<'_>> = Delivery::Space(SliceSpace {
        bytes,
    });
    let answer = collect_settled(alloc, keeper, &mut delivery, limits);
    answers.push(answer)?;
    Ok(())
}

/// The source that an answer names.
fn named(answer: &Answer) -> Option<Id128>
    ensures { result ≡ named answer.now }
{
    match answer {
        Answer::Ack { source, .. } => Some(*source),
        Answer::No {
            of: Some((source, _)),
            ..
        } => Some(*source),
        Answer::No { of: None, .. } => None,
    }
}

/// A machine for each source, in order.
fn new_machines(alloc: Global, sources: &[Id128]) -> Result<Vec<Machine>, OutOfMemory>
    ensures { IfOk result (λ machines. machines.items ≡ map new_machine sources.now) }
{
    let mut machines = Vec::with_capacity(alloc, sources.len())?;
    for source in sources {
        machines.push(Machine::new(alloc, *source)?)?;
    }
    Ok(machines)
}

/// Whether no id stands twice.
fn are_distinct(ids: &[Id128]) -> bool
    ensures { IsTrue result ↔ AreDistinct ids.now }
{
    for (place, id) in ids.iter().enumerate() {
        if ids[..place].contains(id) {
            return false;
        }
    }
    true
}
