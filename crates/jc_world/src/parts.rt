//! A world is taken apart, and put together over another keeper.

ghost use Rattle.std.specs.Prelude.{◌≡◌};
ghost use Rattle.jc_world.specs.World.{keeper_of, limits_of, limits_with, state_of, state_with};

use crate::World;
use crate::machine::Machine;
use jc_base::Limits;
use jc_keeper::Keeper;
use jc_upload::Answer;
use std::alloc::Global;

/// The machines of a world with everything that was ever made or answered: what there is beside the collector's keeper.
#[derive(Drop)]
pub struct Machines {
    machines: Vec<Machine>,
    uploads: Vec<Vec<u8>>,
    answers: Vec<Answer>,
    limits: Limits,
    alloc: Global,
}

impl<K: Keeper + Drop> World<K> {
    /// The machines, and the collector's keeper. Takes no memory.
    pub fn into_parts(self) -> (Machines, K)
        ensures state { state_with result.0 (K.journal result.1) ≡ state_of K.journal self }
        ensures keeper { result.1 ≡ keeper_of self }
        ensures limits { limits_with result.0 ≡ limits_of self }
    {
        let World {
            keeper,
            machines,
            uploads,
            answers,
            limits,
            alloc,
        } = self;
        let machines = Machines {
            machines,
            uploads,
            answers,
            limits,
            alloc,
        };
        (machines, keeper)
    }
}

impl Machines {
    /// A world of these machines, and a collector with this keeper: what it was, if the keeper has the journal that the
    /// one before had. Takes no memory.
    pub fn with_keeper<K: Keeper + Drop>(self, keeper: K) -> World<K>
        ensures state { state_of K.journal result ≡ state_with self (K.journal keeper) }
        ensures keeper { keeper_of result ≡ keeper }
        ensures limits { limits_of result ≡ limits_with self }
    {
        World {
            keeper,
            machines: self.machines,
            uploads: self.uploads,
            answers: self.answers,
            limits: self.limits,
            alloc: self.alloc,
        }
    }
}
