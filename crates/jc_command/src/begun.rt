//! What a run is supposed to begin with.

ghost use Rattle.std.specs.Prelude.{List, [], ℕ};
ghost use Rattle.jc_base.specs.Journal.{Journal};
ghost use Rattle.jc_base.specs.LogEntry.{LogEntry};
ghost use Rattle.jc_ledger_files.specs.declared.window_name.WindowName.{WindowName};

use jc_ledger::Past;
use jc_ledger_files::{Arrivals, Found};
use sqlite::{Unknown, Wary};
use std::marker::PhantomData;

/// What a run over a union of databases begins with, but for the files of the present one, of which `OpenFromFiles` says
/// that. A function over `S: Begun` is proved for all of it, and no code can read it.
pub trait Begun: Drop {
    /// What the file of each window of a sequence has.
    ghost windows: { WindowName → List ℕ };

    /// What is still noted of the finished databases.
    ghost finished: { Journal };

    /// What is still noted of those that were set aside. Of what else they have nothing is said.
    ghost aside: { Journal };

    /// The entries that came in earlier runs.
    ghost came: { LogEntry → Type 0 };
}

impl Begun for Unknown {
    ghost use Rattle.std.specs.FinMap.{empty};

    ghost windows = { λ _. [] };

    ghost finished = { empty };

    ghost aside = { empty };

    ghost came = { λ _. ⊥ };
}

impl Begun for Wary {
    ghost use Rattle.std.specs.FinMap.{empty};

    ghost windows = { λ _. [] };

    ghost finished = { empty };

    ghost aside = { empty };

    ghost came = { λ _. ⊥ };
}

/// Says to the crates below what `S` says.
#[derive(Drop)]
pub struct BegunBy<S: Begun> {
    pub of: PhantomData<S>,
}

impl<S: Begun> Found for BegunBy<S> {
    ghost found = { S.windows };
}

impl<S: Begun> Arrivals for BegunBy<S> {
    ghost before = { S.came };
}

impl<S: Begun> Past for BegunBy<S> {
    ghost use Rattle.jc_ledger.specs.Union.{union};

    ghost journal = { union S.finished S.aside };
}
