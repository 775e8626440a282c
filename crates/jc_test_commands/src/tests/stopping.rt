//! What stops runs, and tells what came of them.

ghost use Rattle.std.specs.Prelude.{⊤};

use super::output::Output;
use super::stops::{Came, Run};
use jc_base::FromRead;
use jc_collect::Delivery;
use jc_collector::{Closed, FailedCommand, Opened, OpenedFiles, Unopened, show};
use jc_command_args::Tables;
use jc_command_shared::{Failure, Host, Status, Text};
use jc_database::{OpenFromFiles, OverFiles, over_files};
use jc_file::SliceSpace;
use jc_ledger::MapLedger;
use jc_theorems::{Stopped, collect_into_union_and_stop, open_after_lines, open_after_stop};
use sqlite::{Alter, Unknown};
use std::alloc::Global;
use std::io;
use std::marker::Brand;

type Upload<'a> = Delivery<FromRead<&'a [u8]>, SliceSpace<'static>>;

/// A run that is stopped.
#[derive(Clone, Copy)]
pub(super) struct Stopping<'a> {
    pub(super) rt: &'a HostRuntime,
    pub(super) path: &'a str,
    pub(super) tables: Tables,
    pub(super) run: Run,
    /// How often the output can be flushed.
    pub(super) flushes: u64,
    pub(super) uploads: &'a [Vec<u8>],
    pub(super) names: &'a [u8],
}

/// What came of it, and what it printed.
#[derive(Drop)]
pub(super) struct Told {
    pub(super) came: Came,
    pub(super) output: Vec<u8>,
}

impl<'a> OverFiles for Stopping<'a> {
    type Outcome = Told;

    ghost ends = { λ _ _. ⊤ };

    fn over<F: OpenFromFiles>(self, start: F::Start) -> Told {
        match self.run {
            Run::Union => union_stops::<F>(self, start),
            Run::Show => shows::<F>(self, start),
            Run::Deliveries | Run::Lines => {
                over_files(Next::<'a, F> { run: self, start }, Unknown)
            }
        }
    }
}

/// A run that is stopped, and the next one.
#[derive(Drop)]
struct Next<'a, F: OpenFromFiles> {
    run: Stopping<'a>,
    start: F::Start,
}

impl<'a, F: OpenFromFiles> OverFiles for Next<'a, F> {
    type Outcome = Told;

    ghost ends = { λ _ _. ⊤ };

    fn over<G: OpenFromFiles>(self, next: G::Start) -> Told {
        let Next { run, start } = self;
        match run.run {
            Run::Lines => lines_and_next::<F, G>(run, start, next),
            _ => deliveries_and_next::<F, G>(run, start, next),
        }
    }
}

fn deliveries_of(alloc: Global, uploads: &[Vec<u8>]) -> io::Result<Vec<Upload<'_>>> {
    let mut all = Vec::new(alloc);
    for upload in uploads {
        all.push(Delivery::Stream(FromRead::new(upload.as_slice())))?;
    }
    Ok(all)
}

// The calls stand alone, so that no more than one function has their contracts to bear.

fn union_stops<F: OpenFromFiles>(run: Stopping<'_>, start: F::Start) -> Told {
    let mut output = Text {
        inner: Output::new(run.rt.alloc(), run.flushes),
    };
    let mut errors = Text {
        inner: Vec::new(run.rt.alloc()),
    };
    let mut names = run.names;
    let mut host = Host::new(run.rt);
    let came = match collect_into_union_and_stop::<_, F, MapLedger, Brand, _, _, _>(
        &mut host,
        start,
        MapLedger::new(run.rt.alloc()),
        run.path,
        run.tables,
        None,
        &mut names,
        None,
        &mut output,
        &mut errors,
    ) {
        Ok(stopped) => stopped_with(stopped.answered),
        Err(_) => Came::Failed,
    };
    Told {
        came,
        output: output.inner.kept,
    }
}

fn shows<F: OpenFromFiles>(run: Stopping<'_>, start: F::Start) -> Told {
    let mut output = Text {
        inner: Output::new(run.rt.alloc(), run.flushes),
    };
    let mut host = Host::new(run.rt);
    let came = shown(show::<_, F, _>(
        &mut host,
        start,
        run.path,
        None,
        None,
        0,
        u64::MAX,
        &mut output,
    ));
    Told {
        came,
        output: output.inner.kept,
    }
}

fn shown<C: Drop, L: Drop>(listed: Result<Closed<(), C>, FailedCommand<'_, L>>) -> Came {
    match listed {
        Ok(_) => Came::Ended,
        Err(failed) => match failed.failure {
            Failure::WriteFailed => Came::Unwritten,
            _ => Came::Failed,
        },
    }
}

fn deliveries_and_next<F: OpenFromFiles, G: OpenFromFiles>(
    run: Stopping<'_>,
    start: F::Start,
    next: G::Start,
) -> Told {
    let mut output = Text {
        inner: Output::new(run.rt.alloc(), run.flushes),
    };
    let mut host = Host::new(run.rt);
    let came = match deliveries_of(run.rt.alloc(), run.uploads) {
        Ok(mut deliveries) => ended_and_found(open_after_stop::<_, F, G, _, _, _>(
            &mut host,
            start,
            next,
            run.path,
            run.tables,
            None,
            &mut deliveries,
            &mut output,
        )),
        Err(_) => Came::Failed,
    };
    Told {
        came,
        output: output.inner.kept,
    }
}

fn lines_and_next<F: OpenFromFiles, G: OpenFromFiles>(
    run: Stopping<'_>,
    start: F::Start,
    next: G::Start,
) -> Told {
    let mut output = Text {
        inner: Output::new(run.rt.alloc(), run.flushes),
    };
    let mut errors = Text {
        inner: Vec::new(run.rt.alloc()),
    };
    let mut names = run.names;
    let mut host = Host::new(run.rt);
    let came = ended_and_found(open_after_lines::<_, F, G, _, _, _>(
        &mut host,
        start,
        next,
        run.path,
        run.tables,
        None,
        &mut names,
        &mut output,
        &mut errors,
    ));
    Told {
        came,
        output: output.inner.kept,
    }
}

/// What came of two runs.
fn ended_and_found<F: OpenFromFiles, G: Alter + Drop, L: Drop>(
    runs: Result<(Stopped<'_, F>, Result<OpenedFiles<G>, Unopened<'_, L>>), Failure<'_>>,
) -> Came {
    match runs {
        Ok((stopped, next)) => found_after(stopped_with(stopped.answered), next),
        Err(_) => Came::Failed,
    }
}

fn stopped_with(answered: Result<Status, Failure<'_>>) -> Came {
    match answered {
        Ok(Status::Success) => Came::Stopped,
        Err(Failure::WriteFailed) => Came::Unwritten,
        _ => Came::Failed,
    }
}

/// What came of a run, or what the next one found after it if it was stopped.
fn found_after<F: Alter + Drop, L: Drop>(
    came: Came,
    next: Result<OpenedFiles<F>, Unopened<'_, L>>,
) -> Came {
    match (came, count_of(next)) {
        (Came::Stopped, Some(count)) => Came::Found(count),
        (Came::Stopped, None) => Came::Failed,
        (other, _) => other,
    }
}

/// How many entries the next run has found, if it has opened a journal.
fn count_of<F: Alter + Drop, L: Drop>(
    next: Result<OpenedFiles<F>, Unopened<'_, L>>,
) -> Option<u64> {
    match next {
        Ok(Opened::ByKey(mut keeper)) => keeper.count().ok(),
        Ok(Opened::ByNumber(mut keeper)) => keeper.count().ok(),
        Err(_) => None,
    }
}
