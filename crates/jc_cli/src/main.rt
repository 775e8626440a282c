//! The program `journal-collect`.
#![tactic(auto)]

ghost use Rattle.std.specs.Prelude.{◌≤◌};

pub use jc_command::command;
use jc_command_shared::{Failure, Host, Output, Status, Text};
use jc_database::{OpenFromFiles, OverFiles, over_files};
use jc_render::{
    EXPLAIN, JSON, Json, Masked, Noting, Wiping, board_for, explained, has_objects, take_option,
};
use jc_sequences::{Faults, Folders};
use sqlite::Unknown;
use std::io::{IsTerminal, Stderr};
use std::process::ExitCode;
use std::{env, io};

fn main(rt: HostRuntime) -> ExitCode {
    let number = match given_words(&rt) {
        Ok(words) => run(&rt, words),
        Err(failure) => {
            let mut errors = Text { inner: rt.stderr() };
            failure.report(&mut errors).number()
        }
    };
    ExitCode::from(number)
}

/// Does what the words ask for: as objects if they ask for these, and with a line on a terminal that says how far it is.
fn run(rt: &HostRuntime, mut words: Vec<String>) -> u8 {
    let explains = take_option(&mut words, EXPLAIN);
    let asks_for_objects = take_json(&mut words);
    let board = board_for(rt, &words);
    let mut errors = Text {
        inner: Wiping::new(rt.stderr(), board.is_some()),
    };
    let is_terminal = rt.stdout().is_terminal();
    let masked = Masked::new(rt.stdout(), is_terminal, board);
    let mut output = Json::new(rt.alloc(), asks_for_objects, masked);
    let asked = Asked {
        rt,
        words,
        explains,
        output: &mut output,
        errors: &mut errors,
    };
    // A commit syncs once, as under SQLite's `synchronous=FULL`.
    let status = over_files(asked, Unknown);
    output.inner.wipe();
    match output.end() {
        // A run that has failed has said why.
        Err(failure) if status != Status::Failed.number() => failure.report(&mut errors).number(),
        _ => status,
    }
}

/// Whether what is told is to be objects, whose option is taken off the words.
fn take_json(words: &mut Vec<String>) -> bool {
    has_objects(words) && take_option(words, JSON)
}

/// What the words ask for, explained if they ask for that too, and where it is written.
struct Asked<'a, O: Output> {
    rt: &'a HostRuntime,
    words: Vec<String>,
    explains: bool,
    output: &'a mut O,
    errors: &'a mut Text<Wiping<Stderr>>,
}

impl<'a, O: Output> OverFiles for Asked<'a, O> {
    type Outcome = u8;

    ghost ends = { λ _ status. status ≤ 4 };

    fn over<F: OpenFromFiles>(self, start: F::Start) -> u8 {
        let Asked {
            rt,
            words,
            explains,
            output,
            errors,
        } = self;
        let input = &mut rt.reader();
        let faults = Faults::new();
        let folders = Folders::new(rt, &faults);
        if !explains {
            let mut host = Host::new(rt);
            return command::<_, F, Unknown, _, _, _>(
                &mut host, folders, start, words, input, output, errors,
            );
        }
        let mut output = Noting::new(rt.alloc(), output);
        let mut errors = Noting::new(rt.alloc(), errors);
        explained::<F, Unknown, _, _, _>(rt, folders, start, words, input, &mut output, &mut errors)
    }
}

/// The arguments of the command line, the program's name first.
fn given_words(rt: &HostRuntime) -> Result<Vec<String>, Failure<'static>> {
    let words = env::args(rt).map_err(|refusal| match refusal.kind() {
        io::ErrorKind::OutOfMemory => Failure::OutOfMemory,
        _ => Failure::WordsAreNoText,
    })?;
    Ok(words.collect(rt.alloc())?)
}
