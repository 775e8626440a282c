//! Commands in the making.

ghost use Rattle.std.specs.Prelude.{◌≡◌, IfOk, IsOkAnd};
ghost use Rattle.clap.specs.Words.{AddsArg, AddsSubcommand, App, Rule, with_rule, with_subcommand};
ghost use Rattle.jc_command_args.specs.Grammar.{IsCommand, IsRule, Makes};

use clap::{Arg, Command};
use std::alloc::{AllocError, Global};

/// A command that is being made, or the refusal of memory that ended it.
#[derive(Drop)]
pub(crate) struct Making<'a> {
    pub(crate) alloc: Global,
    // In a box, since the checker models each field of what a function moves, and a command has 53.
    pub(crate) command: Result<Box<Command<'a>>, AllocError>,
}

impl<'a> Making<'a> {
    /// A command to begin with.
    pub(crate) fn new(alloc: Global, command: Result<Command<'a>, AllocError>) -> Making<'a>
        ensures { (app : App) → IfOk command.entry (λ old. IsCommand old app) → Makes result app }
    {
        Making {
            alloc,
            command: boxed(alloc, command),
        }
    }

    /// The command with one more argument.
    pub(crate) fn arg(self, arg: Arg<'a>) -> Making<'a>
        ensures { (app : App) (rule : Rule) → Makes self.entry app → IsRule arg.entry rule
            → Makes result (with_rule app rule) }
    {
        Making {
            alloc: self.alloc,
            command: added(self.alloc, self.command, arg),
        }
    }

    /// The command with one more subcommand.
    pub(crate) fn subcommand(self, sub: Making<'a>) -> Making<'a>
        ensures { (app sub_app : App) → Makes self.entry app → Makes sub.entry sub_app
            → Makes result (with_subcommand app sub_app.top) }
    {
        Making {
            alloc: self.alloc,
            command: joined(self.alloc, self.command, sub.command),
        }
    }
}

fn added<'a>(
    alloc: Global,
    command: Result<Box<Command<'a>>, AllocError>,
    arg: Arg<'a>,
) -> Result<Box<Command<'a>>, AllocError>
    ensures { IfOk result (λ new. IsOkAnd command.entry (λ old. AddsArg old.value arg.entry new.value)) }
{
    match command {
        Ok(command) => boxed(alloc, Box::into_inner(command).arg(arg)),
        Err(refused) => Err(refused),
    }
}

fn joined<'a>(
    alloc: Global,
    command: Result<Box<Command<'a>>, AllocError>,
    sub: Result<Box<Command<'a>>, AllocError>,
) -> Result<Box<Command<'a>>, AllocError>
    ensures { IfOk result (λ new. IsOkAnd command.entry (λ old.
        IsOkAnd sub.entry (λ sub. AddsSubcommand old.value sub.value new.value))) }
{
    match (command, sub) {
        (Ok(command), Ok(sub)) => boxed(
            alloc,
            Box::into_inner(command).subcommand(Box::into_inner(sub)),
        ),
        _ => Err(AllocError),
    }
}

/// The command with this name in usage.
pub(crate) fn named<'a>(
    alloc: Global,
    command: Result<Box<Command<'a>>, AllocError>,
    name: &str,
) -> Result<Box<Command<'a>>, AllocError> {
    match command {
        Ok(command) => boxed(alloc, Box::into_inner(command).bin_name(name)),
        Err(refused) => Err(refused),
    }
}

// Of any type, since the checker spells out the fields of a type that it knows.
fn boxed<T: Drop>(alloc: Global, value: Result<T, AllocError>) -> Result<Box<T>, AllocError>
    ensures { IfOk result (λ new. IsOkAnd value (λ old. new.value ≡ old)) }
{
    Ok(Box::new(alloc, value?)?)
}
