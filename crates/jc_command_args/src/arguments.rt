//! The arguments of the commands, as `clap` has them.

ghost use Rattle.std.specs.Prelude.{codes};
ghost use Rattle.clap.specs.Words.{App, new_rule};
ghost use Rattle.clap.specs.declared.builder.value_parser.ValueParser.{ValueParser};
ghost use Rattle.jc_command_args.specs.Grammar.{AreKinds, AreTables, AreTasks, IsRule, Makes, flag_rule, kind_rule, number_rule, option_rule, place_rule, required_rule, tables_rule, task_rule, uploads_rule, with_source};

use crate::making::Making;
use crate::texts;
use clap::builder::ValueParser;
use clap::{Arg, ArgAction};
use std::alloc::Global;

static KINDS: [&str; 2] = ["export", "file"];

static TABLES: [&str; 2] = ["2", "3"];

static TASKS: [&str; 3] = ["has", "forget-after", "verify"];

/// The greatest number that an argument takes.
pub(crate) const MOST: u64 = (1 << 63) - 1;

/// The command with the arguments that name a source.
pub(crate) fn with_source<'a>(alloc: Global, command: Making<'a>) -> Making<'a>
    ensures { (kinds : ValueParser) × AreKinds kinds
        × ((app : App) → Makes command.entry app → Makes result (with_source kinds app)) }
{
    command
        .arg(source_arg(alloc))
        .arg(resume_arg(alloc))
        .arg(kind_arg(alloc))
        .arg(place_arg(alloc, "IN", texts::FILE_HELP))
}

fn source_arg<'a>(alloc: Global) -> Arg<'a>
    ensures { IsRule result (required_rule (codes "source")) }
{
    option_arg(alloc, "source", "HEX", texts::SOURCE_HELP).required(true)
}

fn resume_arg<'a>(alloc: Global) -> Arg<'a>
    ensures { IsRule result (required_rule (codes "resume")) }
{
    option_arg(alloc, "resume", "FILE", texts::RESUME_HELP).required(true)
}

pub(crate) fn kind_arg<'a>(alloc: Global) -> Arg<'a>
    ensures { (kinds : ValueParser) × AreKinds kinds × IsRule result (kind_rule kinds) }
{
    Arg::new(alloc, "KIND")
        .required(true)
        .value_parser(KINDS.as_slice())
        .help(texts::KIND_HELP)
}

pub(crate) fn uploads_arg<'a>(alloc: Global) -> Arg<'a>
    ensures { IsRule result uploads_rule }
{
    Arg::new(alloc, "UPLOAD")
        .num_args(0..)
        .help(texts::UPLOADS_HELP)
}

pub(crate) fn list_arg<'a>(alloc: Global) -> Arg<'a>
    ensures { IsRule result (option_rule (codes "files-from")) }
{
    option_arg(alloc, "files-from", "FILE", texts::LIST_HELP)
}

pub(crate) fn sequences_arg<'a>(alloc: Global) -> Arg<'a>
    ensures { IsRule result (option_rule (codes "sequences")) }
{
    option_arg(alloc, "sequences", "FOLDER", texts::SEQUENCES_HELP)
}

pub(crate) fn then_export_arg<'a>(alloc: Global) -> Arg<'a>
    ensures { IsRule result (option_rule (codes "then-export")) }
{
    option_arg(alloc, "then-export", "FILE", texts::THEN_EXPORT_HELP)
}

/// `--tables N`, the tables of a database.
pub(crate) fn tables_arg<'a>(alloc: Global, help: &'a str) -> Arg<'a>
    ensures { (tables : ValueParser) × AreTables tables × IsRule result (tables_rule tables) }
{
    option_arg(alloc, "tables", "N", help).value_parser(TABLES.as_slice())
}

/// What is to be done with notes.
pub(crate) fn task_arg<'a>(alloc: Global) -> Arg<'a>
    ensures { (tasks : ValueParser) × AreTasks tasks × IsRule result (task_rule tasks) }
{
    Arg::new(alloc, "TASK")
        .required(true)
        .value_parser(TASKS.as_slice())
        .help(texts::TASK_HELP)
}

/// `--sequences FOLDER`, which has to be given.
pub(crate) fn notes_arg<'a>(alloc: Global) -> Arg<'a>
    ensures { IsRule result (required_rule (codes "sequences")) }
{
    option_arg(alloc, "sequences", "FOLDER", texts::NOTES_HELP).required(true)
}

/// NEW, behind `--rename OLD`.
pub(crate) fn new_name_arg<'a>(alloc: Global) -> Arg<'a>
    ensures { IsRule result (new_rule (codes "NEW")) }
{
    Arg::new(alloc, "NEW").help(texts::NEW_NAME_HELP)
}

/// A value that has its place, and has to be given.
pub(crate) fn place_arg<'a>(alloc: Global, name: &'a str, help: &'a str) -> Arg<'a>
    ensures { IsRule result (place_rule name.entry.now) }
{
    Arg::new(alloc, name).required(true).help(help)
}

/// `--name N`, a number.
pub(crate) fn number_arg<'a>(alloc: Global, name: &'a str, help: &'a str) -> Arg<'a>
    ensures { IsRule result (number_rule name.entry.now) }
{
    option_arg(alloc, name, "N", help).value_parser(ValueParser::unsigned(0, MOST))
}

/// `--name`, without a value.
pub(crate) fn flag_arg<'a>(alloc: Global, name: &'a str, help: &'a str) -> Arg<'a>
    ensures { IsRule result (flag_rule name.entry.now) }
{
    Arg::new(alloc, name)
        .long(name)
        .action(ArgAction::SetTrue)
        .help(help)
}

/// `--name VALUE`.
pub(crate) fn option_arg<'a>(alloc: Global, name: &'a str, value: &'a str, help: &'a str) -> Arg<'a>
    ensures { IsRule result (option_rule name.entry.now) }
{
    Arg::new(alloc, name)
        .long(name)
        .value_name(value)
        .help(help)
}
