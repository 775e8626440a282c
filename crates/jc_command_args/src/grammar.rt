//! The commands, as `clap` has them.

ghost use Rattle.std.specs.Prelude.{IfOk, codes};
ghost use Rattle.clap.specs.Words.{app_of, new_app};
ghost use Rattle.clap.specs.declared.builder.value_parser.ValueParser.{ValueParser};
ghost use Rattle.jc_command_args.specs.Grammar.{AreKinds, AreTables, AreTasks, IsGrammar, Makes, ack_grammar, acknowledged_grammar, check_grammar, collect_grammar, collector_grammar, database_grammar, databases_grammar, inspect_grammar, migrate_grammar, notes_grammar, owners_grammar, show_grammar, top_grammar, upload_grammar, verify_grammar};

use crate::arguments::{
    flag_arg, kind_arg, list_arg, new_name_arg, notes_arg, number_arg, option_arg, place_arg,
    sequences_arg, tables_arg, task_arg, then_export_arg, uploads_arg, with_source,
};
use crate::codes::CODES;
use crate::making::Making;
use crate::texts;
use clap::Command;
use std::alloc::{AllocError, Global};

/// The whole program.
pub(crate) fn program<'a>(alloc: Global) -> Result<Box<Command<'a>>, AllocError>
    ensures { IfOk result (λ command. IsGrammar (app_of command.value)) }
{
    collector(alloc)
        .subcommand(verify_command(alloc))
        .subcommand(inspect_command(alloc))
        .subcommand(upload_command(alloc))
        .subcommand(ack_command(alloc))
        .subcommand(acknowledged_command(alloc))
        .subcommand(codes_command(alloc))
        .command
}

/// The program with the collector's commands.
fn collector<'a>(alloc: Global) -> Making<'a>
    ensures { (collect migrate tasks : ValueParser) × AreTables collect × AreTables migrate × AreTasks tasks
        × Makes result (collector_grammar collect migrate tasks) }
{
    over_databases(alloc)
        .subcommand(notes_command(alloc))
        .subcommand(owners_command(alloc))
}

/// The program with the commands over a database.
fn over_databases<'a>(alloc: Global) -> Making<'a>
    ensures { (collect migrate : ValueParser) × AreTables collect × AreTables migrate
        × Makes result (databases_grammar collect migrate) }
{
    top(alloc)
        .subcommand(collect_command(alloc))
        .subcommand(export_command(alloc))
        .subcommand(show_command(alloc))
        .subcommand(check_command(alloc))
        .subcommand(migrate_command(alloc))
}

/// The program without its commands.
fn top<'a>(alloc: Global) -> Making<'a>
    ensures { Makes result top_grammar }
{
    let command = Command::new(alloc, texts::NAME)
        .version(texts::VERSION)
        .about(texts::ABOUT)
        .override_usage(texts::USAGE)
        .after_help(texts::MORE)
        .arg_required_else_help(true)
        .subcommand_required(true)
        .bin_name(texts::NAME);
    Making::new(alloc, command)
}

pub(crate) fn collect_command<'a>(alloc: Global) -> Making<'a>
    ensures { (tables : ValueParser) × AreTables tables × Makes result (collect_grammar tables) }
{
    database_command(alloc, "collect", texts::COLLECT, texts::COLLECT_MORE)
        .arg(uploads_arg(alloc))
        .arg(list_arg(alloc))
        .arg(sequences_arg(alloc))
        .arg(number_arg(alloc, "most-windows", texts::MOST_WINDOWS_HELP))
        .arg(then_export_arg(alloc))
        .arg(tables_arg(alloc, texts::MADE_TABLES_HELP))
}

fn export_command<'a>(alloc: Global) -> Making<'a>
    ensures { Makes result (database_grammar (codes "export")) }
{
    database_command(alloc, "export", texts::EXPORT, texts::EXPORT_MORE)
}

fn show_command<'a>(alloc: Global) -> Making<'a>
    ensures { Makes result show_grammar }
{
    database_command(alloc, "show", texts::SHOW, texts::SHOW_MORE)
        .arg(option_arg(alloc, "id", "HEX", texts::ID_HELP))
        .arg(number_arg(alloc, "from", texts::FIRST_HELP))
        .arg(number_arg(alloc, "to", texts::LAST_HELP))
        .arg(option_arg(alloc, "field", "NAME", texts::FIELD_HELP))
}

fn check_command<'a>(alloc: Global) -> Making<'a>
    ensures { Makes result check_grammar }
{
    database_command(alloc, "check", texts::CHECK, texts::CHECK_MORE).arg(option_arg(
        alloc,
        "sequences",
        "FOLDER",
        texts::CHECKED_NOTES_HELP,
    ))
}

fn migrate_command<'a>(alloc: Global) -> Making<'a>
    ensures { (tables : ValueParser) × AreTables tables × Makes result (migrate_grammar tables) }
{
    database_command(alloc, "migrate", texts::MIGRATE, texts::MIGRATE_MORE).arg(tables_arg(
        alloc,
        texts::NEW_TABLES_HELP,
    ))
}

fn notes_command<'a>(alloc: Global) -> Making<'a>
    ensures { (tasks : ValueParser) × AreTasks tasks × Makes result (notes_grammar tasks) }
{
    new_command(alloc, "notes", texts::NOTES, texts::NOTES_MORE)
        .arg(notes_arg(alloc))
        .arg(task_arg(alloc))
}

pub(crate) fn owners_command<'a>(alloc: Global) -> Making<'a>
    ensures { Makes result owners_grammar }
{
    new_command(alloc, "owners", texts::OWNERS, texts::OWNERS_MORE)
        .arg(notes_arg(alloc))
        .arg(option_arg(alloc, "rename", "OLD", texts::RENAME_HELP))
        .arg(option_arg(alloc, "release", "SEQUENCE", texts::RELEASE_HELP))
        .arg(new_name_arg(alloc))
}

fn verify_command<'a>(alloc: Global) -> Making<'a>
    ensures { (kinds : ValueParser) × AreKinds kinds × Makes result (verify_grammar kinds) }
{
    new_command(alloc, "verify", texts::VERIFY, texts::VERIFY_MORE)
        .arg(kind_arg(alloc))
        .arg(place_arg(alloc, "FILE", texts::FILE_HELP))
}

fn inspect_command<'a>(alloc: Global) -> Making<'a>
    ensures { Makes result inspect_grammar }
{
    new_command(alloc, "inspect", texts::INSPECT, texts::INSPECT_MORE)
        .arg(place_arg(alloc, "FILE", texts::UPLOAD_FILE_HELP))
        .arg(number_arg(alloc, "most-entries", texts::MOST_ENTRIES_HELP))
        .arg(number_arg(alloc, "most-fields", texts::MOST_FIELDS_HELP))
        .arg(number_arg(alloc, "most-bytes", texts::MOST_BYTES_HELP))
        .arg(number_arg(alloc, "most-windows", texts::MOST_WINDOWS_HELP))
}

fn upload_command<'a>(alloc: Global) -> Making<'a>
    ensures { (kinds : ValueParser) × AreKinds kinds × Makes result (upload_grammar kinds) }
{
    let command = new_command(alloc, "upload", texts::UPLOAD, texts::UPLOAD_MORE);
    with_source(alloc, command)
        .arg(number_arg(alloc, "limit", texts::LIMIT_HELP))
        .arg(number_arg(alloc, "bytes", texts::BYTES_HELP))
        .arg(flag_arg(alloc, "whole", texts::WHOLE_HELP))
}

fn ack_command<'a>(alloc: Global) -> Making<'a>
    ensures { (kinds : ValueParser) × AreKinds kinds × Makes result (ack_grammar kinds) }
{
    let command = new_command(alloc, "ack", texts::ACK, texts::ACK_MORE);
    with_source(alloc, command)
}

fn acknowledged_command<'a>(alloc: Global) -> Making<'a>
    ensures { Makes result acknowledged_grammar }
{
    new_command(
        alloc,
        "acknowledged",
        texts::ACKNOWLEDGED,
        texts::ACKNOWLEDGED_MORE,
    )
    .arg(place_arg(alloc, "UPLOAD", texts::UPLOAD_FILE_HELP))
}

fn codes_command<'a>(alloc: Global) -> Making<'a>
    ensures { Makes result (new_app (codes "codes")) }
{
    new_command(alloc, "codes", texts::CODES_ABOUT, CODES)
}

/// A command over a database.
fn database_command<'a>(alloc: Global, name: &'a str, about: &'a str, more: &'a str) -> Making<'a>
    ensures { Makes result (database_grammar name.entry.now) }
{
    new_command(alloc, name, about, more).arg(place_arg(alloc, "DB", texts::DATABASE_HELP))
}

/// A command without arguments, with the texts at the top and at the end of its help.
fn new_command<'a>(alloc: Global, name: &'a str, about: &'a str, more: &'a str) -> Making<'a>
    ensures { Makes result (new_app name.entry.now) }
{
    let command = Command::new(alloc, name).about(about).after_help(more);
    Making::new(alloc, Ok(command))
}
