//! The arguments of a command line, and what they ask for.

ghost use Rattle.std.specs.Prelude.{◌≡◌, ◌⊎◌, IfOk, IfErr, IsSomeAnd, map, string_bytes};
ghost use Rattle.clap.specs.Words.{kind_of, subcommand_rows_of};
ghost use Rattle.jc_command_args.specs.Words.{AreAnswered, AreRight, AskFor, Asks, AsksNothing};

use crate::asked::{is_about_owners, lacks_list, lacks_sequences, requested};
use crate::grammar::{collect_command, owners_command, program};
use crate::making::named;
use crate::request::Request;
use crate::texts;
use clap::error::ErrorKind;
use clap::{ArgMatches, Error};
use std::alloc::{AllocError, Global};

/// Reads the arguments, the program's name first. The error is a mistake in them, a request for help or for the
/// version, or refused memory.
pub fn parse<'a>(alloc: Global, words: &'a [String]) -> Result<Request<'a>, Error>
    ensures request { IfOk result (AskFor (map string_bytes words.entry.now)) }
    ensures answer { IfErr result (λ e. (kind_of e ≡ ErrorKind.OutOfMemory)
        ⊎ AreAnswered (map string_bytes words.entry.now) (kind_of e)) }
{
    match found(alloc, words) {
        Ok(matches) => meant(alloc, &matches),
        Err(error) => Err(error),
    }
}

/// What the matches mean, or why they mean nothing.
fn meant<'a>(alloc: Global, matches: &ArgMatches<'a>) -> Result<Request<'a>, Error>
    ensures request { IfOk result (λ request. IsSomeAnd (subcommand_rows_of matches.now) (λ found. Asks found request)) }
    ensures answer { IfErr result (λ e. (kind_of e ≡ ErrorKind.OutOfMemory)
        ⊎ ((kind_of e ≡ ErrorKind.ArgumentConflict) × AsksNothing (subcommand_rows_of matches.now))) }
{
    match requested(alloc, matches) {
        Ok(Some(request)) => Ok(request),
        Ok(None) => Err(mistake(alloc, matches)),
        Err(refused) => Err(Error::from(refused)),
    }
}

/// What `clap` finds in the words.
fn found<'a>(alloc: Global, words: &'a [String]) -> Result<ArgMatches<'a>, Error>
    ensures right { IfOk result (λ matches. AreRight (map string_bytes words.entry.now) (subcommand_rows_of matches)) }
    ensures answer { IfErr result (λ e. (kind_of e ≡ ErrorKind.OutOfMemory)
        ⊎ AreAnswered (map string_bytes words.entry.now) (kind_of e)) }
{
    let program = Box::into_inner(program(alloc)?);
    program.try_get_matches_from(words)
}

/// The mistake in words that mean nothing.
fn mistake(alloc: Global, matches: &ArgMatches<'_>) -> Error
    ensures { (kind_of result ≡ ErrorKind.OutOfMemory) ⊎ (kind_of result ≡ ErrorKind.ArgumentConflict) }
{
    match conflict(alloc, matches) {
        Ok(error) => error,
        Err(refused) => Error::from(refused),
    }
}

/// What is wrong with arguments that ask for nothing: those of `owners` change it in two ways or in none, or uploads are
/// named in both ways, or not as the folder of sequences needs it. All else that a command requires is there once `clap` has
/// passed the arguments.
fn mistake_in(matches: &ArgMatches<'_>) -> &'static str {
    if is_about_owners(matches) {
        texts::NO_CHANGE
    } else if lacks_list(matches) {
        texts::NO_LIST
    } else if lacks_sequences(matches) {
        texts::NO_SEQUENCES
    } else {
        texts::TWO_LISTS
    }
}

/// A mistake in the arguments of `collect` or `owners`, as `clap` puts such mistakes.
fn conflict(alloc: Global, matches: &ArgMatches<'_>) -> Result<Error, AllocError>
    ensures { IfOk result (λ e. kind_of e ≡ ErrorKind.ArgumentConflict) }
{
    let command = if is_about_owners(matches) {
        named(alloc, owners_command(alloc).command, texts::OWNERS_NAME)
    } else {
        named(alloc, collect_command(alloc).command, texts::COLLECT_NAME)
    };
    let mut command = Box::into_inner(command?);
    command.error(ErrorKind::ArgumentConflict, mistake_in(matches))
}
