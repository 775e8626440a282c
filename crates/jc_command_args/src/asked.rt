//! What the matches that `clap` found ask for.

ghost use Rattle.std.specs.Prelude.{◌≡◌, ◌≢◌, ◌↔◌, ℕ, Option, Some, IsSomeAnd, IsTrue, IfOk, MatchOption, codes, map, option_map};
ghost use Rattle.clap.specs.Words.{first_of, subcommand_rows_of};
ghost use Rattle.jc_command_args.specs.declared.request.Source.{Source as SourceWords};
ghost use Rattle.jc_command_args.specs.Grammar.{kind_name, tables_name, task_name};
ghost use Rattle.jc_command_args.specs.Words.{AreTablesOr, AskBy, Asks, AsksNone, AsksNothing, IsGiven, IsNumberIfGiven, IsNumberOr, NameSource, all_given, command_name, given_rows};

use crate::arguments::MOST;
use crate::request::{InputKind, NotesTask, Request, Source, Tables};
use clap::ArgMatches;
use std::alloc::{AllocError, Global};

/// How many entries an upload has at most if no limit is given.
const ENTRIES: u64 = 1000;

/// What the matches ask for; `None` if they lack what a command requires, or have what doesn't go together.
pub(crate) fn requested<'a>(
    alloc: Global,
    matches: &ArgMatches<'a>,
) -> Result<Option<Request<'a>>, AllocError>
    ensures { IfOk result (λ asked. MatchOption asked (AsksNothing (subcommand_rows_of matches.now))
        (λ request. IsSomeAnd (subcommand_rows_of matches.now) (λ found. Asks found request))) }
{
    let Some((name, given)) = matches.subcommand() else {
        return Ok(None);
    };
    if name == "collect" {
        collect_request(alloc, given)
    } else {
        Ok(other_request(name, given))
    }
}

/// What a command other than `collect` is asked for.
fn other_request<'a>(name: &str, given: &ArgMatches<'a>) -> Option<Request<'a>>
    ensures { name.now ≢ codes "collect" → MatchOption result (AsksNothing (Some (name.now, given_rows given.now)))
        (Asks (name.now, given_rows given.now)) }
{
    match name {
        "export" => export_request(given),
        "show" => show_request(given),
        "check" => check_request(given),
        "notes" => notes_request(given),
        "owners" => owners_request(given),
        "migrate" => migrate_request(given),
        "verify" => verify_request(given),
        "inspect" => inspect_request(given),
        "upload" => upload_request(given),
        "ack" => ack_request(given),
        "acknowledged" => acknowledged_request(given),
        "codes" => Some(Request::ListCodes),
        _ => None,
    }
}

/// Whether the matches name a folder of sequences, and no list of uploads.
pub(crate) fn lacks_list(matches: &ArgMatches<'_>) -> bool {
    has_alone(matches, "sequences", "files-from")
}

/// Whether the matches bound windows of sequences, and name no folder of these.
pub(crate) fn lacks_sequences(matches: &ArgMatches<'_>) -> bool {
    has_alone(matches, "most-windows", "sequences")
}

/// Whether the matches are those of `owners`.
pub(crate) fn is_about_owners(matches: &ArgMatches<'_>) -> bool {
    match matches.subcommand() {
        Some((name, _)) => name == "owners",
        None => false,
    }
}

/// Whether one argument is given, and another one isn't.
fn has_alone(matches: &ArgMatches<'_>, one: &str, other: &str) -> bool {
    match matches.subcommand() {
        Some((_, given)) => {
            text_given(given, one).is_some() && text_given(given, other).is_none()
        }
        None => false,
    }
}

fn collect_request<'a>(
    alloc: Global,
    given: &ArgMatches<'a>,
) -> Result<Option<Request<'a>>, AllocError>
    ensures { IfOk result (λ asked. MatchOption asked (AsksNone (given_rows given.now) (codes "collect"))
        (λ request. (command_name request ≡ codes "collect") × AskBy (given_rows given.now) request)) }
{
    let Some(database) = text_given(given, "DB") else {
        return Ok(None);
    };
    let Some(tables) = tables_given(given) else {
        return Ok(None);
    };
    let most_windows = match number_if_given(given, "most-windows") {
        Some(most_windows) => most_windows,
        None => return Ok(None),
    };
    let uploads = texts_given(alloc, given, "UPLOAD")?;
    Ok(collect_by(given, database, tables, most_windows, uploads))
}

/// A `collect` of uploads that are named, or of those that a list names.
fn collect_by<'a>(
    given: &ArgMatches<'a>,
    database: &'a str,
    tables: Tables,
    most_windows: Option<u64>,
    uploads: Vec<&'a str>,
) -> Option<Request<'a>>
    ensures { IsGiven (given_rows given.now) (codes "DB") database.entry.now
        → AreTablesOr Tables.ByKey (first_of (codes "tables") (given_rows given.now)) tables
        → IsNumberIfGiven (first_of (codes "most-windows") (given_rows given.now)) most_windows
        → map (λ text. text.now) uploads.entry.items ≡ all_given (given_rows given.now) (codes "UPLOAD")
        → MatchOption result (AsksNone (given_rows given.now) (codes "collect"))
        (λ request. (command_name request ≡ codes "collect") × AskBy (given_rows given.now) request) }
{
    let then_export = text_given(given, "then-export");
    let sequences = text_given(given, "sequences");
    match (text_given(given, "files-from"), sequences) {
        (None, None) if most_windows.is_none() => Some(Request::Collect {
            database,
            tables,
            uploads,
            then_export,
        }),
        (Some(list), None) if uploads.is_empty() && most_windows.is_none() => {
            Some(Request::CollectListed {
                database,
                tables,
                list,
                then_export,
            })
        }
        (Some(list), Some(sequences)) if uploads.is_empty() => Some(Request::CollectIntoUnion {
            database,
            tables,
            list,
            sequences,
            most_windows,
            then_export,
        }),
        _ => None,
    }
}

fn export_request<'a>(given: &ArgMatches<'a>) -> Option<Request<'a>>
    ensures { MatchOption result (AsksNone (given_rows given.now) (codes "export"))
        (λ request. (command_name request ≡ codes "export") × AskBy (given_rows given.now) request) }
{
    let database = text_given(given, "DB")?;
    Some(Request::Export { database })
}

fn show_request<'a>(given: &ArgMatches<'a>) -> Option<Request<'a>>
    ensures { MatchOption result (AsksNone (given_rows given.now) (codes "show"))
        (λ request. (command_name request ≡ codes "show") × AskBy (given_rows given.now) request) }
{
    let first = number_given(given, "from", 0)?;
    let last = number_given(given, "to", MOST)?;
    let database = text_given(given, "DB")?;
    Some(Request::Show {
        database,
        field: text_given(given, "field"),
        id: text_given(given, "id"),
        first,
        last,
    })
}

fn check_request<'a>(given: &ArgMatches<'a>) -> Option<Request<'a>>
    ensures { MatchOption result (AsksNone (given_rows given.now) (codes "check"))
        (λ request. (command_name request ≡ codes "check") × AskBy (given_rows given.now) request) }
{
    let database = text_given(given, "DB")?;
    match text_given(given, "sequences") {
        Some(sequences) => Some(Request::CheckNoted {
            database,
            sequences,
        }),
        None => Some(Request::Check { database }),
    }
}

fn notes_request<'a>(given: &ArgMatches<'a>) -> Option<Request<'a>>
    ensures { MatchOption result (AsksNone (given_rows given.now) (codes "notes"))
        (λ request. (command_name request ≡ codes "notes") × AskBy (given_rows given.now) request) }
{
    let sequences = text_given(given, "sequences")?;
    let task = task_of(text_given(given, "TASK")?)?;
    Some(Request::Notes { sequences, task })
}

fn task_of(text: &str) -> Option<NotesTask>
    ensures { MatchOption result ((task : NotesTask) → task_name task ≢ text.now)
        (λ task. task_name task ≡ text.now) }
{
    match text {
        "has" => Some(NotesTask::Has),
        "forget-after" => Some(NotesTask::ForgetAfter),
        "verify" => Some(NotesTask::Verify),
        _ => None,
    }
}

fn owners_request<'a>(given: &ArgMatches<'a>) -> Option<Request<'a>>
    ensures { MatchOption result (AsksNone (given_rows given.now) (codes "owners"))
        (λ request. (command_name request ≡ codes "owners") × AskBy (given_rows given.now) request) }
{
    let sequences = text_given(given, "sequences")?;
    match (
        text_given(given, "rename"),
        text_given(given, "NEW"),
        text_given(given, "release"),
    ) {
        (None, None, None) => Some(Request::ListOwners { sequences }),
        (Some(old), Some(new), None) => Some(Request::RenameOwner {
            sequences,
            old,
            new,
        }),
        (None, None, Some(sequence)) => Some(Request::ReleaseSequence {
            sequences,
            sequence,
        }),
        _ => None,
    }
}

fn migrate_request<'a>(given: &ArgMatches<'a>) -> Option<Request<'a>>
    ensures { MatchOption result (AsksNone (given_rows given.now) (codes "migrate"))
        (λ request. (command_name request ≡ codes "migrate") × AskBy (given_rows given.now) request) }
{
    let database = text_given(given, "DB")?;
    let tables = tables_given(given)?;
    Some(Request::Migrate { database, tables })
}

fn verify_request<'a>(given: &ArgMatches<'a>) -> Option<Request<'a>>
    ensures { MatchOption result (AsksNone (given_rows given.now) (codes "verify"))
        (λ request. (command_name request ≡ codes "verify") × AskBy (given_rows given.now) request) }
{
    let kind = kind_given(given)?;
    let file = text_given(given, "FILE")?;
    Some(Request::Verify { kind, file })
}

fn inspect_request<'a>(given: &ArgMatches<'a>) -> Option<Request<'a>>
    ensures { MatchOption result (AsksNone (given_rows given.now) (codes "inspect"))
        (λ request. (command_name request ≡ codes "inspect") × AskBy (given_rows given.now) request) }
{
    let most_entries = number_given(given, "most-entries", MOST)?;
    let most_fields = number_given(given, "most-fields", MOST)?;
    let most_bytes = number_given(given, "most-bytes", MOST)?;
    let most_windows = number_given(given, "most-windows", MOST)?;
    let file = text_given(given, "FILE")?;
    Some(Request::Inspect {
        file,
        most_entries,
        most_fields,
        most_bytes,
        most_windows,
    })
}

fn upload_request<'a>(given: &ArgMatches<'a>) -> Option<Request<'a>>
    ensures { MatchOption result (AsksNone (given_rows given.now) (codes "upload"))
        (λ request. (command_name request ≡ codes "upload") × AskBy (given_rows given.now) request) }
{
    let source = source_given(given)?;
    let limit = number_given(given, "limit", ENTRIES)?;
    let most_bytes = number_if_given(given, "bytes")?;
    let whole = is_set(given, "whole");
    Some(Request::Upload {
        source,
        limit,
        most_bytes,
        whole,
    })
}

fn ack_request<'a>(given: &ArgMatches<'a>) -> Option<Request<'a>>
    ensures { MatchOption result (AsksNone (given_rows given.now) (codes "ack"))
        (λ request. (command_name request ≡ codes "ack") × AskBy (given_rows given.now) request) }
{
    let source = source_given(given)?;
    Some(Request::Ack { source })
}

fn acknowledged_request<'a>(given: &ArgMatches<'a>) -> Option<Request<'a>>
    ensures { MatchOption result (AsksNone (given_rows given.now) (codes "acknowledged"))
        (λ request. (command_name request ≡ codes "acknowledged") × AskBy (given_rows given.now) request) }
{
    let upload = text_given(given, "UPLOAD")?;
    Some(Request::Acknowledged { upload })
}

fn source_given<'a>(given: &ArgMatches<'a>) -> Option<Source<'a>>
    ensures { MatchOption result ((source : SourceWords) → ¬ NameSource (given_rows given.now) source)
        (NameSource (given_rows given.now)) }
{
    let kind = kind_given(given)?;
    let id = text_given(given, "source")?;
    let resume = text_given(given, "resume")?;
    let file = text_given(given, "IN")?;
    Some(Source {
        kind,
        id,
        resume,
        file,
    })
}

/// The number that is an argument's value, or another if it has none.
fn number_given(given: &ArgMatches<'_>, name: &str, unless_given: u64) -> Option<u64>
    ensures { MatchOption result
        ((number : ℕ) → ¬ IsNumberOr unless_given (first_of name.now (given_rows given.now)) number)
        (IsNumberOr unless_given (first_of name.now (given_rows given.now))) }
{
    match text_given(given, name) {
        Some(text) => number_of(text),
        None => Some(unless_given),
    }
}

/// The number that is an argument's value, if it has one.
fn number_if_given(given: &ArgMatches<'_>, name: &str) -> Option<Option<u64>>
    ensures { MatchOption result
        ((number : Option ℕ) → ¬ IsNumberIfGiven (first_of name.now (given_rows given.now)) number)
        (IsNumberIfGiven (first_of name.now (given_rows given.now))) }
{
    match text_given(given, name) {
        Some(text) => Some(Some(number_of(text)?)),
        None => Some(None),
    }
}

/// The number that an argument is.
fn number_of(word: &str) -> Option<u64>
    ensures { MatchOption result ((number : ℕ) → ¬ IsNumberOr 0 (Some word.now) number) (IsNumberOr 0 (Some word.now)) }
{
    word.parse().ok()
}

/// Whether an argument without a value is given: `clap` has a text for it.
fn is_set(given: &ArgMatches<'_>, name: &str) -> bool
    ensures { IsTrue result ↔ IsGiven (given_rows given.now) name.now (codes "true") }
{
    match text_given(given, name) {
        Some(text) => text == "true",
        None => false,
    }
}

fn kind_given(given: &ArgMatches<'_>) -> Option<InputKind>
    ensures { MatchOption result ((kind : InputKind) → ¬ IsGiven (given_rows given.now) (codes "KIND") (kind_name kind))
        (λ kind. IsGiven (given_rows given.now) (codes "KIND") (kind_name kind)) }
{
    let word = text_given(given, "KIND")?;
    kind_of(word)
}

fn kind_of(text: &str) -> Option<InputKind>
    ensures { MatchOption result ((kind : InputKind) → kind_name kind ≢ text.now) (λ kind. kind_name kind ≡ text.now) }
{
    match text {
        "export" => Some(InputKind::Export),
        "file" => Some(InputKind::File),
        _ => None,
    }
}

/// The tables that are named, or those by key if none are.
fn tables_given(given: &ArgMatches<'_>) -> Option<Tables>
    ensures { MatchOption result
        ((tables : Tables) → ¬ AreTablesOr Tables.ByKey (first_of (codes "tables") (given_rows given.now)) tables)
        (AreTablesOr Tables.ByKey (first_of (codes "tables") (given_rows given.now))) }
{
    match text_given(given, "tables") {
        Some(text) => tables_of(text),
        None => Some(Tables::ByKey),
    }
}

fn tables_of(text: &str) -> Option<Tables>
    ensures { MatchOption result ((tables : Tables) → tables_name tables ≢ text.now)
        (λ tables. tables_name tables ≡ text.now) }
{
    match text {
        "2" => Some(Tables::ByKey),
        "3" => Some(Tables::ByNumber),
        _ => None,
    }
}

/// The first value of an argument.
fn text_given<'a>(given: &ArgMatches<'a>, name: &str) -> Option<&'a str>
    ensures { option_map (λ s. s.now) result ≡ first_of name.now (given_rows given.now) }
{
    given.get_str(name)
}

/// All values of an argument, in the order of the command line.
fn texts_given<'a>(
    alloc: Global,
    given: &ArgMatches<'a>,
    name: &str,
) -> Result<Vec<&'a str>, AllocError>
    ensures { IfOk result (λ texts. map (λ text. text.now) texts.items ≡ all_given (given_rows given.now) name.now) }
{
    match given.get_strs(name) {
        Some(values) => Vec::from_slice(alloc, values),
        None => Ok(Vec::new(alloc)),
    }
}
