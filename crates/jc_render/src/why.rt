//! What a command works on, and why what it told is so.

ghost use Rattle.std.specs.Prelude.{◌≡◌, ℕ, List, IfOk, IfSome, MatchOption, map, option_map, string_bytes};
ghost use Rattle.jc_render.specs.Explanations.{Differs, Explains, IsSubjectOf, IsWhy, SaysBad, SaysCode, SaysRefused, SaysStore, SaysUnopened, database_in, empty_text, no_journal_cause, noted_cause, notes_text, sequences_in};

use crate::cause::{Cause, advice};
use crate::noting::Trouble;
use crate::witness::{Noted, Seen};
use jc_codes::row_about;
use jc_command_args::{CODES, Request, parse};
use jc_command_shared::Failure;
use std::alloc::{AllocError, Global};

/// The code of a database that has no journal.
const NOT_A_JOURNAL: u16 = 64;

/// The code of a store that failed.
const STORE_FAILED: u16 = 62;

/// The code of a database that has another entry than the one that is noted.
const DIFFERS: u16 = 60;

/// What a command works on, as far as an explanation asks for it.
#[derive(Drop)]
pub(crate) struct Subject<'a> {
    pub(crate) database: Option<&'a str>,
    /// The folder in which is noted what databases have.
    pub(crate) sequences: Option<&'a str>,
    pub(crate) seen: Seen,
}

/// What the words ask to be worked on: nothing if they ask for nothing.
pub(crate) fn subject_of<'a>(alloc: Global, words: &'a [String], seen: Seen) -> Subject<'a>
    ensures { IsSubjectOf (map string_bytes words.entry.now) seen result }
{
    match parse(alloc, words) {
        Ok(request) => {
            let (database, sequences) = named_in(request);
            Subject {
                database,
                sequences,
                seen,
            }
        }
        Err(_) => Subject {
            database: None,
            sequences: None,
            seen,
        },
    }
}

/// The database that a request names, and the folder.
fn named_in<'a>(request: Request<'a>) -> (Option<&'a str>, Option<&'a str>)
    ensures database { option_map (λ path. path.now) result.0 ≡ database_in request.entry }
    ensures sequences { option_map (λ path. path.now) result.1 ≡ sequences_in request.entry }
{
    match request {
        Request::CollectIntoUnion {
            database,
            sequences,
            ..
        }
        | Request::CheckNoted {
            database,
            sequences,
        } => (Some(database), Some(sequences)),
        Request::Collect { database, .. }
        | Request::CollectListed { database, .. }
        | Request::Check { database }
        | Request::Migrate { database, .. }
        | Request::Export { database }
        | Request::Show { database, .. } => (Some(database), None),
        Request::Notes { sequences, .. }
        | Request::ListOwners { sequences }
        | Request::RenameOwner { sequences, .. }
        | Request::ReleaseSequence { sequences, .. } => (None, Some(sequences)),
        _ => (None, None),
    }
}

/// What is to be said about this, if the table of codes has its code.
pub(crate) fn explanation(
    alloc: Global,
    subject: &Subject<'_>,
    trouble: &Trouble,
) -> Result<Option<String>, AllocError>
    ensures { IfOk result (λ found. IfSome found (λ text. Explains subject.now CODES.now trouble.now (string_bytes text))) }
{
    let told = match trouble {
        Trouble::Bad(code) => return why_bad(alloc, subject, *code),
        Trouble::Refused(code) => return why_refused(alloc, subject, *code),
        Trouble::Empty(left) => why_empty(alloc, *left)?,
        Trouble::Unopened(path) => why_unopened(alloc, subject, path.as_str())?,
        Trouble::Store => why_store(alloc, subject)?,
        Trouble::Failed(advice) => String::from_str(alloc, advice)?,
    };
    Ok(Some(told))
}

/// Why this is wrong with a file or a database.
fn why_bad(alloc: Global, subject: &Subject<'_>, code: u16) -> Result<Option<String>, AllocError>
    ensures { IfOk result (λ found. IfSome found (λ text. SaysBad subject.now CODES.now code (string_bytes text))) }
{
    match noted_beside(subject, code) {
        Some((database, folder)) => Ok(Some(format!(in alloc;
            "an entry of {database} isn't the one that is noted in {folder}: the guide, \"A machine that was set back\""
        )?)),
        None => why_refused(alloc, subject, code),
    }
}

/// The database, and the folder in which is noted what it has, if the code says that the two differ.
fn noted_beside<'a>(subject: &Subject<'a>, code: u16) -> Option<(&'a str, &'a str)>
    ensures { MatchOption result ((path folder : List ℕ) → ¬ Differs subject.now code path folder)
        (λ found. Differs subject.now code found.0.now found.1.now) }
{
    if code != DIFFERS {
        return None;
    }
    match (subject.database, subject.sequences) {
        (Some(database), Some(folder)) => Some((database, folder)),
        _ => None,
    }
}

/// Why this file can't be opened: what was seen of it.
fn why_unopened(alloc: Global, subject: &Subject<'_>, path: &str) -> Result<String, AllocError>
    ensures { IfOk result (λ text. SaysUnopened subject.now path.now (string_bytes text)) }
{
    let cause = why_of(subject, path);
    format!(in alloc; "{path} {}", cause.text())
}

/// Why this file of a command can't be opened.
fn why_of(subject: &Subject<'_>, path: &str) -> Cause
    ensures { IsWhy subject.now path.now result }
{
    match (noted_of(&subject.seen.files, path), &subject.seen.notes) {
        (Some(cause), _) => cause,
        (None, Some(noted)) if noted.path.as_str() == path => noted.cause,
        (None, _) => Cause::Unknown,
    }
}

/// What was noted last of this file.
fn noted_of(notes: &[Noted], path: &str) -> Option<Cause>
    ensures { result ≡ noted_cause notes.now path.now }
{
    let noted = notes.iter().find(|noted| noted.path.as_str() == path)?;
    Some(noted.cause)
}

/// Why a file of which this is noted is taken for no journal's database.
fn no_journal_cause(noted: Cause) -> Cause
    ensures { result ≡ no_journal_cause noted }
{
    match noted {
        Cause::NoTables => Cause::OtherTables,
        _ => Cause::NotDatabase,
    }
}

/// Why the store failed.
fn why_store(alloc: Global, subject: &Subject<'_>) -> Result<String, AllocError>
    ensures { IfOk result (λ text. SaysStore subject.now (string_bytes text)) }
{
    match &subject.seen.notes {
        Some(noted) => why_notes(alloc, noted),
        None => String::from_str(alloc, advice(&Failure::StoreFailed)),
    }
}

/// Why a file of notes failed.
fn why_notes(alloc: Global, noted: &Noted) -> Result<String, AllocError>
    ensures { IfOk result (λ text. string_bytes text ≡ notes_text noted.now) }
{
    let (path, cause) = (&noted.path, noted.cause.text());
    format!(in alloc; "the file of notes {path} {cause}")
}

/// Why what has this code is refused: none if the table doesn't have it.
fn why_refused(
    alloc: Global,
    subject: &Subject<'_>,
    code: u16,
) -> Result<Option<String>, AllocError>
    ensures { IfOk result (λ found. IfSome found (λ text. SaysRefused subject.now CODES.now code (string_bytes text))) }
{
    match &subject.seen.notes {
        Some(noted) if code == STORE_FAILED => Ok(Some(why_notes(alloc, noted)?)),
        _ => why_code(alloc, subject, code),
    }
}

/// What a code means and what to do about it: none if the table doesn't have it.
fn why_code(alloc: Global, subject: &Subject<'_>, code: u16) -> Result<Option<String>, AllocError>
    ensures { IfOk result (λ found. IfSome found (λ text. SaysCode subject.now CODES.now code (string_bytes text))) }
{
    let Some(row) = row_about(alloc, u64::from(code))? else {
        return Ok(None);
    };
    let (name, meaning, advice) = (row.name, row.meaning, row.advice);
    match subject.database {
        Some(path) if code == NOT_A_JOURNAL => {
            let cause = no_journal_cause(why_of(subject, path)).text();
            Ok(Some(format!(in alloc; "{code} {name} ({meaning}): {path} {cause}")?))
        }
        _ => Ok(Some(format!(in alloc; "{code} {name} ({meaning}): {advice}")?)),
    }
}

/// What it means that there was no complete entry in what was read.
fn why_empty(alloc: Global, left: u64) -> Result<String, AllocError>
    ensures { IfOk result (λ text. string_bytes text ≡ empty_text left) }
{
    if left == 0 {
        return String::from_str(alloc, "there was nothing to read: it has no entries");
    }
    format!(in alloc;
        "no entry is complete: the {left} bytes end within the first one, or are no journal's"
    )
}
