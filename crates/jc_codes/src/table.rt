//! What a code means, and what to do about it.

ghost use Rattle.std.specs.Prelude.{ℕ, List, IfOk, MatchOption};
ghost use Rattle.jc_codes.specs.Rows.{IsBelow, IsRow, SaysRow};
ghost use Rattle.jc_codes.specs.declared.table.Coded.{Coded as Row};

use jc_command_args::CODES;
use std::alloc::{AllocError, Global};

/// What the table of codes says of one.
#[derive(Clone, Copy, Debug)]
pub struct Coded {
    pub name: &'static str,
    pub meaning: &'static str,
    pub advice: &'static str,
}

/// The lines of the table about a code: none if it isn't there.
pub fn row_about(alloc: Global, code: u64) -> Result<Option<Coded>, AllocError>
    ensures { IfOk result (λ found. MatchOption found ((row : Row) → ¬ IsRow code CODES.now row) (IsRow code CODES.now)) }
{
    let number = format!(in alloc; "{code} ")?;
    match CODES.strip_prefix(number.as_str()) {
        Some(rest) => Ok(row_of(rest)),
        None => row_behind(alloc, number.as_str()),
    }
}

/// The lines that begin with a number, behind another line.
fn row_behind(alloc: Global, number: &str) -> Result<Option<Coded>, AllocError>
    ensures { IfOk result (λ found. MatchOption found
        ((rest : List ℕ) (row : Row) → IsBelow number.now CODES.now rest → ¬ SaysRow rest row)
        (λ row. (rest : List ℕ) × IsBelow number.now CODES.now rest × SaysRow rest row)) }
{
    let begin = format!(in alloc; "\n{number}")?;
    match CODES.split_once(begin.as_str()) {
        Some((_, rest)) => Ok(row_of(rest)),
        None => Ok(None),
    }
}

/// What two lines say, the first of which begins behind its number.
fn row_of(rest: &'static str) -> Option<Coded>
    ensures { MatchOption result ((row : Row) → ¬ SaysRow rest.now row) (SaysRow rest.now) }
{
    let (line, below) = rest.split_once('\n')?;
    let (name, meaning) = line.trim().split_once(' ')?;
    let (advice, _) = below.split_once('\n')?;
    Some(Coded {
        name,
        meaning: meaning.trim(),
        advice: advice.trim(),
    })
}
