//! The lines that ask for notes.

ghost use Rattle.std.specs.Prelude.{◌≡◌, ◌⊎◌, ℕ, IfErr, IfOk};
ghost use Rattle.jc_notes.specs.Lines.{AreLines, IsFirstBad, IsFirstBadFront, NameOnce, front_at, key_at};

use jc_base::{Key, NUMBER_END};
use jc_command_shared::{Failure, line_length};
use jc_ledger_files::WindowName;
use jc_upload::Words;
use std::alloc::Global;
use std::collections::BTreeSet;

/// So many notes of a window.
#[derive(Clone, Copy)]
pub(crate) struct Front {
    pub(crate) window: WindowName,
    pub(crate) count: u64,
}

/// The keys whose lines the text is: `SEQUENCE NUMBER`.
pub(crate) fn keys_in<'p>(alloc: Global, text: &[u8]) -> Result<Vec<Key>, Failure<'p>>
    ensures all { IfOk result (λ keys. AreLines key_at keys.items text.now) }
    ensures bad { IfErr result (λ failure. (line : ℕ) → failure ≡ Failure.BadLine line → IsFirstBad key_at text.now line) }
    ensures failed { IfErr result (λ failure. ((line : ℕ) × (failure ≡ Failure.BadLine line)) ⊎ (failure ≡ Failure.OutOfMemory)) }
{
    let mut keys = Vec::new(alloc);
    let mut rest = text;
    while !rest.is_empty() {
        let (line, behind) = rest.split_at(line_length(rest));
        match key_in(line) {
            Some(key) => keys.push(key)?,
            None => return Err(Failure::BadLine(keys.len() as u64 + 1)),
        }
        rest = behind;
    }
    Ok(keys)
}

/// The key whose line this is. No entry has a number of 2^63 or more.
#[tactic(auto, unfolding(crate::specs::Lines::key_at))]
fn key_in(line: &[u8]) -> Option<Key>
    ensures { result ≡ key_at line.now }
{
    let mut words = Words::new(line);
    let seqnum_id = words.id(b' ')?;
    let seqnum = words.number(b'\n')?;
    let key = Key { seqnum_id, seqnum };
    (seqnum < NUMBER_END && words.is_empty()).then_some(key)
}

/// The first notes of windows whose lines the text is: `SEQUENCE WINDOW COUNT`. Each window is named once.
pub(crate) fn fronts_in<'p>(alloc: Global, text: &[u8]) -> Result<Vec<Front>, Failure<'p>>
    ensures all { IfOk result (λ fronts. AreLines front_at fronts.items text.now) }
    ensures once { IfOk result (λ fronts. NameOnce fronts.items) }
    ensures bad { IfErr result (λ failure. (line : ℕ) → failure ≡ Failure.BadLine line → IsFirstBadFront text.now line) }
    ensures failed { IfErr result (λ failure. ((line : ℕ) × (failure ≡ Failure.BadLine line)) ⊎ (failure ≡ Failure.OutOfMemory)) }
{
    let mut fronts = Vec::new(alloc);
    let mut named = BTreeSet::new(alloc);
    let mut rest = text;
    while !rest.is_empty() {
        let (line, behind) = rest.split_at(line_length(rest));
        match front_in(line) {
            Some(front) if named.insert(key_of(front.window))? => fronts.push(front)?,
            _ => return Err(Failure::BadLine(fronts.len() as u64 + 1)),
        }
        rest = behind;
    }
    Ok(fronts)
}

/// The first notes whose line this is.
#[tactic(auto, unfolding(crate::specs::Lines::front_at))]
fn front_in(line: &[u8]) -> Option<Front>
    ensures { result ≡ front_at line.now }
{
    let mut words = Words::new(line);
    let sequence = words.id(b' ')?;
    let window = words.number(b' ')?;
    let count = words.number(b'\n')?;
    let front = Front {
        window: WindowName { sequence, window },
        count,
    };
    words.is_empty().then_some(front)
}

/// A window as a key whose number is the window's.
fn key_of(name: WindowName) -> Key
    ensures sequence { result.seqnum_id ≡ name.sequence }
    ensures window { result.seqnum ≡ name.window }
{
    Key {
        seqnum_id: name.sequence,
        seqnum: name.window,
    }
}
