//! `notes has`: which keys are noted.

ghost use Rattle.std.specs.Prelude.{◌≡◌, ◌≢◌, ℕ, List, Option as Maybe, true, IfErr, IfOk, IfSome, OnOk};
ghost use Rattle.std.specs.Io.KnownBytes.{Appends, Keeps};
ghost use Rattle.jc_command_shared.specs.Failure.{status_of};
ghost use Rattle.jc_ledger_files.specs.Windows.{window_of};
ghost use Rattle.jc_notes.specs.Each.{PrintsEach};
ghost use Rattle.jc_notes.specs.Failing.{LinesFail, ReadingFails, WorkFails};
ghost use Rattle.jc_notes.specs.Found.{IsNotedIn, KeepsRead};
ghost use Rattle.jc_notes.specs.Lines.{IsFirstBad, OfLines, key_at};
ghost use Rattle.jc_notes.specs.Printed.{IsNotedTold, Prints};
ghost use Rattle.jc_notes.specs.Texts.{noted_line};
ghost use Rattle.jc_sequences.specs.Placed.{path_of};

use crate::lines::keys_in;
use crate::reading::{digest_of, notes_in};
use crate::texts::put;
use jc_base::Key;
use jc_command_shared::{Failure, Status, System, printed, read_whole};
use jc_ledger::EntryDigest;
use jc_ledger_files::{WindowName, WindowNote, window_of};
use std::alloc::Global;
use std::io::{Read, Write};

/// The notes of the window that was read last.
#[derive(Drop)]
pub struct NotesRead {
    window: Option<WindowName>,
    notes: Vec<WindowNote>,
}

impl NotesRead {
    /// None was read yet. Takes no memory.
    pub fn new(alloc: Global) -> NotesRead
        ensures none { (found : List ℕ → Maybe (List ℕ)) (folder : List ℕ) → KeepsRead found folder result }
    {
        NotesRead {
            window: None,
            notes: Vec::new(alloc),
        }
    }

    /// The digest that is noted under a key in a folder, if there is one.
    pub fn find<'p, R: System>(
        &mut self,
        rt: &R,
        folder: &str,
        key: &Key,
    ) -> Result<Option<EntryDigest>, Failure<'p>>
        // What is kept is of this folder, if it was before.
        ensures kept { KeepsRead R.found folder.now self.old → KeepsRead R.found folder.now self.new }
        ensures found { KeepsRead R.found folder.now self.old
            → IfOk result (IsNotedIn (R.found (path_of folder.now (window_of key.now))) key.now.seqnum) }
        ensures failed { IfErr result ReadingFails }
    {
        let window = window_of(key);
        if self.window != Some(window) {
            self.notes = notes_in(rt, folder, window)?;
            self.window = Some(window);
        }
        Ok(digest_of(&self.notes, key.seqnum))
    }
}

/// Says of each key on standard input, a line `SEQUENCE NUMBER`, whether it is noted in the folder.
#[tactic(auto, using(crate::proofs::Failures::work_failed))]
pub fn say_noted<'p, R: System, I: Read, O: Write>(
    rt: &R,
    folder: &str,
    input: &mut I,
    output: &mut O,
) -> Result<(), Failure<'p>>
    // Of each key that a known text asks for.
    ensures printed { OnOk result (IfSome (I.remaining input.old) (OfLines key_at
        (λ keys. PrintsEach (IsNotedTold R.found folder.now) keys Status.Success (O.contents output.old) (O.contents output.new)))) }
    ensures bad { IfErr result (λ failure. (line : ℕ) → failure ≡ Failure.BadLine line
        → IfSome (I.remaining input.old) (λ text. IsFirstBad key_at text line)) }
    ensures failed { IfErr result LinesFail }
    ensures untouched { IfErr result (λ failure. status_of failure ≢ Status.Failed
        → Keeps (O.contents output.old) (O.contents output.new)) }
{
    let text = read_whole(rt.alloc(), input)?;
    let keys = keys_in(rt.alloc(), &text)?;
    say_each(rt, folder, &keys, output)
}

/// Says of each of these keys whether it is noted.
fn say_each<'p, R: System, O: Write>(
    rt: &R,
    folder: &str,
    keys: &[Key],
    output: &mut O,
) -> Result<(), Failure<'p>>
    ensures printed { OnOk result (PrintsEach (IsNotedTold R.found folder.now) keys.now Status.Success
        (O.contents output.old) (O.contents output.new)) }
    ensures failed { IfErr result WorkFails }
{
    let mut notes = NotesRead::new(rt.alloc());
    for key in keys {
        say_key(rt, folder, key, &mut notes, output)?;
    }
    printed(Ok(()), output)
}

/// Says of a key whether it is noted.
fn say_key<'p, R: System, O: Write>(
    rt: &R,
    folder: &str,
    key: &Key,
    notes: &mut NotesRead,
    output: &mut O,
) -> Result<(), Failure<'p>>
    ensures kept { KeepsRead R.found folder.now notes.old → KeepsRead R.found folder.now notes.new }
    ensures printed { KeepsRead R.found folder.now notes.old
        → OnOk result (Prints (IsNotedTold R.found folder.now key.now true) (O.contents output.old) (O.contents output.new)) }
    ensures failed { IfErr result WorkFails }
{
    let found = notes.find(rt, folder, key)?;
    say(found.is_some(), output)
}

/// Prints whether a key is noted.
fn say<'p, O: Write>(is_noted: bool, output: &mut O) -> Result<(), Failure<'p>>
    ensures printed { OnOk result (Appends (O.contents output.old) (O.contents output.new) (noted_line is_noted)) }
    ensures failed { IfErr result (λ failure. failure ≡ Failure.WriteFailed) }
{
    if is_noted {
        put(output, b"noted\n")
    } else {
        put(output, b"lacking\n")
    }
}
