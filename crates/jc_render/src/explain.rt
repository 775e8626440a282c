//! Runs of which what is refused or fails is explained.

ghost use Rattle.std.specs.Prelude.{◌≡◌, ◌≢◌, ◌≤◌, ℕ, List, None, OnErr, OnOk, Option as Maybe, Contains, map, string_bytes};
ghost use Rattle.jc_command_shared.specs.Status.{number_of};
ghost use Rattle.jc_command_shared.specs.declared.status.Status.{Status};
ghost use Rattle.jc_command.specs.Failed.{FailsWithin};
ghost use Rattle.jc_command.specs.Run.{EndsWithin, begins_with, devices};
ghost use Rattle.jc_render.specs.Explanations.{AreExplanations, Tells, TellsOn};
ghost use Rattle.jc_render.specs.declared.noting.Trouble.{Trouble as Matter};

use crate::noting::{Noting, Trouble};
use crate::why::{Subject, explanation, subject_of};
use crate::witness::Witness;
use jc_command::{Begun, Sequences, command};
use jc_command_args::CODES;
use jc_command_shared::{Errors, Output, write_front};
use jc_database::OpenFromFiles;
use jc_ledger::Ledger;
use jc_sequences::Folders;
use std::alloc::{AllocError, Global};
use std::io::{Read, Write};

/// Does what the arguments ask for, as `command` does. Then `errors` is told why something was refused or failed.
pub fn explained<'a, F: OpenFromFiles, S: Begun, I: Read, O: Output + Drop, E: Errors + Drop>(
    rt: &HostRuntime,
    folders: Folders<'a>,
    start: F::Start,
    words: Vec<String>,
    input: &mut I,
    output: &mut Noting<O>,
    errors: &mut Noting<E>,
) -> u8
    ensures status { result ≤ 4 }
    // `told` is what `errors` had before the explanations, and what came then goes on from there.
    ensures ended { (status : Status) → status ≢ Status.Failed → result ≡ number_of status → (told : Maybe (List ℕ))
        × EndsWithin (begins_with F.first S.windows S.finished S.aside S.came (λ _. None) (λ _. None) None (O.entry_shape output.old.inner)) (devices F.in_files ⟦<Sequences<'a, S> as Ledger>⟧)
        None (map string_bytes words.items) (I.remaining input.old) (O.contents output.old.inner) (O.contents output.new.inner)
        (E.contents errors.old.inner) told status
        × TellsOn (map string_bytes words.items) CODES.now told (E.contents errors.new.inner) }
    // Whatever the status is, what was asked for is performed, or it fails and leaves that.
    ensures failed { (status : Status) → result ≡ number_of status
        → FailsWithin (begins_with F.first S.windows S.finished S.aside S.came (λ _. None) (λ _. None) None (O.entry_shape output.old.inner)) (devices F.in_files ⟦<Sequences<'a, S> as Ledger>⟧)
        folders.entry None (map string_bytes words.items) (I.remaining input.old) (O.contents output.old.inner) (O.contents output.new.inner) status }
{
    let asked: Result<_, _> = words.clone();
    let mut system = Witness::new(rt);
    let status = command::<_, F, S, _, _, _>(
        &mut system,
        folders,
        start,
        words,
        input,
        output,
        errors,
    );
    let seen = system.into_seen(folders.take_fault());
    // An explanation is beside the run: where it can't be made or written, the run has ended as it has.
    let Ok(asked) = asked else {
        return status;
    };
    let _ = output.troubles.append(&mut errors.troubles);
    let subject = subject_of(rt.alloc(), &asked, seen);
    tell(rt.alloc(), &subject, &output.troubles, &mut errors.inner);
    status
}

/// Writes an explanation of each of these, and none twice, as far as there is memory.
fn tell<W: Write>(alloc: Global, subject: &Subject<'_>, troubles: &[Trouble], to: &mut W)
    ensures { Tells subject.now CODES.now troubles.now (W.contents to.old) (W.contents to.new) }
{
    let lines = lines_of(alloc, subject, troubles);
    write_front(to, lines.as_bytes());
    let _ = to.flush();
}

/// The lines of these explanations.
fn lines_of(alloc: Global, subject: &Subject<'_>, troubles: &[Trouble]) -> String
    ensures { (texts : List (List ℕ)) × AreExplanations subject.now CODES.now troubles.now texts (string_bytes result) }
{
    let mut told = Vec::new(alloc);
    let mut lines = String::new(alloc);
    for trouble in troubles {
        let Ok(()) = add_line(alloc, subject, trouble, &mut told, &mut lines) else {
            return lines;
        };
    }
    lines
}

/// Adds the line that explains this, if the same isn't told yet.
fn add_line(
    alloc: Global,
    subject: &Subject<'_>,
    trouble: &Trouble,
    told: &mut Vec<String>,
    lines: &mut String,
) -> Result<(), AllocError>
    ensures added { OnOk result ((given : List Matter) → Contains given trouble.now
        → AreExplanations subject.now CODES.now given (map string_bytes told.old.items) (string_bytes lines.old)
        → AreExplanations subject.now CODES.now given (map string_bytes told.new.items) (string_bytes lines.new)) }
    ensures kept { OnErr result (string_bytes lines.new ≡ string_bytes lines.old) }
{
    let Some(text) = explanation(alloc, subject, trouble)? else {
        return Ok(());
    };
    if told.contains(&text) {
        return Ok(());
    }
    let line = format!(in alloc; "explain: {text}\n")?;
    told.push(text)?;
    lines.push_str(line.as_str())?;
    Ok(())
}
