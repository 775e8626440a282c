//! Uploads whose names are there to be read without waiting are stored together, and then answered.

ghost use Rattle.std.specs.Prelude.{◌≡◌, ◌≤◌, ◌⊎◌, [], IfErr, OnOk, false, length};
ghost use Rattle.std.specs.Io.KnownBytes.{Keeps};
ghost use Rattle.std.specs.List.{list_any};
ghost use Rattle.jc_base.specs.LimitBounds.{AreDefaults};
ghost use Rattle.jc_collect.specs.Gathered.{answers_in};
ghost use Rattle.jc_collector_answers.specs.Answered.{is_refusal};
ghost use Rattle.jc_collector_answers.specs.Collected.{told_within};
ghost use Rattle.jc_collector_answers.specs.Grouped.{GivesAnswers, TakesLines};
ghost use Rattle.jc_collector_answers.specs.Tied.{most_together};

use crate::name_lines::NameLines;
use crate::named::read_name;
use crate::printed::print_answers;
use crate::ready_lines::ReadyLines;
use crate::taking::take_name;
use jc_base::Limits;
use jc_collect::Gathered;
use jc_command_shared::{Errors, Failure, Output, Status, System};
use jc_keeper::Keeper;

/// How many uploads are stored together, at most.
const MOST_TOGETHER: usize = 64;

/// Takes up the upload that the next line names, and those of the lines behind it that are there already, as far as they are
/// small. False if no line is left. The keeper is told which machine brings each of them, where a line names one.
pub(crate) fn gather_lines<'a, R: System, K: Keeper, L: ReadyLines, E: Errors>(
    rt: &R,
    keeper: &mut K,
    names: &mut L,
    lines: NameLines,
    most_windows: Option<u64>,
    limits: &Limits,
    name: &mut Vec<u8>,
    gathered: &mut Gathered,
    errors: &mut E,
) -> Result<bool, Failure<'a>>
    requires none { answers_in gathered.old ≡ [] }
    requires defaults { AreDefaults limits.now.name limits.now.value limits.now.fields limits.now.entry limits.now.file }
    ensures took { TakesLines K.Keeper limits.now (told_within most_windows R.told) lines (L.remaining names.old) (L.remaining names.new)
        keeper.old keeper.new (answers_in gathered.new) result }
    ensures few { length (answers_in gathered.new) ≤ most_together }
    ensures quiet { OnOk result (list_any is_refusal (answers_in gathered.new) ≡ false
        → Keeps (E.contents errors.old) (E.contents errors.new)) }
    ensures failed { IfErr result (λ failure. (failure ≡ Failure.ReadFailed) ⊎ (failure ≡ Failure.OutOfMemory)) }
{
    for taken in 0..MOST_TOGETHER {
        if taken > 0 && (gathered.is_full() || !names.has_line()) {
            return Ok(true);
        }
        if !read_name(names, name)? {
            return Ok(false);
        }
        let (machine, upload) = lines.parts(name.as_slice());
        keeper.brought_by(machine);
        take_name(rt, keeper, upload, most_windows, limits, gathered, errors)?;
    }
    Ok(true)
}

/// Stores what was taken up, and prints the answers.
pub(crate) fn answer_gathered<'a, K: Keeper, O: Output>(
    keeper: &mut K,
    gathered: &mut Gathered,
    output: &mut O,
) -> Result<Status, Failure<'a>>
    requires few { length (answers_in gathered.old) ≤ most_together }
    ensures gives { GivesAnswers K.Keeper keeper.old keeper.new (answers_in gathered.old) result (O.contents output.old) (O.contents output.new) }
    ensures none { answers_in gathered.new ≡ [] }
    ensures failed { IfErr result (λ failure. failure ≡ Failure.WriteFailed) }
{
    gathered.settle(keeper);
    let printed = print_answers(gathered.answers(), output);
    gathered.clear();
    printed
}
