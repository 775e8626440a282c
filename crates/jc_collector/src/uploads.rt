//! Uploads that are to be answered: deliveries, or those that lines name.

ghost use Rattle.std.specs.Prelude.{◌≡◌, ℕ, List, Option as Maybe, Err, Some, IfOk, IfErr, IfSome, OnOk, length, map, ⊤};
ghost use Rattle.std.specs.Io.KnownBytes.{Keeps};
ghost use Rattle.jc_base.specs.Journal.{Journal};
ghost use Rattle.jc_collect.specs.Delivered.{of_delivery};
ghost use Rattle.jc_collector_answers.specs.Answered.{KeepsFirst, KeepsPrinted};
ghost use Rattle.jc_collector_answers.specs.declared.name_lines.NameLines.TheVariants as name_lines;
ghost use Rattle.jc_collector_answers.specs.Collected.{just, those_named};
ghost use Rattle.jc_command_shared.specs.Lines.{lines_of};
ghost use Rattle.jc_collector.specs.Counted.{PrintsCounted};
ghost use Rattle.jc_collector_answers.specs.Kept.{AnswersHold, HasKept};
ghost use Rattle.jc_collector.specs.Database.{MayStop};
ghost use Rattle.jc_collector.specs.OverFiles.{CollectsAll};

use jc_base::ByteStream;
use jc_collect::Delivery;
use jc_collector_answers::{NameLines, ReadyLines, answer_all, answer_names};
use jc_command_shared::{Errors, Failure, Output, Status, System};
use jc_file::ByteSpace;
use jc_keeper::Keeper;

/// Uploads that are to be answered over any keeper. `E` is what is told beside the answers.
pub(crate) trait Uploads<E> {
    /// How many answers they get.
    ghost counts: { Self → ℕ → Type 0 };

    /// They are these uploads, by what is told of files, of each of which the bytes are known or not.
    ghost are: { (List ℕ → Maybe (List ℕ)) → Self → List (Maybe (List ℕ)) → Type 0 };

    /// They have these bytes. None are said if they aren't known.
    ghost have: { Self → List (List ℕ) → Type 0 };

    /// Reading what they are may fail, too.
    ghost are_read: { Type 0 };

    /// Nothing was told.
    ghost keeps_quiet: { E → E → Type 0 };

    /// Collects them and prints an answer for each.
    fn answer<'a, Y: System, K: Keeper, O: Output>(
        self,
        rt: &Y,
        keeper: &mut K,
        output: &mut O,
        errors: &mut E,
    ) -> Result<Status, Failure<'a>>
        // Nothing that was stored is lost, not even by a crash.
        ensures kept { HasKept K.Keeper keeper.old keeper.new }
        // The answers are those to these uploads. What the printed lines acknowledge is stored, and found after a crash.
        ensures answers { AnswersHold K.Keeper (PrintsCounted (counts self)) (are Y.told self) keeper.old keeper.new result
            (O.contents output.old) (O.contents output.new) }
        // What becomes of known bytes, and what a crash leaves of them.
        ensures collected { (known : List (List ℕ)) → have self known → K.sound keeper.new → K.made keeper.old
            → OnOk result (CollectsAll known (O.contents output.old) (O.contents output.new) (K.journal keeper.old) (K.journal keeper.new)) }
        ensures crash { (known : List (List ℕ)) → have self known → K.clean keeper.new → K.sound keeper.old → K.made keeper.old → K.settled keeper.old
            → (found : Journal) → K.may_leave keeper.new found
            → OnOk result (KeepsPrinted known (K.journal keeper.old) (O.contents output.old) (O.contents output.new) found) }
        ensures crash_unprinted { (known : List (List ℕ)) → have self known → K.clean keeper.new → K.sound keeper.old → K.made keeper.old → K.settled keeper.old
            → (found : Journal) → K.may_leave keeper.new found
            → result ≡ Err Failure.WriteFailed → KeepsFirst known (K.journal keeper.old) (O.contents output.old) (O.contents output.new) found }
        ensures quiet { IfOk result (λ status. status ≡ Status.Success → keeps_quiet errors.old errors.new) }
        ensures stopped { IfErr result (MayStop are_read) };
}

/// Deliveries, of which each gets an answer.
#[derive(Drop)]
pub(crate) struct Deliveries<'d, R, B> {
    pub(crate) deliveries: &'d mut [Delivery<R, B>],
}

impl<R: ByteStream, B: ByteSpace> Uploads<()> for Deliveries<'_, R, B> {
    ghost counts = { λ uploads n. n ≡ length uploads.deliveries.now };

    ghost are = { λ _ uploads. just (map (of_delivery R.remaining B.bytes) uploads.deliveries.now) };

    ghost have = { λ uploads known.
        map (of_delivery R.remaining B.bytes) uploads.deliveries.now ≡ map (λ u. Some u) known };

    ghost are_read = { ⊥ };

    ghost keeps_quiet = { λ _ _. ⊤ };

    fn answer<'a, Y: System, K: Keeper, O: Output>(
        self,
        rt: &Y,
        keeper: &mut K,
        output: &mut O,
        _errors: &mut (),
    ) -> Result<Status, Failure<'a>> {
        let Deliveries { deliveries } = self;
        answer_all(rt.alloc(), keeper, deliveries, output)
    }
}

/// The uploads that lines name. Those whose names wait are stored together, and then answered.
#[derive(Drop)]
pub(crate) struct NamedUploads<L> {
    pub(crate) names: L,
}

impl<L: ReadyLines + Drop, E: Errors> Uploads<E> for NamedUploads<L> {
    ghost counts = { λ uploads n. IfSome (L.remaining uploads.names) (λ text. n ≡ length (lines_of text)) };

    ghost are = { λ told uploads. those_named told name_lines.Uploads (L.remaining uploads.names) };

    ghost have = { λ _ _. ⊥ };

    ghost are_read = { ⊤ };

    ghost keeps_quiet = { λ old new. Keeps (E.contents old) (E.contents new) };

    fn answer<'a, Y: System, K: Keeper, O: Output>(
        self,
        rt: &Y,
        keeper: &mut K,
        output: &mut O,
        errors: &mut E,
    ) -> Result<Status, Failure<'a>> {
        let NamedUploads { mut names } = self;
        answer_names(rt, keeper, &mut names, NameLines::Uploads, output, errors)
    }
}
