//! Sources of the entries of an export stream or of a journal file.

ghost use Rattle.std.specs.Prelude.{◌≡◌};
ghost use Rattle.jc_command_args.specs.declared.request.InputKind.{InputKind};
ghost use Rattle.jc_command_args.specs.declared.request.InputKind.TheVariants.{Export, File};
ghost use Rattle.jc_base.specs.Source.{FallsWithEach, Gives, HasCause, Repeats, final_answer};
ghost use Rattle.jc_base.specs.declared.limits.Limits.{Limits};
ghost use Rattle.jc_sender.specs.Reads.{StepsAs};

use jc_base::{ByteStream, EntrySource, Step, Stop};
use jc_file::{ByteSpace, FileEntries};
use jc_stream::Stream;

/// A source of the entries of an input whose kind is known, and with it how they can end.
pub trait InputSource: EntrySource {
    /// What the input is read as.
    ghost kind: { InputKind };

    /// The limits that it is read under.
    ghost limits: { Self → Limits };

    /// What `EntrySource::next` gives. A final answer is one that an input of this kind can have under the limits.
    fn next_step(&mut self) -> Result<Step, Stop>
        ensures gives { Gives (Self.remaining self.old) (Self.remaining self.new) result }
        ensures last { Self.last self.new ≡ final_answer result }
        ensures repeats { Repeats (Self.last self.old) result }
        ensures bound { FallsWithEach (Self.bound self.old) (Self.bound self.new) result }
        ensures cause { HasCause (Self.last self.old) (Self.failures self.old) (Self.failures self.new) result }
        ensures borrowed_device { Self.borrowed_device self.new ≡ Self.borrowed_device self.old }
        ensures ending { StepsAs kind (limits self.old) result }
        ensures limits { limits self.new ≡ limits self.old };
}

impl<R: ByteStream> InputSource for Stream<R> {
    ghost use Rattle.jc_stream.specs.Device.{limits_of};

    ghost kind = { Export };

    ghost limits = { λ stream. limits_of stream };

    fn next_step(&mut self) -> Result<Step, Stop> {
        self.next()
    }
}

impl<B: ByteSpace> InputSource for FileEntries<B> {
    ghost use Rattle.jc_file.specs.Entries.{limits_of};

    ghost kind = { File };

    ghost limits = { λ entries. limits_of entries };

    fn next_step(&mut self) -> Result<Step, Stop> {
        self.next()
    }
}
