//! Where commands tell what they found, and why they fail.

ghost use Rattle.std.specs.Prelude.{◌≡◌, ◌++◌, ◌∷◌, [], OnOk};
ghost use Rattle.std.specs.Io.KnownBytes.{Appends, Keeps};
ghost use Rattle.jc_keeper.specs.declared.form.Shape.{Shape};
ghost use Rattle.jc_command_shared.specs.Failure.{line_of};
ghost use Rattle.jc_command_shared.specs.Found.{found_text};

use crate::{Failure, Found};
use jc_keeper::Shape;
use jc_upload::Answer;
use std::io;
use std::io::Write;

/// What takes what a command prints. Where it takes text, what was found is a line.
pub trait Output: Write {
    /// The shape in which it takes entries.
    ghost entry_shape: { Self → Shape };

    /// The shape in which entries are to be written to it.
    fn shape(&self) -> Shape
        ensures { result ≡ entry_shape self.now };

    /// Tells what was found.
    fn found(&mut self, found: &Found) -> io::Result<()>
        ensures { OnOk result (Appends (Self.contents self.old) (Self.contents self.new) (found_text found.now ++ 10 ∷ [])) };

    /// Tells what each code means, as this table has it.
    fn codes(&mut self, table: &str) -> io::Result<()>
        ensures { OnOk result (Appends (Self.contents self.old) (Self.contents self.new) table.now) };

    /// Is told of an answer whose line has gone out.
    fn answered(&mut self, answer: &Answer)
        ensures { Keeps (Self.contents self.old) (Self.contents self.new) };
}

/// What takes why a command fails.
pub trait Errors: Write {
    /// Tells why.
    fn failure(&mut self, failure: &Failure<'_>) -> io::Result<()>
        ensures { OnOk result (Appends (Self.contents self.old) (Self.contents self.new) (line_of failure.now ++ 10 ∷ [])) };
}

impl<O: Output> Output for &mut O {
    ghost entry_shape = { λ output. O.entry_shape output.now };

    fn shape(&self) -> Shape {
        (**self).shape()
    }

    fn found(&mut self, found: &Found) -> io::Result<()> {
        (**self).found(found)
    }

    fn codes(&mut self, table: &str) -> io::Result<()> {
        (**self).codes(table)
    }

    fn answered(&mut self, answer: &Answer) {
        (**self).answered(answer);
    }
}

impl<E: Errors> Errors for &mut E {
    fn failure(&mut self, failure: &Failure<'_>) -> io::Result<()> {
        (**self).failure(failure)
    }
}
