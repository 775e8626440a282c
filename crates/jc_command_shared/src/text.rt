//! Output that is text.

ghost use Rattle.jc_keeper.specs.declared.form.Shape.TheVariants.{Line};

use crate::{Errors, Failure, Found, Output};
use jc_keeper::Shape;
use jc_upload::Answer;
use std::io;
use std::io::Write;

/// A writer that gets the lines of what it is told.
#[derive(Drop)]
pub struct Text<W: Write + Drop> {
    pub inner: W,
}

impl<W: Write + Drop> Write for Text<W> {
    ghost contents = { λ text. W.contents text.inner };

    fn write(&mut self, buf: &[u8]) -> io::Result<usize> {
        self.inner.write(buf)
    }

    fn flush(&mut self) -> io::Result<()> {
        self.inner.flush()
    }
}

impl<W: Write + Drop> Output for Text<W> {
    ghost entry_shape = { λ _. Line };

    fn shape(&self) -> Shape {
        Shape::Line
    }

    fn found(&mut self, found: &Found) -> io::Result<()> {
        writeln!(self.inner, "{found}")
    }

    fn codes(&mut self, table: &str) -> io::Result<()> {
        self.inner.write_all(table.as_bytes())
    }

    fn answered(&mut self, _answer: &Answer) {}
}

impl<W: Write + Drop> Errors for Text<W> {
    fn failure(&mut self, failure: &Failure<'_>) -> io::Result<()> {
        writeln!(self.inner, "{failure}")
    }
}
