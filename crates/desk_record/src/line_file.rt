//! What is asked of a file of lines.
ghost use Rattle.std.specs.Prelude.{◌<◌, length, is_ok};
ghost use Rattle.desk_record.specs.LineFile.{Closes, Puts, Takes};
ghost use Rattle.desk_record.specs.RecordStanding.{RecordStanding};

use std::io;

/// A file of lines, which is added to at its end. After a failure it is shut, and each further call fails.
pub trait LineFile {
    ghost standing: { Self → RecordStanding };

    /// Puts a line with its end (LF) last; it is on the disk when this returns.
    fn put_last(&mut self, line: Vec<u8>) -> io::Result<()>
        requires { 0 < length line.items }
        ensures { Puts line.items (is_ok result) (standing self.old) (standing self.new) };

    /// Takes off the line that was put last.
    fn take_last(&mut self) -> io::Result<()>
        ensures { Takes (is_ok result) (standing self.old) (standing self.new) };

    /// Writes nothing more.
    fn shut(&mut self)
        ensures { Closes (standing self.old) (standing self.new) };
}
