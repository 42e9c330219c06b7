//! A file of lines on a disk.
ghost use Rattle.std.specs.Prelude.{◌≡◌, false, length};
ghost use Rattle.std.specs.Bool.{IsTrue};
ghost use Rattle.sqlite_disk.specs.Disk.{Only};
ghost use Rattle.desk_record.specs.DiskLines.{EndsWith, standing_of};

use crate::line_file::LineFile;
use sqlite_disk::Disk;
use std::alloc::Global;
use std::io;

/// A file of lines on a disk.
#[derive(Drop)]
pub struct DiskLines<D: Disk> {
    disk: D,
    // Where the last line begins.
    start: usize,
    // The last line, as far as it is to be written.
    line: Vec<u8>,
    is_shut: bool,
    ghost usable: { is_shut ≡ false → IsTrue (D.Disk.is_usable disk) },
    ghost ends: { is_shut ≡ false → IsTrue (D.Disk.is_clean disk) → EndsWith (D.Disk.seen disk) start line.items },
    ghost on_disk: { is_shut ≡ false → IsTrue (D.Disk.is_clean disk) → Only (D.Disk.seen disk) (D.Disk.may_leave disk) },
}

impl<D: Disk> DiskLines<D> {
    /// The file on a disk, of so many bytes, which are on it. No line of it can be taken off.
    pub(crate) fn new(alloc: Global, disk: D, len: usize) -> DiskLines<D>
        requires usable { IsTrue (D.Disk.is_usable disk) }
        requires len { len ≡ length (D.Disk.seen disk) }
        requires on_disk { IsTrue (D.Disk.is_clean disk) → Only (D.Disk.seen disk) (D.Disk.may_leave disk) }
        ensures disk { result.disk ≡ disk }
        ensures opened { result.is_shut ≡ false }
    {
        DiskLines {
            disk,
            start: len,
            line: Vec::new(alloc),
            is_shut: false,
        }
    }

    /// The disk, as it stands.
    pub(crate) fn into_disk(self) -> D
        ensures disk { result ≡ self.disk }
        ensures on_disk { self.is_shut ≡ false → IsTrue (D.Disk.is_clean result) → Only (D.Disk.seen result) (D.Disk.may_leave result) }
    {
        self.disk
    }

    /// Whether the file is shut.
    pub(crate) fn is_shut(&self) -> bool
        ensures { result ≡ self.now.is_shut }
    {
        self.is_shut
    }
}

/// Why a file that is shut does nothing.
fn shut_error() -> io::Error {
    io::Error::other("the record is shut")
}

impl<D: Disk> LineFile for DiskLines<D> {
    ghost standing = { λ f. standing_of (D.Disk.seen f.disk) (D.Disk.may_leave f.disk) (D.Disk.is_clean f.disk)
        f.start f.line.items f.is_shut };

    fn put_last(&mut self, line: Vec<u8>) -> io::Result<()> {
        if self.is_shut {
            return Err(shut_error());
        }
        self.is_shut = true;
        let Some(start) = self.start.checked_add(self.line.len()) else {
            return Err(io::ErrorKind::FileTooLarge.into());
        };
        self.start = start;
        self.line = line;
        self.disk.write_at(self.start, &self.line)?;
        self.disk.sync()?;
        self.is_shut = false;
        Ok(())
    }

    fn take_last(&mut self) -> io::Result<()> {
        if self.is_shut {
            return Err(shut_error());
        }
        self.is_shut = true;
        self.disk.set_len(self.start)?;
        self.disk.sync()?;
        self.line.clear();
        self.is_shut = false;
        Ok(())
    }

    fn shut(&mut self) {
        self.is_shut = true;
    }
}
