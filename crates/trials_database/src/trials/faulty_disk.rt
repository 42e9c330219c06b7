//! A disk that stops at a call, or of which one call fails.
ghost use Rattle.std.specs.Prelude.{◌≡◌, ◌+◌, ◌&&◌, not, false};
ghost use Rattle.sqlite_disk.specs.Disk.{CountsFault};
ghost use Rattle.sqlite_disk.specs.Refusal.{finds_no_room};

use sqlite_disk::{Disk, Tally};
use std::io;

/// What befalls a disk at a call.
#[derive(Clone, Copy, Debug)]
pub(crate) enum Trouble {
    /// The call fails, and each later one.
    Stop,
    /// The call fails, and no other.
    Fault,
}

/// A disk that passes so many calls on before it meets trouble.
#[derive(Drop)]
pub(crate) struct Faulty<D: Disk> {
    inner: D,
    trouble: Trouble,
    calls_before: Option<u64>,
    refused: u64,
    is_sync_refused: bool,
}

impl<D: Disk> Faulty<D> {
    pub(crate) fn new(inner: D, trouble: Trouble, calls: u64) -> Faulty<D> {
        Faulty {
            inner,
            trouble,
            calls_before: Some(calls),
            refused: 0,
            is_sync_refused: false,
        }
    }

    /// Whether a call has failed.
    pub(crate) fn has_failed(&self) -> bool {
        self.refused > 0
    }

    pub(crate) fn into_inner(self) -> D {
        self.inner
    }
}

fn pass(calls_before: &mut Option<u64>, trouble: Trouble, refused: &mut u64) -> io::Result<()>
    ensures faults { CountsFault result refused.old refused.new }
    ensures kind { finds_no_room result ≡ false }
{
    match *calls_before {
        Some(0) => {
            if matches!(trouble, Trouble::Fault) {
                *calls_before = None;
            }
            *refused = refused.saturating_add(1);
            Err(io::Error::other("the call fails"))
        }
        Some(calls) => {
            *calls_before = Some(calls - 1);
            Ok(())
        }
        None => Ok(()),
    }
}

impl<D: Disk> Disk for Faulty<D> {
    ghost seen = { λ f. D.Disk.seen f.inner };

    ghost may_leave = { λ f. D.Disk.may_leave f.inner };

    ghost is_usable = { λ f. D.Disk.is_usable f.inner && not f.is_sync_refused };

    ghost faults = { λ f. D.Disk.faults f.inner + f.refused };

    ghost tally_of = { λ f. D.Disk.tally_of f.inner };

    ghost is_rotten = { λ f. D.Disk.is_rotten f.inner };

    ghost key_of = { λ f. D.Disk.key_of f.inner };

    ghost is_clean = { λ f. D.Disk.is_clean f.inner };

    ghost is_fair = { λ f. D.Disk.is_fair f.inner };

    ghost fair_if_clean = { λ f. D.Disk.fair_if_clean f.inner };

    ghost seen_may_stay = { λ f. D.Disk.seen_may_stay f.inner };

    ghost is_mixing = { λ f. D.Disk.is_mixing f.inner };

    fn mixes(&self) -> bool {
        self.inner.mixes()
    }

    fn key(&self) -> u64 {
        self.inner.key()
    }

    fn tally(&self) -> Tally {
        self.inner.tally()
    }

    fn may_be_used(&self) -> bool {
        self.inner.may_be_used() && !self.is_sync_refused
    }

    fn len(&mut self) -> io::Result<usize> {
        pass(&mut self.calls_before, self.trouble, &mut self.refused)?;
        self.inner.len()
    }

    fn read_at(&mut self, at: usize, buf: &mut [u8]) -> io::Result<()> {
        pass(&mut self.calls_before, self.trouble, &mut self.refused)?;
        self.inner.read_at(at, buf)
    }

    fn read_checked(&mut self, key: u64, want: u64, at: usize, buf: &mut [u8]) -> io::Result<()> {
        pass(&mut self.calls_before, self.trouble, &mut self.refused)?;
        self.inner.read_checked(key, want, at, buf)
    }

    fn write_at(&mut self, at: usize, bytes: &[u8]) -> io::Result<()> {
        pass(&mut self.calls_before, self.trouble, &mut self.refused)?;
        self.inner.write_at(at, bytes)
    }

    fn set_len(&mut self, len: usize) -> io::Result<()> {
        pass(&mut self.calls_before, self.trouble, &mut self.refused)?;
        self.inner.set_len(len)
    }

    fn sync(&mut self) -> io::Result<()> {
        if let Err(error) = pass(&mut self.calls_before, self.trouble, &mut self.refused) {
            self.is_sync_refused = true;
            return Err(error);
        }
        self.inner.sync()
    }
}
