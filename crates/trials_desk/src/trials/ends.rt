//! Inputs and outputs of a connection.
use std::alloc::Global;
use std::io::{self, Read, Write};

/// An input that gives at most `first` bytes in its first read and `size` in each other, and then ends or fails.
#[derive(Drop)]
pub struct Pieces<'a> {
    pub text: &'a [u8],
    pub first: usize,
    pub size: usize,
    pub fails: bool,
}

impl Read for Pieces<'_> {
    fn read(&mut self, buffer: &mut [u8]) -> io::Result<usize> {
        if self.text.is_empty() && self.fails {
            return Err(io::Error::from(io::ErrorKind::ConnectionReset));
        }
        let count = self.text.len().min(self.first);
        self.first = self.size;
        let mut piece = &self.text[..count];
        let taken = piece.read(buffer)?;
        self.text = &self.text[taken..];
        Ok(taken)
    }
}

/// An input that has nothing yet before each piece of a size, and then ends.
#[derive(Drop)]
pub struct Halting<'a> {
    pub text: &'a [u8],
    pub size: usize,
    pub is_there: bool,
}

impl Read for Halting<'_> {
    fn read(&mut self, buffer: &mut [u8]) -> io::Result<usize> {
        self.is_there = !self.is_there;
        if self.is_there {
            return Err(io::Error::from(io::ErrorKind::WouldBlock));
        }
        let count = self.text.len().min(self.size);
        let mut piece = &self.text[..count];
        let taken = piece.read(buffer)?;
        self.text = &self.text[taken..];
        Ok(taken)
    }
}

/// An output with room for so many bytes, which fails when it is full.
#[derive(Drop)]
pub struct Page {
    pub text: Vec<u8>,
    pub room: usize,
}

impl Page {
    pub fn new(alloc: Global, room: usize) -> Page {
        Page {
            text: Vec::new(alloc),
            room,
        }
    }
}

impl Write for Page {
    fn write(&mut self, bytes: &[u8]) -> io::Result<usize> {
        let count = bytes.len().min(self.room);
        if count == 0 || self.text.extend_from_slice(&bytes[..count]).is_err() {
            return Err(io::Error::from(io::ErrorKind::BrokenPipe));
        }
        self.room -= count;
        Ok(count)
    }

    fn flush(&mut self) -> io::Result<()> {
        Ok(())
    }
}
