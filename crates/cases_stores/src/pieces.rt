//! A file in memory that moves a few bytes a call, as one of a system may.

use std::alloc::Allocator;
use std::fs::{Metadata, OpenFile, OpenOptions};
use std::io;
use std::io::{ErrorKind, Read, Seek, SeekFrom, Write};
use std::rt::Files;

/// The most bytes of a file that moves a few bytes a call.
const FILE_LENGTH: usize = 64;

/// A file in memory that moves at most so many bytes a call, and whose every second call is
/// interrupted.
#[derive(Drop)]
pub struct PieceFile {
    bytes: [u8; FILE_LENGTH],
    place: usize,
    length: usize,
    most: usize,
    interrupted: bool,
}

impl PieceFile {
    /// An empty file that moves at most so many bytes a call.
    pub fn make(most: usize) -> PieceFile {
        PieceFile {
            bytes: [0; FILE_LENGTH],
            place: 0,
            length: 0,
            most,
            interrupted: false,
        }
    }

    fn interrupt(&mut self) -> io::Result<()> {
        self.interrupted = !self.interrupted;
        if self.interrupted {
            return Err(io::Error::from(ErrorKind::Interrupted));
        }
        Ok(())
    }
}

impl Read for PieceFile {
    fn read(&mut self, buf: &mut [u8]) -> io::Result<usize> {
        self.interrupt()?;
        let place = self.place.min(FILE_LENGTH);
        let end = self.length.min(FILE_LENGTH).max(place);
        let count = self.most.min(buf.len()).min(end - place);
        buf[..count].copy_from_slice(&self.bytes[place..place + count]);
        self.place = place + count;
        Ok(count)
    }
}

impl Write for PieceFile {
    fn write(&mut self, buf: &[u8]) -> io::Result<usize> {
        self.interrupt()?;
        let place = self.place.min(FILE_LENGTH);
        let count = self.most.min(buf.len()).min(FILE_LENGTH - place);
        self.bytes[place..place + count].copy_from_slice(&buf[..count]);
        self.place = place + count;
        self.length = self.length.max(self.place);
        Ok(count)
    }

    fn flush(&mut self) -> io::Result<()> {
        Ok(())
    }
}

impl Seek for PieceFile {
    fn seek(&mut self, to: SeekFrom) -> io::Result<u64> {
        match to {
            SeekFrom::Start(at) => {
                self.place = at.min(FILE_LENGTH as u64) as usize;
                Ok(at)
            }
            _ => Err(io::Error::from(ErrorKind::Unsupported)),
        }
    }
}

impl OpenFile for PieceFile {
    fn metadata(&self) -> io::Result<Metadata> {
        Err(io::Error::from(ErrorKind::Unsupported))
    }

    fn set_len(&self, _size: u64) -> io::Result<()> {
        Err(io::Error::from(ErrorKind::Unsupported))
    }

    fn sync_all(&self) -> io::Result<()> {
        Ok(())
    }

    fn sync_data(&self) -> io::Result<()> {
        Ok(())
    }
}

/// A file system that opens empty files which move at most so many bytes a call, and does nothing
/// else.
#[derive(Drop)]
pub struct PieceFiles {
    most: usize,
}

impl PieceFiles {
    pub fn make(most: usize) -> PieceFiles {
        PieceFiles { most }
    }
}

// Nothing else is done.
fn unsupported_error<T>() -> io::Result<T> {
    Err(io::Error::from(ErrorKind::Unsupported))
}

impl Files for PieceFiles {
    type File = PieceFile;

    type Dir = PieceFile;

    fn open_file(&self, how: &OpenOptions, _path: &str) -> io::Result<PieceFile> {
        how.check()?;
        Ok(PieceFile::make(self.most))
    }

    fn open_dir(&self, _path: &str) -> io::Result<PieceFile> {
        unsupported_error()
    }

    fn metadata(&self, _path: &str) -> io::Result<Metadata> {
        unsupported_error()
    }

    fn symlink_metadata(&self, _path: &str) -> io::Result<Metadata> {
        unsupported_error()
    }

    fn copy(&self, _from: &str, _to: &str) -> io::Result<u64> {
        unsupported_error()
    }

    fn rename(&self, _from: &str, _to: &str) -> io::Result<()> {
        unsupported_error()
    }

    fn remove_file(&self, _path: &str) -> io::Result<()> {
        unsupported_error()
    }

    fn create_dir(&self, _path: &str) -> io::Result<()> {
        unsupported_error()
    }

    fn remove_dir(&self, _path: &str) -> io::Result<()> {
        unsupported_error()
    }

    fn remove_dir_all<B: Allocator>(&self, _alloc: B, _path: &str) -> io::Result<()> {
        unsupported_error()
    }
}
