//! The current folder of the process.
ghost use Rattle.std.specs.Prelude.{None};

use jam_app::BYTE_LIMIT;
use jam_base::{Failed, Folder, ModulePath, ReadFailed};
use std::alloc::Global;
use std::fs;
use std::io::{self, ErrorKind, Read};
use std::rt::Files;

/// The current folder. It tells no files and counts the faults of the system's calls. Symbolic links are
/// followed. What isn't a regular file (a folder, a device, a pipe), what isn't found, a path through
/// something that is no folder, one with a NUL character and one that is too long are absent files.
/// Every other error of the system is a failure, and so is the reading of a file past `BYTE_LIMIT`. A
/// file that has no bytes by the system's word is read as empty, so a log of the kernel isn't waited for.
#[derive(Drop)]
pub struct DiskFolder<'a, R> {
    files: &'a R,
    faults: u64,
}

impl<'a, R: Files> DiskFolder<'a, R> {
    /// The folder that the process stands in.
    pub fn new(files: &'a R) -> DiskFolder<'a, R> {
        DiskFolder { files, faults: 0 }
    }
}

// Whether the error says that no file stands there.
fn is_absence(error: &io::Error) -> bool {
    matches!(
        error.kind(),
        ErrorKind::NotFound | ErrorKind::NotADirectory | ErrorKind::InvalidFilename
    )
}

// What was found, and nothing where the error says that no file stands there.
fn unless_absent<T: Drop>(found: io::Result<Option<T>>) -> io::Result<Option<T>> {
    match found {
        Err(error) if is_absence(&error) => Ok(None),
        found => found,
    }
}

// How many bytes the regular file at the path has, by the system's word.
fn length_at<R: Files>(files: &R, path: &ModulePath) -> io::Result<Option<u64>> {
    if path.as_str().as_bytes().contains(&0) {
        return Ok(None);
    }
    let found = fs::metadata(files, path.as_str())?;
    Ok(found.is_file().then_some(found.len()))
}

// The bytes of the regular file at the path, no more than one past the limit.
fn bytes_at<R: Files>(alloc: Global, files: &R, path: &ModulePath) -> io::Result<Option<Vec<u8>>> {
    let Some(length) = length_at(files, path)? else {
        return Ok(None);
    };
    let mut bytes = Vec::new(alloc);
    if length > 0 {
        let file = fs::open(files, path.as_str())?;
        let _ = file.take(BYTE_LIMIT + 1).read_to_end(&mut bytes)?;
    }
    Ok(Some(bytes))
}

impl<'a, R: Files> Folder for DiskFolder<'a, R> {
    ghost files = { λ _. None };

    ghost faults = { λ f. f.faults };

    fn is_file(&mut self, path: &ModulePath) -> Result<bool, Failed> {
        match unless_absent(length_at(self.files, path)) {
            Ok(found) => Ok(found.is_some()),
            Err(_) => {
                self.faults = self.faults.saturating_add(1);
                Err(Failed)
            }
        }
    }

    fn read(&mut self, alloc: Global, path: &ModulePath) -> Result<Option<Vec<u8>>, ReadFailed> {
        match unless_absent(bytes_at(alloc, self.files, path)) {
            Ok(None) => Ok(None),
            Ok(Some(bytes)) if bytes.len() as u64 <= BYTE_LIMIT => Ok(Some(bytes)),
            Err(error) if error.kind() == ErrorKind::OutOfMemory => Err(ReadFailed::OutOfMemory),
            _ => {
                self.faults = self.faults.saturating_add(1);
                Err(ReadFailed::Failed)
            }
        }
    }
}
