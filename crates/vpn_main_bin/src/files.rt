//! The file system's files.

ghost use Rattle.std.specs.Prelude.{◌≡◌, ◌≤◌, ℕ, List, length, IfOk, IfErr, Err};
ghost use Rattle.vpn_base.specs.Answers.{Rose};
ghost use Rattle.vpn_base.specs.Files.{Holding, Untold, Absent, Copied, IsMissing};

use std::alloc::Global;
use std::io::{ErrorKind, Read, Seek, SeekFrom};
use std::{fs, rt, str};
use vpn_base::{FileFault, Files};

// A file that is open, under its name, and the place to which it was read.
#[derive(Drop)]
struct OpenFile<T: Drop> {
    file: T,
    name: Vec<u8>,
    place: u64,
}

/// The files of a runtime, with a count of the times that one could not be read. What they hold is
/// not told. The latest file stays open, so that a pipe can be read from piece to piece.
#[derive(Drop)]
pub(crate) struct HostFiles<'a, R: rt::Files> {
    alloc: Global,
    runtime: &'a R,
    open: Option<OpenFile<R::File>>,
    faults: u64,
}

impl<'a, R: rt::Files> HostFiles<'a, R> {
    /// No file is open, and none has failed yet.
    pub(crate) fn new(alloc: Global, runtime: &'a R) -> HostFiles<'a, R> {
        HostFiles {
            alloc,
            runtime,
            open: None,
            faults: 0,
        }
    }
}

// Opens a file at a place.
fn open_at<R: rt::Files>(
    alloc: Global,
    runtime: &R,
    name: &[u8],
    place: u64,
) -> Result<OpenFile<R::File>, FileFault> {
    let Ok(path) = str::from_utf8(name) else {
        return Err(FileFault::Failed);
    };
    let mut file = match fs::open(runtime, path) {
        Ok(file) => file,
        Err(e) => {
            return if e.kind() == ErrorKind::NotFound {
                Err(FileFault::Missing)
            } else {
                Err(FileFault::Failed)
            };
        }
    };
    if place > 0 && file.seek(SeekFrom::Start(place)).is_err() {
        return Err(FileFault::Failed);
    }
    let Ok(name) = Vec::from_slice(alloc, name) else {
        return Err(FileFault::Failed);
    };
    Ok(OpenFile { file, name, place })
}

// Whether this file is open at this place.
fn is_at<T: Drop>(open: &Option<OpenFile<T>>, name: &[u8], place: u64) -> bool {
    match open {
        None => false,
        Some(open) => open.place == place && open.name.as_slice() == name,
    }
}

fn read_open<T: Read + Drop>(open: &mut OpenFile<T>, into: &mut [u8]) -> Result<usize, FileFault>
    ensures within { IfOk result (λ n. n ≤ length into.old) }
    ensures failed { IfErr result (λ e. e ≡ FileFault.Failed) }
{
    match open.file.read(into) {
        Ok(n) => {
            open.place = open.place.saturating_add(n as u64);
            Ok(n)
        }
        Err(_) => Err(FileFault::Failed),
    }
}

impl<'a, R: rt::Files> Files for HostFiles<'a, R> {
    ghost holds = { λ f name. Untold };

    ghost faults = { λ f. f.faults };

    fn take(&mut self, name: &[u8], at: u64, into: &mut [u8]) -> Result<usize, FileFault> {
        if !is_at(&self.open, name, at) {
            match open_at(self.alloc, self.runtime, name, at) {
                Ok(open) => self.open = Some(open),
                Err(FileFault::Missing) => return Err(FileFault::Missing),
                Err(FileFault::Failed) => {
                    self.faults = self.faults.saturating_add(1);
                    return Err(FileFault::Failed);
                }
            }
        }
        let taken = match &mut self.open {
            None => Err(FileFault::Failed),
            Some(open) => read_open(open, into),
        };
        match taken {
            Ok(n) => Ok(n),
            Err(_) => {
                self.faults = self.faults.saturating_add(1);
                Err(FileFault::Failed)
            }
        }
    }
}
