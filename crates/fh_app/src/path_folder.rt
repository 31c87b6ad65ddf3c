// A folder of the host.
ghost use Rattle.std.specs.Prelude.{◌≡◌, None};

use crate::folder::{Folder, FolderFault, insert};
use fh_base::{Bytes, Text};
use std::alloc::Global;
use std::fs::{self, Files};
use std::io::{self, ErrorKind, Read};

/// A folder of the host, by its path. It tells nothing, and counts each error of the host, but for a
/// path that isn't there.
#[derive(Drop)]
pub struct PathFolder<R: Files> {
    runtime: R,
    path: String,
    faults: u64,
}

impl<R: Files> PathFolder<R> {
    /// The folder at this path, which isn't read yet.
    pub fn new(runtime: R, path: String) -> PathFolder<R>
        ensures runtime { result.runtime ≡ runtime }
        ensures path { result.path ≡ path }
        ensures faults { result.faults ≡ 0 }
    {
        PathFolder {
            runtime,
            path,
            faults: 0,
        }
    }
}

impl<R: Files + Alloc + Clone + Drop> Folder for PathFolder<R> {
    ghost files = { λ f. None };

    ghost folder_faults = { λ f. f.faults };

    fn names(&mut self, alloc: Global) -> Result<Vec<Text>, FolderFault> {
        match names_in(&self.runtime, alloc, self.path.as_str()) {
            Ok(names) => Ok(names),
            Err(error) if error.kind() == ErrorKind::OutOfMemory => Err(FolderFault::NoMemory),
            Err(_) => {
                self.faults = self.faults.saturating_add(1);
                Err(FolderFault::Failed)
            }
        }
    }

    fn read(&mut self, alloc: Global, path: &str) -> Result<Option<Bytes>, FolderFault> {
        match bytes_at(&self.runtime, alloc, self.path.as_str(), path) {
            Ok(bytes) => Ok(Some(Bytes::new(bytes))),
            Err(error) if error.kind() == ErrorKind::OutOfMemory => Err(FolderFault::NoMemory),
            Err(error) if is_missing(error.kind()) => Ok(None),
            Err(_) => {
                self.faults = self.faults.saturating_add(1);
                Err(FolderFault::Failed)
            }
        }
    }
}

// A file where a folder should be has no files in it.
fn is_missing(kind: ErrorKind) -> bool {
    kind == ErrorKind::NotFound || kind == ErrorKind::NotADirectory
}

// What lies in the folder, but for its files.
fn names_in<R: Files + Alloc + Clone + Drop>(
    rt: &R,
    alloc: Global,
    folder: &str,
) -> io::Result<Vec<Text>> {
    let mut names = Vec::new(alloc);
    for entry in fs::read_dir(rt, folder)? {
        let entry = entry?;
        if entry.file_type()?.is_file() {
            continue;
        }
        if insert(alloc, &mut names, entry.file_name()).is_err() {
            return Err(io::Error::from(ErrorKind::OutOfMemory));
        }
    }
    Ok(names)
}

fn bytes_at<R: Files>(rt: &R, alloc: Global, folder: &str, path: &str) -> io::Result<Vec<u8>> {
    let path = format!(in alloc; "{folder}/{path}")?;
    let mut file = fs::open(rt, path.as_str())?;
    let mut bytes = Vec::new(alloc);
    file.read_to_end(&mut bytes)?;
    Ok(bytes)
}
