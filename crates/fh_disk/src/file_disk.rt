// A file of the host as a disk.
ghost use Rattle.std.specs.Prelude.{◌≡◌, ⊤, None};
ghost use Rattle.std.specs.Io.{ReadsAtMost};
ghost use Rattle.fh_base.specs.FaultPlan.{raised};

use crate::Disk;
use fh_base::Failed;
use std::fs::{File, Files, OpenFile, OpenOptions};
use std::io::{self, ErrorKind};
use std::os::unix::fs::FileExt;

/// How often a read is tried again where a signal came between.
const TRIES: u32 = 1000;

/// A file on which one open at a time may hold a lock.
pub trait Locking {
    /// Takes the lock, or answers an error at once where another open of the file holds it. It lasts until
    /// the file is closed. The lock is advisory, as flock(2): it binds those who ask for it.
    fn lock_now(&self) -> io::Result<()>;
}

impl Locking for File {
    fn lock_now(&self) -> io::Result<()> {
        Ok(self.try_lock()?)
    }
}

/// A file of the host, by its path. It is opened at the first call, made where it is missing, and locked
/// while it is open, so that a second one on the same file fails. It tells nothing, and counts each error
/// of the host.
///
/// A write goes on until all its bytes are taken. A sync brings the bytes and the length onto the disk,
/// and not the folder's entry of a file that was just made.
#[derive(Drop)]
pub struct FileDisk<R: Files> {
    runtime: R,
    path: String,
    file: Option<R::File>,
    faults: u64,
}

impl<R: Files> FileDisk<R> {
    /// The file of this path, which isn't opened before the first call.
    pub fn new(runtime: R, path: String) -> FileDisk<R>
        ensures runtime { result.runtime ≡ runtime }
        ensures path { result.path ≡ path }
        ensures unopened { result.file ≡ None }
        ensures faults { result.faults ≡ 0 }
    {
        FileDisk {
            runtime,
            path,
            file: None,
            faults: 0,
        }
    }

    fn fail(&mut self) -> Failed
        ensures { self.new.faults ≡ raised self.old.faults }
    {
        self.faults = self.faults.saturating_add(1);
        Failed
    }
}

impl<R: Files> Disk for FileDisk<R>
where
    R::File: FileExt + Locking,
{
    ghost told = { λ d. None };

    ghost may_leave = { λ d c. ⊤ };

    ghost moment = { λ d. 0 };

    ghost left_since = { λ d t c. ⊤ };

    ghost disk_faults = { λ d. d.faults };

    ghost reads_as_image = { λ d file told. tt };

    ghost counts_now = { λ d t c earlier left. tt };

    ghost only_now = { λ d c left. tt };

    fn length(&mut self) -> Result<u64, Failed> {
        let length = match opened(&mut self.file, &self.runtime, &self.path) {
            Ok(file) => file.metadata(),
            Err(error) => Err(error),
        };
        match length {
            Ok(metadata) => Ok(metadata.len()),
            Err(_) => Err(self.fail()),
        }
    }

    fn read_at(&mut self, at: u64, buf: &mut [u8]) -> Result<usize, Failed> {
        let read = match opened(&mut self.file, &self.runtime, &self.path) {
            Ok(file) => read_retrying(file, at, buf),
            Err(error) => Err(error),
        };
        match read {
            Ok(size) => Ok(size),
            Err(_) => Err(self.fail()),
        }
    }

    fn write_at(&mut self, at: u64, bytes: &[u8]) -> Result<(), Failed> {
        let written = match opened(&mut self.file, &self.runtime, &self.path) {
            Ok(file) => file.write_all_at(bytes, at),
            Err(error) => Err(error),
        };
        match written {
            Ok(()) => Ok(()),
            Err(_) => Err(self.fail()),
        }
    }

    fn sync(&mut self) -> Result<(), Failed> {
        let synced = match opened(&mut self.file, &self.runtime, &self.path) {
            Ok(file) => file.sync_data(),
            Err(error) => Err(error),
        };
        match synced {
            Ok(()) => Ok(()),
            Err(_) => Err(self.fail()),
        }
    }
}

// The file, opened and locked where it isn't yet, and made where it is missing.
fn opened<'a, R: Files>(
    file: &'a mut Option<R::File>,
    runtime: &R,
    path: &str,
) -> io::Result<&'a R::File>
where
    R::File: Locking,
{
    if file.is_none() {
        let mut options = OpenOptions::new();
        options.read(true).write(true).create(true);
        let made = options.open(runtime, path)?;
        made.lock_now()?;
        *file = Some(made);
    }
    match file {
        Some(file) => Ok(file),
        None => Err(io::Error::from(ErrorKind::NotFound)),
    }
}

fn read_retrying<F: FileExt>(file: &F, at: u64, buf: &mut [u8]) -> io::Result<usize>
    ensures { ReadsAtMost result buf.new }
{
    for _ in 0..TRIES {
        match file.read_at(buf, at) {
            Err(error) if error.kind() == ErrorKind::Interrupted => {}
            result => return result,
        }
    }
    Err(io::Error::from(ErrorKind::Interrupted))
}
