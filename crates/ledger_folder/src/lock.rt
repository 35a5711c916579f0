//! The lock of the one who writes.
use std::fs::{File, OpenOptions, TryLockError};
use std::io::{ErrorKind, Read, Write};
use std::os::unix::fs::MetadataExt;
use std::rt::Files;
use std::{fs, io, str};

/// Why a folder was not locked.
#[derive(Clone, Copy)]
pub enum LockFault {
    /// Another process holds the lock: that of this number, if the file says so.
    Held { process: Option<u32> },
    /// The file `lock` could not be opened or locked.
    Failed { error: io::Error },
    OutOfMemory,
}

/// The lock of the one who writes to a folder: the system's lock on its file `lock`, which has the
/// number of the process. Both are gone where this is dropped. The system takes the lock away where
/// the process ends, however it ends: a file that is left then locks nothing.
#[derive(Drop)]
pub struct FolderLock<R: Files + Drop> {
    name: LockName<R>,
    /// Closed after the name is removed.
    _file: File,
}

/// The name of the file, which is removed where this is dropped.
struct LockName<R: Files + Drop> {
    rt: R,
    path: String,
}

impl<R: Files + Drop> Drop for LockName<R> {
    fn drop(self) {
        let LockName { rt, path } = self;
        let _ = fs::remove_file(&rt, path.as_str());
    }
}

impl From<io::Error> for LockFault {
    fn from(error: io::Error) -> LockFault {
        match error.kind() {
            ErrorKind::OutOfMemory => LockFault::OutOfMemory,
            _ => LockFault::Failed { error },
        }
    }
}

/// Opens the file, which is made where there is none. A link is not followed.
fn opened<R: Files<File = File>>(rt: &R, path: &str) -> io::Result<File> {
    match fs::symlink_metadata(rt, path) {
        Ok(found) if found.is_symlink() => Err(io::Error::from(ErrorKind::FilesystemLoop)),
        _ => OpenOptions::new()
            .read(true)
            .write(true)
            .create(true)
            .open(rt, path),
    }
}

/// Whether the open file still has its name: whoever held the lock before has removed it.
fn has_name<R: Files>(rt: &R, file: &File, path: &str) -> io::Result<bool> {
    let own = file.metadata()?;
    match fs::symlink_metadata(rt, path) {
        Ok(found) => Ok(found.dev() == own.dev() && found.ino() == own.ino()),
        Err(e) if e.kind() == ErrorKind::NotFound => Ok(false),
        Err(e) => Err(e),
    }
}

/// Writes the number of this process into the file, and the end of its line.
fn sign<R: Files + AllocGlobal>(rt: &R, file: &mut File) -> io::Result<()> {
    let number = fs::read_link(rt, "/proc/self")?;
    file.set_len(0)?;
    file.write_all(number.as_str().as_bytes())?;
    file.write_all(b"\n")
}

/// The number of the process that has signed the file. A line without its end is not read: the process
/// may be writing it.
fn signed(file: &mut File) -> Option<u32> {
    let mut bytes = [0u8; 11];
    let length = file.read(&mut bytes).ok()?;
    let line = bytes.get(..length)?.strip_suffix(b"\n")?;
    str::from_utf8(line).ok()?.parse::<u32>().ok()
}

/// Locks the file, unless another process has done so. None: it has lost its name meanwhile.
fn try_once<R: Files<File = File>>(rt: &R, path: &str) -> Result<Option<File>, LockFault> {
    let mut file = opened(rt, path)?;
    match file.try_lock() {
        Ok(()) if has_name(rt, &file, path)? => Ok(Some(file)),
        Ok(()) => Ok(None),
        Err(TryLockError::WouldBlock) => Err(LockFault::Held {
            process: signed(&mut file),
        }),
        Err(TryLockError::Error(error)) => Err(LockFault::from(error)),
    }
}

/// How often it is tried again where the file loses its name: each time another process has ended.
const TRIES: u32 = 1_000;

/// The file, locked.
fn locked<R: Files<File = File>>(rt: &R, path: &str) -> Result<File, LockFault> {
    for _ in 0..TRIES {
        if let Some(file) = try_once(rt, path)? {
            return Ok(file);
        }
    }
    Err(LockFault::Held { process: None })
}

/// What the file is removed with, and its path.
fn name_of<R: Files + AllocGlobal + Clone>(rt: &R, path: &str) -> io::Result<(R, String)> {
    let path = format!(in rt.alloc(); "{path}/lock")?;
    Ok((rt.clone()?, path))
}

/// Locks the folder at the path.
pub fn lock_folder<R: Files<File = File> + AllocGlobal + Clone + Drop>(
    rt: &R,
    path: &str,
) -> Result<FolderLock<R>, LockFault> {
    let (kept, path) = name_of(rt, path)?;
    let mut file = locked(rt, path.as_str())?;
    // Who holds the lock is a help alone: without it the lock holds as well.
    let _ = sign(rt, &mut file);
    Ok(FolderLock {
        name: LockName { rt: kept, path },
        _file: file,
    })
}
