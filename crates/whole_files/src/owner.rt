//! What a new file takes over from the one that it replaces.
use crate::place::folder_of;
use std::fs::{File, Metadata};
use std::io::{Error, ErrorKind};
use std::os::unix::fs::{MetadataExt, fchown};
use std::rt::Files;
use std::{fs, io};

/// The bit of a folder in which only the owner of a file or of the folder can replace the file.
const STICKY: u32 = 0o1000;

/// Whether a user can replace a file in a folder in which the user can make files.
fn may_replace(user: u32, folder: &Metadata, file: &Metadata) -> bool {
    folder.mode() & STICKY == 0 || user == 0 || user == folder.uid() || user == file.uid()
}

/// Gives the new file the owner, the group and the mode of the former one. Owner and group are left
/// as they are where the system does not allow to give the file away. Refused where the former file
/// cannot be replaced.
pub(crate) fn take_over<R: Files>(
    rt: &R,
    path: &str,
    file: &File,
    former: &Metadata,
) -> io::Result<()> {
    let new = file.metadata()?;
    let folder = fs::metadata(rt, folder_of(path))?;
    if !may_replace(new.uid(), &folder, former) {
        return Err(Error::from(ErrorKind::PermissionDenied));
    }
    if new.uid() != former.uid() {
        let _ = fchown(file, Some(former.uid()), None);
    }
    if new.gid() != former.gid() {
        let _ = fchown(file, None, Some(former.gid()));
    }
    file.set_permissions(former.permissions())
}
