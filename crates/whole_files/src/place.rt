//! Where a file is to be written, and what is there.
use std::fs::{Metadata, OpenOptions};
use std::io::{Error, ErrorKind};
use std::os::unix::fs::MetadataExt;
use std::rt::Files;
use std::{fs, io};

/// The most links from one to the next, as Linux has it.
const MAX_LINKS: usize = 40;

/// What is found where a file is to be written.
#[derive(Drop)]
pub(crate) enum Found {
    Nothing,
    /// A regular file, which is replaced.
    File(Metadata),
    /// A device, a pipe or a socket, which is written into.
    Device,
}

/// What tells a file from all others.
#[derive(Clone, Copy, PartialEq, Eq)]
struct Identity {
    device: u64,
    number: u64,
}

fn identity_of(found: &Metadata) -> Identity {
    Identity {
        device: found.dev(),
        number: found.ino(),
    }
}

/// Where a file is to be written.
#[derive(Drop)]
pub(crate) struct Place {
    /// The path behind all links.
    pub(crate) path: String,
    pub(crate) found: Found,
    /// Of the file, or of the folder where there is no file.
    identity: Identity,
}

/// The folder in which the path's last name is.
pub(crate) fn folder_of(path: &str) -> &str {
    match path.rsplit_once('/') {
        Some(("", _)) => "/",
        Some((folder, _)) => folder,
        None => ".",
    }
}

fn last_name(path: &str) -> &str {
    match path.rsplit_once('/') {
        Some((_, name)) => name,
        None => path,
    }
}

/// The path that a link points to.
fn behind<R: Files + AllocGlobal>(rt: &R, link: &str) -> io::Result<String> {
    let text = fs::read_link(rt, link)?;
    let text = text.as_str();
    if text.starts_with('/') {
        return Ok(String::from_str(rt.alloc(), text)?);
    }
    let folder = folder_of(link);
    Ok(format!(in rt.alloc(); "{folder}/{text}")?)
}

/// The path behind all links. Nothing needs to be there.
fn behind_all<R: Files + AllocGlobal>(rt: &R, name: &str) -> io::Result<String> {
    let mut path = String::from_str(rt.alloc(), name)?;
    for _ in 0..MAX_LINKS {
        match fs::symlink_metadata(rt, path.as_str()) {
            Ok(found) if found.is_symlink() => path = behind(rt, path.as_str())?,
            Ok(_) => return Ok(path),
            Err(e) if e.kind() == ErrorKind::NotFound => return Ok(path),
            Err(e) => return Err(e),
        }
    }
    Err(Error::from(ErrorKind::FilesystemLoop))
}

/// What is found under a name. A folder is refused.
fn found_under<R: Files>(rt: &R, name: &str) -> io::Result<Found> {
    match fs::metadata(rt, name) {
        Ok(found) if found.is_dir() => Err(Error::from(ErrorKind::IsADirectory)),
        Ok(found) if found.is_file() => Ok(Found::File(found)),
        Ok(_) => Ok(Found::Device),
        Err(e) if e.kind() == ErrorKind::NotFound => Ok(Found::Nothing),
        Err(e) => Err(e),
    }
}

/// Whether the file may be written. It stays as it is.
fn try_to_open<R: Files>(rt: &R, path: &str) -> io::Result<()> {
    let _file = OpenOptions::new().write(true).open(rt, path)?;
    Ok(())
}

/// The identity of the file at the end of the links, which may be written.
fn identity_of_file<R: Files>(rt: &R, path: &str, file: &Metadata) -> io::Result<Identity> {
    let identity = identity_of(file);
    if identity_of(&fs::symlink_metadata(rt, path)?) != identity {
        return Err(Error::other("its link cannot be followed"));
    }
    try_to_open(rt, path)?;
    Ok(identity)
}

/// The place that a name stands for. Nothing changes there.
pub(crate) fn place_of<R: Files + AllocGlobal>(rt: &R, name: &str) -> io::Result<Place> {
    let found = found_under(rt, name)?;
    let path = match &found {
        Found::Device => String::from_str(rt.alloc(), name)?,
        _ => behind_all(rt, name)?,
    };
    let identity = match &found {
        Found::File(file) => identity_of_file(rt, path.as_str(), file)?,
        Found::Device => identity_of(&fs::metadata(rt, name)?),
        Found::Nothing => identity_of(&fs::metadata(rt, folder_of(path.as_str()))?),
    };
    Ok(Place {
        path,
        found,
        identity,
    })
}

/// Whether one of the two would replace the other. Devices may be one.
pub(crate) fn is_one_file(one: &Place, two: &Place) -> bool {
    match (&one.found, &two.found) {
        (Found::File(_), Found::File(_)) => one.identity == two.identity,
        (Found::Nothing, Found::Nothing) => {
            one.identity == two.identity
                && last_name(one.path.as_str()) == last_name(two.path.as_str())
        }
        _ => false,
    }
}
