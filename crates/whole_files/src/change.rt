//! A file on its way to its place.
use crate::owner::take_over;
use crate::place::{Found, Place, folder_of};
use std::fs::{File, OpenOptions};
use std::io::{Error, ErrorKind, Write};
use std::os::unix::fs::OpenOptionsExt;
use std::rt::Files;
use std::{fs, io};

/// The most names that are tried for a file of its own.
const MAX_NAMES: u32 = 1 << 16;

/// A file that is to be written, and what was done for it.
#[derive(Drop)]
pub(crate) struct Change<'a> {
    pub(crate) name: &'a str,
    pub(crate) bytes: &'a [u8],
    pub(crate) place: Place,
    /// The whole file beside its place.
    pub(crate) part: Option<String>,
    /// A second name of the file that is replaced.
    pub(crate) former: Option<String>,
    /// Whether the file is in its place.
    pub(crate) is_there: bool,
}

/// A name in the folder.
fn name_beside<R: AllocGlobal>(rt: &R, folder: &str, number: u32) -> io::Result<String> {
    Ok(format!(in rt.alloc(); "{folder}/.bank-{number}.part")?)
}

/// A file under a name that nothing had.
#[derive(Drop)]
struct NewPart<F> {
    path: String,
    file: F,
}

/// Makes a file under a name that nothing has in the folder.
fn new_part<R: Files + AllocGlobal>(
    rt: &R,
    folder: &str,
    mode: u32,
) -> io::Result<NewPart<R::File>> {
    let mut how = OpenOptions::new();
    how.write(true).create_new(true).mode(mode);
    for number in 0..MAX_NAMES {
        let path = name_beside(rt, folder, number)?;
        match how.open(rt, path.as_str()) {
            Ok(file) => return Ok(NewPart { path, file }),
            Err(e) if e.kind() == ErrorKind::AlreadyExists => {}
            Err(e) => return Err(e),
        }
    }
    Err(Error::from(ErrorKind::AlreadyExists))
}

/// Gives a file a second name that nothing has in its folder.
fn second_name<R: Files + AllocGlobal>(rt: &R, path: &str) -> io::Result<String> {
    for number in 0..MAX_NAMES {
        let name = name_beside(rt, folder_of(path), number)?;
        match fs::hard_link(rt, path, name.as_str()) {
            Ok(()) => return Ok(name),
            Err(e) if e.kind() == ErrorKind::AlreadyExists => {}
            Err(e) => return Err(e),
        }
    }
    Err(Error::from(ErrorKind::AlreadyExists))
}

fn remove<R: Files>(rt: &R, path: &Option<String>) {
    if let Some(path) = path {
        let _ = fs::remove_file(rt, path.as_str());
    }
}

impl<'a> Change<'a> {
    pub(crate) fn new(name: &'a str, bytes: &'a [u8], place: Place) -> Change<'a> {
        Change {
            name,
            bytes,
            place,
            part: None,
            former: None,
            is_there: false,
        }
    }

    /// Writes the whole file beside its place. A file that replaces another can be read by nobody
    /// else until it has the other one's mode.
    pub(crate) fn write_beside<R: Files<File = File> + AllocGlobal>(
        &mut self,
        rt: &R,
    ) -> io::Result<()> {
        let mode = match &self.place.found {
            Found::Device => return Ok(()),
            Found::Nothing => 0o666,
            Found::File(_) => 0o600,
        };
        let NewPart { path, mut file } = new_part(rt, folder_of(self.place.path.as_str()), mode)?;
        let path = self.part.insert(path);
        file.write_all(self.bytes)?;
        match &self.place.found {
            Found::File(former) => take_over(rt, path.as_str(), &file, former),
            _ => Ok(()),
        }
    }

    /// Writes into a device.
    pub(crate) fn write_through<R: Files>(&self, rt: &R) -> io::Result<()> {
        match &self.place.found {
            Found::Device => {
                let mut how = OpenOptions::new();
                how.write(true).open(rt, self.name)?.write_all(self.bytes)
            }
            _ => Ok(()),
        }
    }

    /// Keeps the file that is replaced under a second name, where the system allows it.
    pub(crate) fn keep_former<R: Files + AllocGlobal>(&mut self, rt: &R) {
        if let Found::File(_) = &self.place.found
            && let Ok(name) = second_name(rt, self.place.path.as_str())
        {
            self.former = Some(name);
        }
    }

    /// Moves the file to its place.
    pub(crate) fn put<R: Files>(&mut self, rt: &R) -> io::Result<()> {
        if let Some(part) = &self.part {
            fs::rename(rt, part.as_str(), self.place.path.as_str())?;
            self.is_there = true;
        }
        Ok(())
    }

    /// Undoes what was done beside the place and in it.
    pub(crate) fn undo<R: Files>(&self, rt: &R) {
        match (&self.former, &self.place.found) {
            (Some(former), _) if self.is_there => {
                let _ = fs::rename(rt, former.as_str(), self.place.path.as_str());
            }
            (None, Found::Nothing) if self.is_there => {
                let _ = fs::remove_file(rt, self.place.path.as_str());
            }
            _ => {
                remove(rt, &self.former);
                remove(rt, &self.part);
            }
        }
    }

    /// Lets the file that was replaced go.
    pub(crate) fn finish<R: Files>(&self, rt: &R) {
        remove(rt, &self.former);
    }
}
