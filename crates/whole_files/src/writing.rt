//! Writing files: all of them or none.
use crate::change::Change;
use crate::place::{Place, is_one_file, place_of};
use std::fs::File;
use std::io;
use std::io::Error;
use std::rt::Files;

/// A file that is to be written.
#[derive(Clone, Copy)]
pub struct NewFile<'a> {
    pub name: &'a str,
    pub bytes: &'a [u8],
}

/// A file that could not be written, and why.
#[derive(Drop)]
pub struct FileFault<'a> {
    pub name: &'a str,
    pub error: Error,
}

/// What came of a call for the file of this name.
fn of<'a, T: Drop>(name: &'a str, done: io::Result<T>) -> Result<T, FileFault<'a>> {
    match done {
        Ok(value) => Ok(value),
        Err(error) => Err(FileFault { name, error }),
    }
}

/// The place that the name stands for, which none of the others is.
fn other_place<R: Files + AllocGlobal>(
    rt: &R,
    name: &str,
    others: &[Change<'_>],
) -> io::Result<Place> {
    let place = place_of(rt, name)?;
    if others.iter().any(|other| is_one_file(&other.place, &place)) {
        return Err(Error::other("it is the same file as the one named before"));
    }
    Ok(place)
}

/// The files with their places. Nothing changes there.
fn changes_of<'a, R: Files + AllocGlobal>(
    rt: &R,
    files: &[NewFile<'a>],
) -> Result<Vec<Change<'a>>, FileFault<'a>> {
    let mut changes = Vec::new(rt.alloc());
    for file in files {
        let place = of(file.name, other_place(rt, file.name, changes.as_slice()))?;
        let change = Change::new(file.name, file.bytes, place);
        if let Err(refused) = changes.push(change) {
            return Err(FileFault {
                name: file.name,
                error: Error::from(refused),
            });
        }
    }
    Ok(changes)
}

/// Writes all that can be taken back.
fn prepare<'a, R: Files<File = File> + AllocGlobal>(
    rt: &R,
    changes: &mut [Change<'a>],
) -> Result<(), FileFault<'a>> {
    for change in changes.iter_mut() {
        of(change.name, change.write_beside(rt))?;
    }
    Ok(())
}

/// Writes into devices. This cannot be taken back.
fn write_through<'a, R: Files>(rt: &R, changes: &[Change<'a>]) -> Result<(), FileFault<'a>> {
    for change in changes {
        of(change.name, change.write_through(rt))?;
    }
    Ok(())
}

/// Moves the files to their places.
fn put<'a, R: Files + AllocGlobal>(
    rt: &R,
    changes: &mut [Change<'a>],
) -> Result<(), FileFault<'a>> {
    let count = changes.len();
    for (at, change) in changes.iter_mut().enumerate() {
        if at + 1 < count {
            change.keep_former(rt);
        }
        of(change.name, change.put(rt))?;
    }
    Ok(())
}

fn carry_out<'a, R: Files<File = File> + AllocGlobal>(
    rt: &R,
    changes: &mut [Change<'a>],
) -> Result<(), FileFault<'a>> {
    prepare(rt, changes)?;
    write_through(rt, changes)?;
    put(rt, changes)
}

/// Writes the files, all or none, and each whole or not at all. A file is written beside its place
/// under a name that nothing has, and moved there once all are written; a link stays and what it
/// points to is replaced, with its mode. Devices, pipes and sockets are written into. Nothing is left
/// behind where it fails.
pub fn write_files<'a, R: Files<File = File> + AllocGlobal>(
    rt: &R,
    files: &[NewFile<'a>],
) -> Result<(), FileFault<'a>> {
    let mut changes = changes_of(rt, files)?;
    let done = carry_out(rt, changes.as_mut_slice());
    for change in changes.as_slice() {
        match &done {
            Ok(()) => change.finish(rt),
            Err(_) => change.undo(rt),
        }
    }
    done
}
