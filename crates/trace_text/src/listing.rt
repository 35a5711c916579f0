//! The text of a program by its lines.

use sbpf_asm::{ListFault, list};
use sbpf_verify::read_image;
use sol_base::{Account, Blob, Key, OutOfMemory};
use std::alloc::{AllocError, Global};
use std::str;

/// The opcode of the one instruction that has two slots.
const LOAD_WIDE: u8 = 0x18;

/// A line of a listing: its number, from 1, and where it begins.
#[derive(Clone, Copy)]
struct Place {
    number: u32,
    begin: usize,
}

/// A program's listing, with the line of each slot.
#[derive(Drop)]
pub(crate) struct Listing {
    pub(crate) program: Key,
    text: Blob,
    slots: Vec<Place>,
    /// The bytes of its text and its constants in memory.
    pub(crate) len: usize,
}

/// An instruction in its listing.
#[derive(Clone, Copy)]
pub(crate) struct Line<'a> {
    pub(crate) number: u32,
    pub(crate) text: &'a str,
}

/// Where the line ends that begins here.
fn line_end(text: &[u8], begin: usize) -> usize {
    let mut end = begin;
    if let Some(rest) = text.get(begin..) {
        for byte in rest {
            if *byte == b'\n' {
                return end;
            }
            end = end.saturating_add(1);
        }
    }
    end
}

/// The line of each slot. The second slot of an instruction has the line of the first.
fn slots_of(alloc: Global, code: &[u8], text: &[u8]) -> Result<Vec<Place>, AllocError> {
    let mut slots = Vec::with_capacity(alloc, code.len() / 8)?;
    let mut place = Place {
        number: 1,
        begin: 0,
    };
    for slot in code.chunks(8) {
        slots.push(place)?;
        if slot.first() != Some(&LOAD_WIDE) {
            place = Place {
                number: place.number.saturating_add(1),
                begin: line_end(text, place.begin).saturating_add(1),
            };
        }
    }
    Ok(slots)
}

impl Listing {
    /// A program without lines.
    pub(crate) fn none(alloc: Global, program: Key) -> Listing {
        Listing {
            program,
            text: Blob::new(alloc),
            slots: Vec::new(alloc),
            len: 0,
        }
    }

    /// The listing of the program that an account holds. Without lines where it holds none.
    pub(crate) fn of(
        alloc: Global,
        program: Key,
        account: &Account,
    ) -> Result<Listing, OutOfMemory> {
        let image = account.bytes.as_slice();
        let Some(parts) = read_image(image) else {
            return Ok(Listing::none(alloc, program));
        };
        let text = match list(alloc, image) {
            Ok(text) => text,
            Err(ListFault::OutOfMemory) => return Err(OutOfMemory),
            Err(_) => return Ok(Listing::none(alloc, program)),
        };
        Ok(Listing {
            program,
            slots: slots_of(alloc, parts.text, text.as_slice())?,
            text,
            len: parts.text.len().saturating_add(parts.constants.len()),
        })
    }

    /// The line of the instruction in a slot.
    pub(crate) fn line(&self, slot: u32) -> Option<Line<'_>> {
        let place = *self.slots.get(slot as usize)?;
        let text = self.text.as_slice();
        let bytes = text.get(place.begin..line_end(text, place.begin))?;
        match str::from_utf8(bytes) {
            Ok(text) => Some(Line {
                number: place.number,
                text,
            }),
            Err(_) => None,
        }
    }
}
