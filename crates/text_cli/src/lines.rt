//! On which line of a JSON text a value is.
use json_parts::Step;
use serde_json::Value;
use sol_base::OutOfMemory;
use std::alloc::Global;
use std::str;

/// The byte at a place, and 0 behind the last.
fn byte_at(text: &[u8], at: usize) -> u8 {
    match text.get(at) {
        Some(byte) => *byte,
        None => 0,
    }
}

/// The first place from this one on where no space is.
fn after_space(text: &[u8], from: usize) -> usize {
    let mut at = from;
    for _ in from..text.len() {
        match byte_at(text, at) {
            b' ' | b'\t' | b'\n' | b'\r' => at = at.saturating_add(1),
            _ => return at,
        }
    }
    at
}

/// The place behind the string that begins here.
fn after_string(text: &[u8], from: usize) -> usize {
    let mut escaped = false;
    for at in from.saturating_add(1)..text.len() {
        let byte = byte_at(text, at);
        if !escaped && byte == b'"' {
            return at.saturating_add(1);
        }
        escaped = !escaped && byte == b'\\';
    }
    text.len()
}

/// The place of the comma or bracket that follows the value that begins here.
fn after_value(text: &[u8], from: usize) -> usize {
    let mut at = from;
    let mut depth = 0usize;
    for _ in from..text.len() {
        match byte_at(text, at) {
            b',' | b'}' | b']' if depth == 0 => return at,
            b'"' => at = after_string(text, at),
            b'{' | b'[' => {
                depth = depth.saturating_add(1);
                at = at.saturating_add(1);
            }
            b'}' | b']' => {
                depth = depth.saturating_sub(1);
                at = at.saturating_add(1);
            }
            _ => at = at.saturating_add(1),
        }
    }
    at
}

/// Whether the string from one place to another, with its quotes, is the name.
fn is_name(
    alloc: Global,
    text: &[u8],
    from: usize,
    end: usize,
    name: &[u8],
) -> Result<bool, OutOfMemory> {
    let string = match text.get(from..end) {
        Some(string) => string,
        None => return Ok(false),
    };
    let string = match str::from_utf8(string) {
        Ok(string) => string,
        Err(_) => return Ok(false),
    };
    match Value::from_str(alloc, string) {
        Ok(value) => match value.as_str() {
            Some(other) => Ok(other.as_bytes() == name),
            None => Ok(false),
        },
        Err(error) if error.is_memory() => Err(OutOfMemory),
        Err(_) => Ok(false),
    }
}

/// The place of the value of the last member of that name, in the object that begins here.
fn member_at(
    alloc: Global,
    text: &[u8],
    from: usize,
    name: &[u8],
) -> Result<Option<usize>, OutOfMemory> {
    let mut found = None;
    let mut at = after_space(text, from.saturating_add(1));
    for _ in from..text.len() {
        if byte_at(text, at) != b'"' {
            break;
        }
        let end = after_string(text, at);
        let colon = after_space(text, end);
        let value = after_space(text, colon.saturating_add(1));
        if is_name(alloc, text, at, end, name)? {
            found = Some(value);
        }
        let comma = after_value(text, value);
        at = after_space(text, comma.saturating_add(1));
    }
    Ok(found)
}

/// The place of the item after so many others, in the array that begins here.
fn item_at(text: &[u8], from: usize, count: usize) -> usize {
    let mut at = after_space(text, from.saturating_add(1));
    for _ in 0..count {
        let comma = after_value(text, at);
        at = after_space(text, comma.saturating_add(1));
    }
    at
}

/// The place of the value that a step leads to, and where it leads to none the place itself.
fn after_step(alloc: Global, text: &[u8], from: usize, step: &Step) -> Result<usize, OutOfMemory> {
    match step {
        Step::Member { name } => match member_at(alloc, text, from, name.as_slice())? {
            Some(at) => Ok(at),
            None => Ok(from),
        },
        Step::Item { at } => Ok(item_at(text, from, *at)),
    }
}

/// The line of a place, from 1.
fn line_at(text: &[u8], place: usize) -> usize {
    let mut line = 1usize;
    for at in 0..place {
        if byte_at(text, at) == b'\n' {
            line = line.saturating_add(1);
        }
    }
    line
}

/// The line of the value at the end of the path, whose last step is first. Where there is none,
/// the line of the object in which it is missing.
pub(crate) fn line_of(alloc: Global, text: &[u8], path: &[Step]) -> Result<usize, OutOfMemory> {
    let mut at = after_space(text, 0);
    for after in 0..path.len() {
        let place = path.len().saturating_sub(after).saturating_sub(1);
        if let Some(step) = path.get(place) {
            at = after_step(alloc, text, at, step)?;
        }
    }
    Ok(line_at(text, at))
}
