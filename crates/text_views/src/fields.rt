//! The lines of fields that differ.
ghost use Rattle.std.specs.Prelude.{◌≡◌, ◌++◌, IfOk, OnOk};
ghost use Rattle.std.specs.Fmt.{decimal};
ghost use Rattle.hex.specs.Hex.{encode_lower};
ghost use Rattle.text_views.specs.Fields.{field_line, number_line, bytes_line, text_line, flag_line, status_line, shown_status, only_in_a, only_in_b, numbered, named};

use hex::encode;
use itoa::Buffer;
use sol_base::{Blob, OutOfMemory};
use std::alloc::Global;
use tx_report::{Status, status_bytes, status_text};

/// Adds a number in decimal digits.
pub(crate) fn add_decimal(out: &mut Blob, number: u64) -> Result<(), OutOfMemory>
    ensures { OnOk result (out.new ≡ out.old ++ decimal number) }
{
    out.append(Buffer::new().format(number).as_bytes())
}

/// The hexadecimal digits of the bytes.
pub(crate) fn digits_of(alloc: Global, bytes: &[u8]) -> Result<Blob, OutOfMemory>
    ensures { IfOk result (λ digits. digits ≡ encode_lower bytes.now) }
{
    let digits = encode(alloc, bytes)?;
    Blob::from_slice(alloc, digits.as_bytes())
}

/// A name and a number after it.
pub(crate) fn numbered(alloc: Global, name: &[u8], at: usize) -> Result<Blob, OutOfMemory>
    ensures { IfOk result (λ text. text ≡ numbered name.now at) }
{
    let mut text = Blob::from_slice(alloc, name)?;
    add_decimal(&mut text, at as u64)?;
    Ok(text)
}

/// A name and hexadecimal digits after it.
pub(crate) fn named(alloc: Global, name: &[u8], key: &[u8]) -> Result<Blob, OutOfMemory>
    ensures { IfOk result (λ text. text ≡ named name.now key.now) }
{
    let mut text = Blob::from_slice(alloc, name)?;
    text.append(digits_of(alloc, key)?.as_slice())?;
    Ok(text)
}

#[tactic(auto, unfolding(crate::specs::Fields::field_line))]
fn add_line(
    out: &mut Blob,
    place: &[u8],
    field: &[u8],
    left: &[u8],
    right: &[u8],
) -> Result<(), OutOfMemory>
    ensures { OnOk result
        (out.new ≡ out.old ++ field_line place.now field.now left.now right.now) }
{
    out.append(place)?;
    out.append(b" ")?;
    out.append(field)?;
    out.append(b" ")?;
    out.append(left)?;
    out.append(b" ")?;
    out.append(right)?;
    out.append(b"\n")
}

/// Adds a line where the texts differ.
pub(crate) fn add_texts(
    out: &mut Blob,
    place: &[u8],
    field: &[u8],
    left: &[u8],
    right: &[u8],
) -> Result<(), OutOfMemory>
    ensures { OnOk result
        (out.new ≡ out.old ++ text_line place.now field.now left.now right.now) }
{
    if left == right {
        return Ok(());
    }
    add_line(out, place, field, left, right)
}

/// Adds a line where the numbers differ.
pub(crate) fn add_numbers(
    alloc: Global,
    out: &mut Blob,
    place: &[u8],
    field: &[u8],
    left: u64,
    right: u64,
) -> Result<(), OutOfMemory>
    ensures { OnOk result
        (out.new ≡ out.old ++ number_line place.now field.now left right) }
{
    if left == right {
        return Ok(());
    }
    let mut first = Blob::new(alloc);
    add_decimal(&mut first, left)?;
    let mut second = Blob::new(alloc);
    add_decimal(&mut second, right)?;
    add_line(out, place, field, first.as_slice(), second.as_slice())
}

/// Adds a line where the bytes differ.
pub(crate) fn add_bytes(
    alloc: Global,
    out: &mut Blob,
    place: &[u8],
    field: &[u8],
    left: &[u8],
    right: &[u8],
) -> Result<(), OutOfMemory>
    ensures { OnOk result
        (out.new ≡ out.old ++ bytes_line place.now field.now left.now right.now) }
{
    if left == right {
        return Ok(());
    }
    let left = digits_of(alloc, left)?;
    let right = digits_of(alloc, right)?;
    add_line(out, place, field, left.as_slice(), right.as_slice())
}

/// Adds a line where the flags differ.
pub(crate) fn add_flags(
    out: &mut Blob,
    place: &[u8],
    field: &[u8],
    left: bool,
    right: bool,
) -> Result<(), OutOfMemory>
    ensures { OnOk result
        (out.new ≡ out.old ++ flag_line place.now field.now left right) }
{
    match (left, right) {
        (true, false) => add_line(out, place, field, b"true", b"false"),
        (false, true) => add_line(out, place, field, b"false", b"true"),
        _ => Ok(()),
    }
}

/// A status as its text and its bytes.
fn shown_status(alloc: Global, status: &Status) -> Result<Blob, OutOfMemory>
    ensures { IfOk result (λ text. text ≡ shown_status status.now) }
{
    let mut text = status_text(alloc, status)?;
    text.append(b" ")?;
    text.append(digits_of(alloc, &status_bytes(status))?.as_slice())?;
    Ok(text)
}

/// Adds a line where the statuses differ.
pub(crate) fn add_statuses(
    alloc: Global,
    out: &mut Blob,
    place: &[u8],
    left: &Status,
    right: &Status,
) -> Result<(), OutOfMemory>
    ensures { OnOk result (out.new ≡ out.old ++ status_line place.now left.now right.now) }
{
    if status_bytes(left) == status_bytes(right) {
        return Ok(());
    }
    let left = shown_status(alloc, left)?;
    let right = shown_status(alloc, right)?;
    add_line(out, place, b"status", left.as_slice(), right.as_slice())
}

/// Adds a line for what only the first has.
pub(crate) fn add_only_in_a(out: &mut Blob, place: &[u8]) -> Result<(), OutOfMemory>
    ensures { OnOk result (out.new ≡ out.old ++ only_in_a place.now) }
{
    out.append(place)?;
    out.append(b" only in A\n")
}

/// Adds a line for what only the second has.
pub(crate) fn add_only_in_b(out: &mut Blob, place: &[u8]) -> Result<(), OutOfMemory>
    ensures { OnOk result (out.new ≡ out.old ++ only_in_b place.now) }
{
    out.append(place)?;
    out.append(b" only in B\n")
}
