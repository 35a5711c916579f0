//! The values of a JSON text: numbers, flags, digits and members.
ghost use Rattle.std.specs.Prelude.{◌≡◌, ◌≤◌, IfOk, bytes_eq, map};
ghost use Rattle.std.specs.List.{list_all, list_any};
ghost use Rattle.std.specs.Char.{is_ascii_hexdigit};
ghost use Rattle.spec_base.specs.Reading.{Gives};
ghost use Rattle.serde_json.specs.View.{view, members_view};
ghost use Rattle.json_parts.specs.Faults.{is_json_memory};
ghost use Rattle.json_parts.specs.Parts.{number_in, is_digits, digits_wanted, digits_in, flag_in, found_in, member_in, names_in, known_in, one_of};

use crate::fault::{
    JsonFault, Wanted, in_member, refused, refused_instruction, refused_member, refused_name,
};
use hex::FromHex;
use serde_json::{Map, Value};
use std::alloc::Global;

/// A number from the least to the greatest.
#[tactic(auto, unfolding(crate::specs::Parts::number_in))]
pub fn number(alloc: Global, value: &Value, least: u64, most: u64) -> Result<u64, JsonFault>
    ensures gives { Gives is_json_memory (λ n. n) result (number_in least most (view value.now)) }
    ensures fits { IfOk result (λ n. n ≤ most) }
{
    match value.as_u64() {
        Some(n) if least <= n && n <= most => Ok(n),
        _ => Err(refused(alloc, Wanted::Number { least, most })),
    }
}

#[tactic(auto, unfolding(crate::specs::Parts::flag_in))]
fn flag(alloc: Global, value: &Value) -> Result<bool, JsonFault>
    ensures { Gives is_json_memory (λ b. b) result (flag_in (view value.now)) }
{
    match value.as_bool() {
        Some(flag) => Ok(flag),
        None => Err(refused(alloc, Wanted::Flag)),
    }
}

fn are_digits(text: &[u8]) -> bool
    ensures { result ≡ list_all is_ascii_hexdigit text.now }
{
    text.iter().all(|byte| byte.is_ascii_hexdigit())
}

/// Whether the text has hexadecimal digits, in either case, and nothing else.
pub fn is_digits(text: &str) -> bool
    ensures { result ≡ is_digits text.now }
{
    !text.is_empty() && are_digits(text.as_bytes())
}

/// What is wanted in place of a text that stands for no so many bytes.
fn digits_wanted(text: &str, bytes: usize) -> Wanted
    ensures { result ≡ digits_wanted bytes text.now }
{
    if is_digits(text) {
        let found = text.len();
        Wanted::DigitCount { bytes, found }
    } else {
        Wanted::Digits { bytes }
    }
}

/// The bytes that hexadecimal digits stand for. Where the text has digits alone, but another number of
/// them, the refusal has their number.
#[tactic(auto, unfolding(crate::specs::Parts::digits_in))]
pub fn digits<const N: usize>(alloc: Global, value: &Value) -> Result<[u8; N], JsonFault>
    ensures { Gives is_json_memory (λ bytes. bytes) result (digits_in N (view value.now)) }
{
    match value.as_str() {
        Some(text) => match <[u8; N] as FromHex>::from_hex(text) {
            Ok(bytes) => Ok(bytes),
            Err(_) => Err(refused(alloc, digits_wanted(text, N))),
        },
        None => Err(refused(alloc, Wanted::Digits { bytes: N })),
    }
}

/// The member of that name.
#[tactic(auto, unfolding(crate::specs::Parts::found_in))]
pub fn found<'a>(alloc: Global, value: &'a Value, name: &str) -> Result<&'a Value, JsonFault>
    ensures { Gives is_json_memory (λ v. view v.now) result (found_in name.now (view value.now)) }
{
    match value.get(name) {
        Some(found) => Ok(found),
        None => Err(refused_member(alloc, name, Wanted::Presence)),
    }
}

/// What the member of that name stands for: a number between the two.
#[tactic(auto, unfolding(crate::specs::Parts::member_in))]
pub fn number_member(
    alloc: Global,
    value: &Value,
    name: &str,
    least: u64,
    most: u64,
) -> Result<u64, JsonFault>
    ensures gives { Gives is_json_memory (λ n. n) result
        (member_in name.now (number_in least most) (view value.now)) }
    ensures fits { IfOk result (λ n. n ≤ most) }
{
    let found = found(alloc, value, name)?;
    in_member(alloc, name, number(alloc, found, least, most))
}

/// What the member of that name stands for: a byte between the two.
pub fn byte_member(
    alloc: Global,
    value: &Value,
    name: &str,
    least: u8,
    most: u8,
) -> Result<u8, JsonFault>
    ensures { Gives is_json_memory (λ n. n) result
        (member_in name.now (number_in least most) (view value.now)) }
{
    let number = number_member(alloc, value, name, u64::from(least), u64::from(most))?;
    Ok(number as u8)
}

/// What the member of that name stands for: a number of two bytes between the two.
pub fn short_member(
    alloc: Global,
    value: &Value,
    name: &str,
    least: u16,
    most: u16,
) -> Result<u16, JsonFault>
    ensures { Gives is_json_memory (λ n. n) result
        (member_in name.now (number_in least most) (view value.now)) }
{
    let number = number_member(alloc, value, name, u64::from(least), u64::from(most))?;
    Ok(number as u16)
}

/// What the member of that name stands for: true or false.
#[tactic(auto, unfolding(crate::specs::Parts::member_in))]
pub fn flag_member(alloc: Global, value: &Value, name: &str) -> Result<bool, JsonFault>
    ensures { Gives is_json_memory (λ b. b) result (member_in name.now flag_in (view value.now)) }
{
    let found = found(alloc, value, name)?;
    in_member(alloc, name, flag(alloc, found))
}

/// What the member of that name stands for: two hexadecimal digits for each of `N` bytes.
#[tactic(auto, unfolding(crate::specs::Parts::member_in))]
pub fn digits_member<const N: usize>(
    alloc: Global,
    value: &Value,
    name: &str,
) -> Result<[u8; N], JsonFault>
    ensures { Gives is_json_memory (λ bytes. bytes) result
        (member_in name.now (digits_in N) (view value.now)) }
{
    let found = found(alloc, value, name)?;
    in_member(alloc, name, digits::<N>(alloc, found))
}

fn has(names: &[&str], name: &str) -> bool
    ensures { result ≡ list_any (λ one. bytes_eq one.now name.now) names.now }
{
    names.iter().any(|one| *one == name)
}

/// The first member of another name is refused.
fn check_names(alloc: Global, members: &Map<String, Value>, names: &[&str]) -> Result<(), JsonFault>
    ensures { Gives is_json_memory (λ x. x) result
        (names_in (map (λ n. n.now) names.now) (members_view members.now.entries)) }
{
    let mut rest = members.iter();
    while let Some((name, _value)) = rest.next() {
        if !has(names, name.as_str()) {
            return Err(refused_name(alloc, name.as_str(), names));
        }
    }
    Ok(())
}

/// The value is an object whose members have no other names.
#[tactic(auto, unfolding(crate::specs::Parts::known_in))]
pub fn known(alloc: Global, value: &Value, names: &[&str]) -> Result<(), JsonFault>
    ensures { Gives is_json_memory (λ x. x) result
        (known_in (map (λ n. n.now) names.now) (view value.now)) }
{
    match value.as_object() {
        Some(members) => check_names(alloc, members, names),
        None => Err(refused(alloc, Wanted::Object)),
    }
}

/// The text, which the member of that name is, is one of the names of instructions.
#[tactic(auto, unfolding(crate::specs::Parts::one_of))]
pub fn one_of(alloc: Global, member: &str, names: &[&str], text: &str) -> Result<(), JsonFault>
    ensures { Gives is_json_memory (λ x. x) result
        (one_of member.now (map (λ n. n.now) names.now) text.now) }
{
    if has(names, text) {
        Ok(())
    } else {
        Err(refused_instruction(alloc, member, names))
    }
}
