//! What differs of an account.

use crate::page::Page;
use sol_base::{Account, Key};
use trace_run::Found;

/// The first byte that differs, and what it was and is.
pub(crate) fn first_difference(was: &[u8], is: &[u8]) -> Option<(usize, u8, u8)> {
    for (at, old) in was.iter().enumerate() {
        match is.get(at) {
            Some(new) if new != old => return Some((at, *old, *new)),
            Some(_) => {}
            None => return None,
        }
    }
    None
}

/// Whether an account is as it was.
pub(crate) fn is_same(was: &Account, is: &Account) -> bool {
    was.lamports == is.lamports
        && was.owner == is.owner
        && was.executable == is.executable
        && was.bytes.as_slice() == is.bytes.as_slice()
}

/// A number, if it is not as it was.
fn tell_number(page: &mut Page, label: &str, was: u64, is: u64) {
    if was != is {
        page.number(label, was);
        page.number(" -> ", is);
    }
}

/// An owner, if it is not as it was.
fn tell_owner(page: &mut Page, was: &Key, is: &Key) {
    if was != is {
        page.key(" owner ", was);
        page.key(" -> ", is);
    }
}

/// The first byte that differs.
fn tell_byte(page: &mut Page, at: usize, was: u8, is: u8) {
    page.number(" byte ", at as u64);
    page.byte(" ", was);
    page.byte(" -> ", is);
}

/// What changed of an account.
pub(crate) fn tell_change(page: &mut Page, was: &Account, is: &Account) {
    tell_number(page, " lamports ", was.lamports, is.lamports);
    tell_owner(page, &was.owner, &is.owner);
    if was.executable != is.executable {
        page.text(" executable");
    }
    let (old, new) = (was.bytes.as_slice(), is.bytes.as_slice());
    tell_number(page, " length ", old.len() as u64, new.len() as u64);
    if let Some((at, old, new)) = first_difference(old, new) {
        tell_byte(page, at, old, new);
    }
}

/// What a frame's region has otherwise than the account was.
pub(crate) fn tell_found(page: &mut Page, was: &Account, found: &Found) {
    tell_number(page, " lamports ", was.lamports, found.lamports);
    tell_owner(page, &was.owner, &found.owner);
    tell_number(page, " length ", was.bytes.len() as u64, found.len);
    if let Some(differs) = found.differs {
        tell_byte(page, differs.at, differs.was, differs.is);
    }
}
