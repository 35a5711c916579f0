//! Texts that are refused, and given back.
use crate::tests::slots::{EXIT, Fields, text_of};
use sbpf_verify::{VerifyFault, first_refusal, verify};
use sol_base::{Blob, OutOfMemory};
use std::alloc::Global;

/// Texts that are refused, and why: a jump into the second slot of a wide load, one past the end,
/// and no text.
const REFUSED: &[(&[Fields], VerifyFault)] = &[
    (&[], VerifyFault::Length),
    (
        &[(0x05, 0, 1, 0), (0x18, 0, 0, 1), (0, 0, 0, 2), EXIT],
        VerifyFault::Jump { at: 0 },
    ),
    (&[EXIT, (0x05, 0, 0, 0)], VerifyFault::Jump { at: 1 }),
];

/// Whether the text is refused so, and given back.
fn is_refused(text: Blob, again: &[u8], fault: VerifyFault) -> bool {
    let first = first_refusal(text.as_slice());
    match verify(text) {
        Ok(_) => false,
        Err(unfit) => {
            unfit.cause == fault && first == Some(fault) && unfit.text.as_slice() == again
        }
    }
}

/// Whether the text of slots is refused so.
fn are_refused(alloc: Global, slots: &[Fields], fault: VerifyFault) -> Result<bool, OutOfMemory> {
    let text = text_of(alloc, slots)?;
    let copy = text.try_copy()?;
    Ok(is_refused(text, copy.as_slice(), fault))
}

/// Two bytes, which are no text.
const HALF: [u8; 2] = [0x95, 0x00];

/// Whether the two bytes are refused.
fn half_is_refused(alloc: Global) -> Result<bool, OutOfMemory> {
    let half = Blob::from_slice(alloc, &HALF)?;
    Ok(is_refused(half, &HALF, VerifyFault::Length))
}

#[test]
fn each_refusal_comes_at_its_slot(rt: HostRuntime) {
    for (slots, fault) in REFUSED {
        assert!(rt; are_refused(rt.alloc(), slots, *fault) == Ok(true));
    }
    assert!(rt; half_is_refused(rt.alloc()) == Ok(true));
}
