//! A core under a desk of two lanes: worked examples, and every order beside the serial run.
use crate::tests::desk::Answer;
use crate::tests::drives::{BACK, ON, Row, end_of_rows, follows, have_units};
use crate::tests::trial::{READ, Trial, WRITE, key_of, trial_of};
use account_store::Accounts;
use bank_core::Sealed;
use std::test::Fail;

/// A reader behind a writer behind a reader.
const THREE: [&[(u8, bool)]; 3] = [&[(1, READ)], &[(1, WRITE)], &[(1, READ)]];

/// The units of its outcomes.
const UNITS: [u64; 3] = [10, 10, 9];

/// Both lanes go on in turn.
const WAITING_WRITER: [Row; 9] = [
    (0, ON, Some((Answer::Lent(0), 0, 3, &[]))),
    (1, ON, Some((Answer::NotNow(1), 0, 3, &[]))),
    (0, ON, Some((Answer::Committed(0), 0, 3, &[10]))),
    (1, ON, Some((Answer::Lent(1), 0, 3, &[10]))),
    (0, ON, Some((Answer::NotNow(1), 0, 3, &[10]))),
    (1, ON, Some((Answer::Committed(1), 0, 3, &[10, 10]))),
    (0, ON, Some((Answer::Lent(2), 0, 3, &[10, 10]))),
    (0, ON, Some((Answer::Committed(2), 0, 3, &[10, 10, 9]))),
    (0, ON, Some((Answer::Finished, 0, 3, &[10, 10, 9]))),
];

#[test]
fn a_reader_does_not_overtake_a_waiting_writer(rt: HostRuntime) -> Result<(), Fail> {
    assert!(rt; follows(&rt, rt.alloc(), &THREE, &[1], &WAITING_WRITER, &UNITS)?);
    Ok(())
}

/// The second lane ends what the first began.
const TWO_LANES: [Row; 8] = [
    (0, ON, Some((Answer::Lent(0), 0, 3, &[]))),
    (1, ON, Some((Answer::NotNow(1), 0, 3, &[]))),
    (0, ON, Some((Answer::Committed(0), 0, 3, &[10]))),
    (1, ON, Some((Answer::Lent(1), 0, 3, &[10]))),
    (1, ON, Some((Answer::Committed(1), 0, 3, &[10, 10]))),
    (1, ON, Some((Answer::Lent(2), 0, 3, &[10, 10]))),
    (1, ON, Some((Answer::Committed(2), 0, 3, &[10, 10, 9]))),
    (1, ON, Some((Answer::Finished, 0, 3, &[10, 10, 9]))),
];

#[test]
fn a_desk_of_two_lanes(rt: HostRuntime) -> Result<(), Fail> {
    assert!(rt; follows(&rt, rt.alloc(), &THREE, &[1], &TWO_LANES, &UNITS)?);
    Ok(())
}

/// The first lane goes on alone, and a step back is none where nothing is held.
const READ_BETWEEN: [Row; 11] = [
    (0, BACK, Some((Answer::Nothing, 0, 3, &[]))),
    (0, ON, Some((Answer::Lent(0), 0, 3, &[]))),
    (0, ON, Some((Answer::Committed(0), 0, 3, &[10]))),
    (0, BACK, Some((Answer::Nothing, 1, 2, &[]))),
    (0, ON, Some((Answer::Lent(1), 0, 3, &[10]))),
    (0, ON, Some((Answer::Committed(1), 0, 3, &[10, 10]))),
    (0, ON, Some((Answer::Lent(2), 0, 3, &[10, 10]))),
    (0, ON, Some((Answer::Committed(2), 0, 3, &[10, 10, 9]))),
    (0, ON, Some((Answer::Finished, 0, 3, &[10, 10, 9]))),
    (0, BACK, Some((Answer::Nothing, 1, 2, &[10, 9]))),
    (0, BACK, Some((Answer::Nothing, 1, 1, &[10]))),
];

#[test]
fn a_reader_is_told_what_is_done(rt: HostRuntime) -> Result<(), Fail> {
    assert!(rt; follows(&rt, rt.alloc(), &THREE, &[1], &READ_BETWEEN, &UNITS)?);
    Ok(())
}

/// Two readers of one account, which write others.
const TWO: [&[(u8, bool)]; 2] = [&[(1, READ), (2, WRITE)], &[(1, READ), (3, WRITE)]];

/// Both lanes hold a position, of which the second gives its own back once.
const SHARED_READERS: [Row; 9] = [
    (0, ON, Some((Answer::Lent(0), 0, 2, &[]))),
    (1, ON, Some((Answer::Lent(1), 0, 2, &[]))),
    (1, BACK, Some((Answer::GaveBack(1), 0, 2, &[]))),
    (1, ON, Some((Answer::Lent(1), 0, 2, &[]))),
    (1, BACK, Some((Answer::Nothing, 0, 2, &[]))),
    (1, ON, Some((Answer::Committed(1), 0, 2, &[]))),
    (1, ON, Some((Answer::NotNow(1), 0, 2, &[]))),
    (0, ON, Some((Answer::Committed(0), 0, 2, &[10, 10]))),
    (1, ON, Some((Answer::Finished, 0, 2, &[10, 10]))),
];

#[test]
fn readers_share_an_account(rt: HostRuntime) -> Result<(), Fail> {
    assert!(rt;
        follows(
            &rt,
            rt.alloc(),
            &TWO,
            &[1, 2, 3],
            &SHARED_READERS,
            &[10, 10]
        )?
    );
    Ok(())
}

/// Four positions that read and write three accounts.
const FOUR: [&[(u8, bool)]; 4] = [
    &[(1, READ), (2, WRITE)],
    &[(1, WRITE)],
    &[(2, READ), (1, READ)],
    &[(2, WRITE), (3, WRITE)],
];

/// One lamport less of each account that the locks write.
fn spend_written(lamports: &mut [u64; 4], entries: &[(u8, bool)]) {
    for (byte, write) in entries {
        if *write {
            let at = (*byte % 4) as usize;
            lamports[at] = u64::saturating_sub(lamports[at], 1);
        }
    }
}

/// The lamports of keys 1 to 3 and the units of each position, one position after the other.
fn serial_run(lists: &[&[(u8, bool)]; 4]) -> ([u64; 4], [u64; 4]) {
    let mut lamports = [0, 10, 10, 10];
    let mut units = [0; 4];
    for (i, entries) in lists.iter().enumerate() {
        if let Some((byte, _)) = entries.first() {
            units[i] = lamports[(*byte % 4) as usize];
        }
        spend_written(&mut lamports, entries);
    }
    (lamports, units)
}

/// The step of a digit to base 4.
fn step_of(digit: u32) -> (u32, bool) {
    match digit {
        0 => (0, ON),
        1 => (1, ON),
        2 => (0, BACK),
        _ => (1, BACK),
    }
}

/// The steps of a number behind one that is none: six of its digits to base 4, and then each lane
/// in turn until the end.
fn rows_of(number: u32) -> [Row; 27] {
    let mut rows = [(0, BACK, None); 27];
    let mut left = number;
    for i in 1..27 {
        let digit = if i < 7 { left % 4 } else { (i as u32 + 1) % 2 };
        let (lane, back) = step_of(digit);
        rows[i] = (lane, back, None);
        left /= 4;
    }
    rows
}

/// Whether the account of a byte has these lamports.
fn has_lamports(accounts: &Accounts, byte: u8, lamports: u64) -> bool {
    match accounts.get(&key_of(byte)) {
        Some(account) => account.lamports == lamports,
        None => false,
    }
}

/// Whether a run ended as the serial run does.
fn is_serial(end: &Sealed, lamports: &[u64; 4], units: &[u64; 4]) -> bool {
    have_units(&end.outcomes, units)
        && has_lamports(&end.accounts, 1, lamports[1])
        && has_lamports(&end.accounts, 2, lamports[2])
        && has_lamports(&end.accounts, 3, lamports[3])
}

#[test]
fn every_order_ends_as_the_serial_run(rt: HostRuntime) -> Result<(), Fail> {
    let (lamports, units) = serial_run(&FOUR);
    let trial: Trial = trial_of(&rt, rt.alloc(), &FOUR)?;
    for number in 0..4_096 {
        let end = end_of_rows(&rt, rt.alloc(), &trial, &[1, 2, 3], &rows_of(number))?;
        assert!(rt; is_serial(&end, &lamports, &units));
    }
    Ok(())
}
