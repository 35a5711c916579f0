//! Log lines at the limit.
use sol_base::{Blob, OutOfMemory};
use std::alloc::Global;
use std::test::Fail;
use tx_report::Logs;

/// The lengths of lines that are pushed one after the other, and those of the lines then kept; 13
/// is that of `Log truncated`.
type Pushed = (&'static [usize], &'static [usize]);

const PUSHED: [Pushed; 4] = [
    (&[9_999, 1], &[9_999, 1]),
    (&[10_000, 0, 1, 0], &[10_000, 0, 13]),
    (&[10_001, 1], &[13]),
    (&[9_999, 2, 1, 5], &[9_999, 13]),
];

fn push(alloc: Global, logs: &mut Logs, length: usize) -> Result<(), OutOfMemory> {
    let line = vec![in alloc; b'x'; length]?;
    logs.push_line(line.as_slice())
}

fn pushed(alloc: Global, lengths: &[usize]) -> Result<Logs, OutOfMemory> {
    let mut logs = Logs::new(alloc);
    for length in lengths {
        push(alloc, &mut logs, *length)?;
    }
    Ok(logs)
}

/// Whether the lines have these lengths.
fn have_lengths(lines: &[Blob], lengths: &[usize]) -> bool {
    for (line, length) in lines.iter().zip(lengths) {
        if line.len() != *length {
            return false;
        }
    }
    lines.len() == lengths.len()
}

/// Whether the last line says that lines are missing.
fn is_cut(lines: &[Blob]) -> bool {
    match lines.last() {
        Some(line) => line.as_slice() == b"Log truncated".as_slice(),
        None => false,
    }
}

/// Whether the lines that a row pushes are kept with its lengths, and cut where one has 13 bytes.
fn are_kept(alloc: Global, row: &Pushed) -> Result<bool, OutOfMemory> {
    let logs = pushed(alloc, row.0)?;
    let lengths = have_lengths(logs.lines(), row.1);
    let lines = logs.into_lines();
    Ok(lengths && is_cut(lines.as_slice()) == row.1.contains(&13))
}

#[test]
fn lines_are_kept_up_to_ten_thousand_bytes(rt: HostRuntime) -> Result<(), Fail> {
    for row in &PUSHED {
        assert!(rt; are_kept(rt.alloc(), row)?);
    }
    Ok(())
}
