//! Which transactions of a batch run, and in which order.
ghost use Rattle.std.specs.Prelude.{◌≡◌, ◌<◌, ◌≤◌, ◌^◌, All, IfOk, length};
ghost use Rattle.std.specs.List.{IsDistinct};
ghost use Rattle.sol_base.specs.Keys.{same_key};
ghost use Rattle.sol_base.specs.Locks.{lock_keys};
ghost use Rattle.sol_base.specs.Limits.{max_transaction_keys};
ghost use Rattle.admission.specs.Admission.{AreParsed, admitted, listed, start_of, walk};
ghost use Rattle.admission.specs.Answers.{IsAnswer, told_by};
ghost use Rattle.admission.specs.Sums.{numbered_in, with_late};
ghost use Rattle.admission.specs.Weighing.{AreWeighed};

use crate::beside::weigh_on;
use crate::candidate::Candidate;
use crate::chosen::{Admitted, InLine};
use crate::line::line;
use crate::refusal::Refusal;
use crate::sift::{Sifted, sift};
use crate::walk::{numbered, walk};
use crate::weighing::{Weighed, weigh_from};
use account_store::Accounts;
use message_codec::{Parsed, parse};
use sol_base::{Blob, Items, Limits, OutOfMemory};
use status_cache::Recent;
use std::alloc::Global;
use std::thread::Threads;

/// Which transactions of a batch run, in the order of their priorities, and why the others do not.
pub fn admit(
    alloc: Global,
    wires: &Items<Blob>,
    recent: &Recent,
    accounts: &Accounts,
    limits: &Limits,
) -> Result<Admitted, OutOfMemory>
    requires keys { limits.now.keys ≤ max_transaction_keys }
    requires few { length wires.now < 2 ^ 32 }
    ensures { IfOk result (IsAnswer
        (admitted (start_of recent.now accounts.now limits.now) wires.now)) }
{
    let line = line_up(alloc, wires, recent, accounts, limits)?;
    unboxed(alloc, line)
}

/// Which transactions of a batch run, as pointers in the order of their priorities, and why the others
/// do not.
pub fn line_up(
    alloc: Global,
    wires: &Items<Blob>,
    recent: &Recent,
    accounts: &Accounts,
    limits: &Limits,
) -> Result<InLine, OutOfMemory>
    requires keys { limits.now.keys ≤ max_transaction_keys }
    requires few { length wires.now < 2 ^ 32 }
    ensures { IfOk result (λ line. IsAnswer
        (admitted (start_of recent.now accounts.now limits.now) wires.now) (told_by line)) }
{
    let parsed = parse_all(alloc, wires)?;
    line_up_parsed(alloc, wires, parsed, recent, accounts, limits)
}

/// What becomes of wires that were read before.
pub fn admit_parsed(
    alloc: Global,
    wires: &Items<Blob>,
    parsed: Items<Parsed>,
    recent: &Recent,
    accounts: &Accounts,
    limits: &Limits,
) -> Result<Admitted, OutOfMemory>
    requires read { AreParsed wires.now parsed }
    requires keys { limits.now.keys ≤ max_transaction_keys }
    requires few { length wires.now < 2 ^ 32 }
    ensures { IfOk result (IsAnswer
        (admitted (start_of recent.now accounts.now limits.now) wires.now)) }
{
    let line = line_up_parsed(alloc, wires, parsed, recent, accounts, limits)?;
    unboxed(alloc, line)
}

/// Which transactions of a batch whose wires were read before run, as pointers in the order of their
/// priorities, and why the others do not.
fn line_up_parsed(
    alloc: Global,
    wires: &Items<Blob>,
    parsed: Items<Parsed>,
    recent: &Recent,
    accounts: &Accounts,
    limits: &Limits,
) -> Result<InLine, OutOfMemory>
    requires read { AreParsed wires.now parsed }
    requires keys { limits.now.keys ≤ max_transaction_keys }
    requires few { length wires.now < 2 ^ 32 }
    ensures { IfOk result (λ line. IsAnswer
        (admitted (start_of recent.now accounts.now limits.now) wires.now) (told_by line)) }
{
    let weighed = weigh_from(alloc, recent, accounts, limits, 0, parsed)?;
    line_up_weighed(alloc, wires, recent, accounts, limits, weighed)
}

/// Which transactions of a batch whose wires were read before run, on so many lanes: on several, a few
/// threads weigh the wires beside each other. Few wires are weighed by the caller alone, and on one
/// lane no thread is started.
pub fn line_up_on<R: Threads + Sync>(
    rt: &R,
    alloc: Global,
    lanes: u32,
    wires: &Items<Blob>,
    parsed: Items<Parsed>,
    recent: &Recent,
    accounts: &Accounts,
    limits: &Limits,
) -> Result<InLine, OutOfMemory>
    requires read { AreParsed wires.now parsed }
    requires keys { limits.now.keys ≤ max_transaction_keys }
    requires few { length wires.now < 2 ^ 32 }
    ensures { IfOk result (λ line. IsAnswer
        (admitted (start_of recent.now accounts.now limits.now) wires.now) (told_by line)) }
{
    let weighed = weigh_on(rt, alloc, lanes, recent, accounts, limits, parsed)?;
    line_up_weighed(alloc, wires, recent, accounts, limits, weighed)
}

/// Which transactions of a batch run whose wires were weighed before, each alone. The wires, the blocks
/// that are remembered and the accounts are not looked at again: they say what was weighed.
fn line_up_weighed(
    alloc: Global,
    wires: &Items<Blob>,
    recent: &Recent,
    accounts: &Accounts,
    limits: &Limits,
    weighed: Items<Weighed>,
) -> Result<InLine, OutOfMemory>
    requires weighed { AreWeighed (start_of recent.now accounts.now limits.now) wires.now weighed }
    requires keys { limits.now.keys ≤ max_transaction_keys }
    requires few { length wires.now < 2 ^ 32 }
    ensures { IfOk result (λ line. IsAnswer
        (admitted (start_of recent.now accounts.now limits.now) wires.now) (told_by line)) }
{
    let Sifted { standing, causes } = sift(alloc, weighed)?;
    let line = line(standing)?;
    admit_line(alloc, limits, line, causes)
}

/// What becomes of a batch where its transactions run in its own order.
pub fn admit_listed(
    alloc: Global,
    wires: &Items<Blob>,
    recent: &Recent,
    accounts: &Accounts,
    limits: &Limits,
) -> Result<Admitted, OutOfMemory>
    requires keys { limits.now.keys ≤ max_transaction_keys }
    requires few { length wires.now < 2 ^ 32 }
    ensures { IfOk result (IsAnswer
        (listed (start_of recent.now accounts.now limits.now) wires.now)) }
{
    let line = line_up_listed(alloc, wires, recent, accounts, limits)?;
    unboxed(alloc, line)
}

/// What becomes of a batch where its transactions run in its own order, those that run as pointers.
pub fn line_up_listed(
    alloc: Global,
    wires: &Items<Blob>,
    recent: &Recent,
    accounts: &Accounts,
    limits: &Limits,
) -> Result<InLine, OutOfMemory>
    requires keys { limits.now.keys ≤ max_transaction_keys }
    requires few { length wires.now < 2 ^ 32 }
    ensures { IfOk result (λ line. IsAnswer
        (listed (start_of recent.now accounts.now limits.now) wires.now) (told_by line)) }
{
    let parsed = parse_all(alloc, wires)?;
    let weighed = weigh_from(alloc, recent, accounts, limits, 0, parsed)?;
    let Sifted { standing, causes } = sift(alloc, weighed)?;
    admit_line(alloc, limits, standing, causes)
}

/// What becomes of a batch, with the transactions that run in place of pointers to them.
fn unboxed(alloc: Global, line: InLine) -> Result<Admitted, OutOfMemory>
    ensures { IfOk result (λ answer. answer ≡ told_by line) }
{
    let InLine { order, refused } = line;
    let mut chosen = Items::with_capacity(alloc, order.len())?;
    for one in order.into_vec() {
        chosen.push(one.into_chosen())?;
    }
    Ok(Admitted {
        order: chosen,
        refused,
    })
}

/// Reads all wires.
fn parse_all(alloc: Global, wires: &Items<Blob>) -> Result<Items<Parsed>, OutOfMemory>
    ensures { IfOk result (AreParsed wires.now) }
{
    let mut parsed = Items::with_capacity(alloc, wires.len())?;
    for wire in wires.as_slice() {
        parsed.push(parse(alloc, wire.as_slice())?)?;
    }
    Ok(parsed)
}

/// Walks the line, and gives each position that has a cause its place.
fn admit_line(
    alloc: Global,
    limits: &Limits,
    line: Vec<Candidate>,
    mut causes: Vec<Option<Refusal>>,
) -> Result<InLine, OutOfMemory>
    requires few { length causes.items < 2 ^ 32 }
    requires places { All (λ one. one.position < length causes.items) line.items }
    requires apart { All (λ one. IsDistinct same_key (lock_keys one.locks)) line.items }
    ensures order { IfOk result (λ answer. answer.order ≡ (walk limits.now line.items).order) }
    ensures refused { IfOk result (λ answer.
        answer.refused
        ≡ numbered_in (with_late (walk limits.now line.items).refused causes.items)) }
{
    let order = walk(alloc, limits, line, &mut causes)?;
    Ok(InLine {
        order: Items::from_vec(order),
        refused: numbered(alloc, &causes)?,
    })
}
