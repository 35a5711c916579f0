//! The bytes of a region while it is made.
ghost use Rattle.std.specs.Prelude.{◌≡◌, ◌++◌, ◌<◌, ◌^◌, [], length, replicate, IfOk, OnOk};
ghost use Rattle.std.specs.Arc.{arc_value};
ghost use Rattle.sol_base.specs.declared.account.Account.{Account as AccountValue};
ghost use Rattle.data_parts.specs.Parts.{bytes_of, lent_by, lent_from, part_bytes, unprepared};
ghost use Rattle.abi_input.specs.Region.{lent_of};

use data_parts::{Part, Parts};
use sol_base::{Account, Blob, Items, OutOfMemory};
use std::alloc::Global;
use std::marker::Model;
use std::mem;
use std::sync::Arc;

/// How many bytes of its own a region has from the data of one account to those of the next.
const OWN_LEN: usize = 104;

/// A list of parts while it is made: those that are done, and bytes of its own that may go on.
#[derive(Drop)]
pub struct Draft {
    alloc: Global,
    done: Items<Part>,
    last: Blob,
}

impl Model for Draft {
    ghost use Rattle.std.specs.Prelude.{◌++◌};
    ghost use Rattle.data_parts.specs.Parts.{bytes_of, lent_from};
    ghost use Rattle.abi_input.specs.Drafts.{Drafted};

    ghost Value = { Drafted };

    ghost view = { λ d. record { bytes = bytes_of d.done ++ d.last; lent = lent_from 0 d.done } };
}

impl Draft {
    /// No bytes, with room for so many parts.
    pub fn new(alloc: Global, parts: usize) -> Result<Draft, OutOfMemory>
        ensures bytes { IfOk result (λ draft. draft.bytes ≡ []) }
        ensures lent { IfOk result (λ draft. draft.lent ≡ []) }
    {
        Ok(Draft {
            alloc,
            done: Items::with_capacity(alloc, parts)?,
            last: Blob::with_capacity(alloc, OWN_LEN)?,
        })
    }

    pub fn append(&mut self, bytes: &[u8]) -> Result<(), OutOfMemory>
        ensures bytes { OnOk result (self.new.bytes ≡ self.old.bytes ++ bytes.now) }
        ensures lent { self.new.lent ≡ self.old.lent }
    {
        self.last.append(bytes)
    }

    /// Adds the data of an account, which are lent.
    pub fn lend(&mut self, account: &Arc<Account>) -> Result<(), OutOfMemory>
        ensures bytes { OnOk result
            (let value : AccountValue = arc_value account.now in
            self.new.bytes ≡ self.old.bytes ++ value.bytes) }
        ensures lent { OnOk result (self.new.lent
            ≡ self.old.lent ++ lent_of (length self.old.bytes) (arc_value account.now)) }
    {
        self.add(Part::Lent(Arc::try_clone(account)?))
    }

    /// Adds so many zeros, which are nowhere yet.
    pub fn zeros(&mut self, count: u32) -> Result<(), OutOfMemory>
        ensures bytes { OnOk result (self.new.bytes ≡ self.old.bytes ++ replicate count 0) }
        ensures lent { OnOk result (self.new.lent ≡ self.old.lent) }
    {
        self.add(Part::Zeros(count))
    }

    /// Adds a part behind the bytes that came so far.
    fn add(&mut self, part: Part) -> Result<(), OutOfMemory>
        ensures bytes { OnOk result (self.new.bytes ≡ self.old.bytes ++ part_bytes part) }
        ensures lent { OnOk result
            (self.new.lent ≡ self.old.lent ++ lent_by (length self.old.bytes) part) }
    {
        close(self.alloc, &mut self.done, &mut self.last)?;
        self.done.push(part)?;
        Ok(())
    }

    /// The list of the parts.
    pub fn finish(self) -> Result<Parts, OutOfMemory>
        requires { length self.bytes < 2 ^ 32 }
        ensures { IfOk result (λ region. region ≡ unprepared self.bytes self.lent) }
    {
        let Draft {
            alloc,
            mut done,
            last,
        } = self;
        done.push(Part::Bytes(last))?;
        Parts::from_items(alloc, done)
    }
}

/// Makes the last bytes a part that is done.
fn close(alloc: Global, done: &mut Items<Part>, last: &mut Blob) -> Result<(), OutOfMemory>
    ensures done { OnOk result (bytes_of done.new ≡ bytes_of done.old ++ last.old) }
    ensures lent { OnOk result (lent_from 0 done.new ≡ lent_from 0 done.old) }
    ensures last { OnOk result (last.new ≡ []) }
{
    if last.is_empty() {
        return Ok(());
    }
    let next = Blob::with_capacity(alloc, OWN_LEN)?;
    let whole = mem::replace(last, next);
    done.push(Part::Bytes(whole))?;
    Ok(())
}
