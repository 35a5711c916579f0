//! What is kept for a key.
ghost use Rattle.std.specs.Prelude.{◌≡◌, ◌+◌, ◌≤◌, length, IfOk};
ghost use Rattle.sol_base.specs.Accounts.{IsShort, max_data_len};
ghost use Rattle.sbpf_verify.specs.Verified.{unfit};
ghost use Rattle.program_cache.specs.Programs.{found_as, judged, program_in, account_as, sought_in};
ghost use Rattle.program_cache.specs.Kept.{kept_as};

use crate::found::Found;
use crate::image::Image;
use account_store::Accounts;
use sbpf_verify::{VerifyFault, read_image, verify};
use sol_base::{Account, Blob, Key, OutOfMemory};
use std::alloc::Global;

/// What is kept for a key.
#[derive(Drop)]
pub enum Kept {
    Ready(Image),
    Absent,
    NotProgram,
    Bad,
    Unverified(VerifyFault),
}

impl Kept {
    pub fn found(&self) -> Found<'_>
        ensures { found_as result ≡ kept_as self.now }
    {
        match self {
            Kept::Ready(image) => Found::Ready(image),
            Kept::Absent => Found::NotFound,
            Kept::NotProgram => Found::NotProgram,
            Kept::Bad => Found::Bad,
            Kept::Unverified(fault) => Found::Unverified(*fault),
        }
    }
}

/// What an image is as a program, by its text and its constants.
fn image_program(alloc: Global, text: &[u8], constants: &[u8]) -> Result<Kept, OutOfMemory>
    requires { length text.now + length constants.now ≤ max_data_len }
    ensures { IfOk result (λ kept. kept_as kept
        ≡ judged (record { text = text.now; constants = constants.now }) (unfit text.now)) }
{
    match verify(Blob::from_slice(alloc, text)?) {
        Ok(program) => Ok(Kept::Ready(Image::of(alloc, program, constants)?)),
        Err(unfit) => Ok(Kept::Unverified(unfit.cause)),
    }
}

/// What the data of an executable account are as a program.
fn program_of(alloc: Global, bytes: &[u8]) -> Result<Kept, OutOfMemory>
    requires { length bytes.now ≤ max_data_len }
    ensures { IfOk result (λ kept. kept_as kept ≡ program_in bytes.now) }
{
    match read_image(bytes) {
        None => Ok(Kept::Bad),
        Some(image) => image_program(alloc, image.text, image.constants),
    }
}

/// What an account is as a program.
fn account_program(alloc: Global, account: &Account) -> Result<Kept, OutOfMemory>
    requires { IsShort account.now }
    ensures { IfOk result (λ kept. kept_as kept ≡ account_as account.now) }
{
    if account.executable {
        program_of(alloc, account.bytes.as_slice())
    } else {
        Ok(Kept::NotProgram)
    }
}

/// What is found under a key.
pub fn found_under(alloc: Global, accounts: &Accounts, key: &Key) -> Result<Kept, OutOfMemory>
    ensures { IfOk result (λ kept. kept_as kept ≡ sought_in accounts.now key.now) }
{
    match accounts.get(key) {
        None => Ok(Kept::Absent),
        Some(account) => account_program(alloc, account),
    }
}
