//! Final buffers made executable.
ghost use Rattle.std.specs.Prelude.{◌≡◌, IfOk};
ghost use Rattle.loader_prog.specs.Loader.{activated};

use crate::buffer::{holds_final, image_of};
use crate::image::{Candidate, examine};
use sol_base::{Account, Blob, LOADER_PROGRAM, OutOfMemory};
use std::alloc::Global;

/// The account as an executable one that holds its image alone, where it is a final buffer of the
/// loader whose image has a verified text.
#[tactic(auto, unfolding(crate::specs::Loader::activated))]
pub fn activate_one(alloc: Global, account: &Account) -> Result<Option<Account>, OutOfMemory>
    ensures { IfOk result (λ answer. answer ≡ activated account.now) }
{
    let bytes = account.bytes.as_slice();
    if account.owner != LOADER_PROGRAM || account.executable || !holds_final(bytes) {
        return Ok(None);
    }
    let image = image_of(bytes);
    match examine(image) {
        Candidate::Verified => Ok(Some(Account {
            lamports: account.lamports,
            owner: account.owner,
            executable: true,
            bytes: Blob::from_slice(alloc, image)?,
        })),
        _ => Ok(None),
    }
}
