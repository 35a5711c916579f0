//! The hash that a file ends in.
ghost use Rattle.std.specs.Prelude.{◌≡◌, IfOk, OnOk};
ghost use Rattle.std.specs.Option.{ForSome};
ghost use Rattle.std.specs.Arc.{arc_value};
ghost use Rattle.spec_base.specs.Reading.{Gives};
ghost use Rattle.ledger_store.specs.Faults.{NeverFails, is_ledger_memory};
ghost use Rattle.ledger_store.specs.Seal.{body_of, is_sealed, seal_at, sealed, unsealed};

use crate::fault::LedgerFault;
use ledger_folder::Name;
use sha2::{Digest, Sha256};
use sol_base::{Blob, OutOfMemory};
use std::alloc::Global;
use std::snapshot::Snapshot;
use std::sync::Arc;
use std::thread;
use std::thread::{Promise, PromisedHandle, Threads};

/// The bytes of the hash.
const SEAL_LEN: usize = 32;

/// Where the hash is.
pub(crate) fn seal_at(bytes: &[u8]) -> usize
    ensures { result ≡ seal_at bytes.now }
{
    bytes.len().saturating_sub(SEAL_LEN)
}

/// What is before the hash, whatever that is.
pub(crate) fn unsealed(bytes: &[u8]) -> &[u8]
    ensures { result.now ≡ unsealed bytes.now }
{
    &bytes[..seal_at(bytes)]
}

/// Whether the hash is that of what is before it.
pub(crate) fn is_sealed(bytes: &[u8]) -> bool
    ensures { result ≡ is_sealed bytes.now }
{
    let (body, seal) = bytes.split_at(seal_at(bytes));
    Sha256::digest(body).as_slice() == seal
}

/// What is before the hash that the file ends in, where that is its hash.
#[tactic(auto, unfolding(crate::specs::Seal::body_of))]
pub(crate) fn body_of(name: Name, bytes: &[u8]) -> Result<&[u8], LedgerFault>
    ensures gives { Gives is_ledger_memory (λ body. body.now) result (body_of name bytes.now) }
    ensures quiet { NeverFails result }
{
    if !is_sealed(bytes) {
        return Err(LedgerFault::Damaged {
            name,
            at: seal_at(bytes),
        });
    }
    Ok(unsealed(bytes))
}

/// What a thread is to tell of a file: whether it ends in its hash.
#[derive(Drop)]
pub(crate) struct SealOf(Snapshot<Arc<Blob>>);

impl Promise<bool> for SealOf {
    ghost use Rattle.std.specs.Prelude.{◌≡◌};
    ghost use Rattle.std.specs.Arc.{arc_value};
    ghost use Rattle.ledger_store.specs.Seal.{is_sealed};

    ghost kept_by = { λ p told. told ≡ is_sealed (arc_value p.0.value) };
}

/// A file whose hash is looked at in a thread of its own, if one could be made, while the file is read,
/// or was looked at already.
#[derive(Drop)]
pub(crate) struct Watched {
    name: Name,
    bytes: Arc<Blob>,
    child: Option<PromisedHandle<bool, SealOf>>,
    sealed: Option<bool>,
    ghost same: { ForSome child (λ h. arc_value h.promise.0.value ≡ arc_value bytes) },
    ghost looked: { ForSome sealed (λ told. told ≡ is_sealed (arc_value bytes)) },
}

impl Watched {
    /// Begins to look at the hash of a file.
    pub(crate) fn begin<T: Threads>(
        threads: &T,
        alloc: Global,
        name: Name,
        bytes: Blob,
    ) -> Result<Watched, OutOfMemory>
        ensures name { IfOk result (λ file. file.name ≡ name) }
        ensures bytes { IfOk result (λ file. arc_value file.bytes ≡ bytes) }
    {
        let bytes = Arc::new(alloc, bytes)?;
        let theirs = Arc::try_clone(&bytes)?;
        let seal = SealOf(Snapshot::of(&theirs));
        let child = thread::spawn_with(threads, seal, move || is_sealed(theirs.as_slice())).ok();
        Ok(Watched {
            name,
            bytes,
            child,
            sealed: None,
        })
    }

    /// A file whose hash was looked at.
    pub(crate) fn seen(name: Name, bytes: Arc<Blob>, sealed: bool) -> Watched
        requires { sealed ≡ is_sealed (arc_value bytes) }
        ensures name { result.name ≡ name }
        ensures bytes { arc_value result.bytes ≡ arc_value bytes }
    {
        Watched {
            name,
            bytes,
            child: None,
            sealed: Some(sealed),
        }
    }

    /// What the file is.
    pub(crate) fn name(&self) -> Name
        ensures { result ≡ self.now.name }
    {
        self.name
    }

    /// The bytes of the file.
    pub(crate) fn as_slice(&self) -> &[u8]
        ensures { result.now ≡ arc_value self.now.bytes }
    {
        self.bytes.as_slice()
    }

    /// Whether the file ends in its hash: what the thread saw, or what is seen here.
    pub(crate) fn is_sealed<T: Threads>(self, threads: &T) -> bool
        ensures { result ≡ is_sealed (arc_value self.bytes) }
    {
        let Watched {
            bytes,
            child,
            sealed,
            ..
        } = self;
        match (child, sealed) {
            (Some(child), _) => child.join(threads),
            (None, Some(sealed)) => sealed,
            (None, None) => is_sealed(bytes.as_slice()),
        }
    }
}

/// Adds the hash of all that is there.
pub(crate) fn seal(out: &mut Blob) -> Result<(), OutOfMemory>
    ensures { OnOk result (out.new ≡ sealed out.old) }
{
    let hash = Sha256::digest(out.as_slice());
    out.append(&hash)
}
