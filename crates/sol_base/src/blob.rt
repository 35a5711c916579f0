ghost use Rattle.std.specs.Prelude.{◌≡◌, ◌↔◌, ◌++◌, [], IfOk, IsTrue, OnOk, OnErr, length};

use crate::memory::OutOfMemory;
use std::alloc::Global;
use std::marker::Model;

/// A list of bytes.
#[derive(Debug, Drop)]
pub struct Blob {
    inner: Vec<u8>,
}

impl Model for Blob {
    ghost use Rattle.std.specs.Prelude.{List, ℕ};

    ghost Value = { List ℕ };

    ghost view = { λ b. b.inner.items };
}

impl Blob {
    /// No bytes.
    pub fn new(alloc: Global) -> Blob
        ensures { result ≡ [] }
    {
        Blob {
            inner: Vec::new(alloc),
        }
    }

    /// No bytes, with room for `capacity` of them. No clause speaks of the room: it saves time
    /// alone.
    pub fn with_capacity(alloc: Global, capacity: usize) -> Result<Blob, OutOfMemory>
        ensures { IfOk result (λ b. b ≡ []) }
    {
        Ok(Blob {
            inner: Vec::with_capacity(alloc, capacity)?,
        })
    }

    /// A copy of the bytes.
    pub fn from_slice(alloc: Global, bytes: &[u8]) -> Result<Blob, OutOfMemory>
        ensures { IfOk result (λ b. b ≡ bytes.now) }
    {
        Ok(Blob {
            inner: Vec::from_slice(alloc, bytes)?,
        })
    }

    /// The bytes as a vector.
    pub fn into_vec(self) -> Vec<u8>
        ensures { result.items ≡ self }
    {
        let Blob { inner } = self;
        inner
    }

    pub fn as_slice(&self) -> &[u8]
        ensures { result.now ≡ self.now }
    {
        self.inner.as_slice()
    }

    pub fn len(&self) -> usize
        ensures { result ≡ length self.now }
    {
        self.inner.len()
    }

    pub fn is_empty(&self) -> bool
        ensures { IsTrue result ↔ (self.now ≡ []) }
    {
        self.inner.is_empty()
    }

    /// Adds the bytes at the end.
    pub fn append(&mut self, bytes: &[u8]) -> Result<(), OutOfMemory>
        ensures ok { OnOk result (self.new ≡ self.old ++ bytes.now) }
        ensures err { OnErr result (self.new ≡ self.old) }
    {
        self.inner.extend_from_slice(bytes)?;
        Ok(())
    }

    /// Makes room for so many more bytes. No clause speaks of the room: it saves time alone.
    pub fn reserve(&mut self, more: usize) -> Result<(), OutOfMemory>
        ensures { self.new ≡ self.old }
    {
        self.inner.reserve(more)?;
        Ok(())
    }

    /// Takes all bytes away, and keeps the room that they had.
    pub fn clear(&mut self)
        ensures { self.new ≡ [] }
    {
        self.inner.clear();
    }

    /// A copy of the bytes, in memory of its own.
    pub fn try_copy(&self) -> Result<Blob, OutOfMemory>
        ensures { IfOk result (λ b. b ≡ self.now) }
    {
        Ok(Blob {
            inner: self.inner.clone()?,
        })
    }
}
