//! Lines of text, indented by the depth of frames.

use sol_base::{Blob, Key, OutOfMemory, key_text};
use std::alloc::Global;

/// The text so far. Where the memory was not enough for a part of it, `finish` says so.
#[derive(Drop)]
pub(crate) struct Page {
    pub(crate) alloc: Global,
    out: Blob,
    is_whole: bool,
}

impl Page {
    pub(crate) fn new(alloc: Global) -> Page {
        Page {
            alloc,
            out: Blob::new(alloc),
            is_whole: true,
        }
    }

    pub(crate) fn bytes(&mut self, bytes: &[u8]) {
        if self.out.append(bytes).is_err() {
            self.is_whole = false;
        }
    }

    pub(crate) fn text(&mut self, text: &str) {
        self.bytes(text.as_bytes());
    }

    /// A number behind a label, in decimal digits.
    pub(crate) fn number(&mut self, label: &str, number: u64) {
        self.text(label);
        self.bytes(itoa::Buffer::new().format(number).as_bytes());
    }

    /// A number behind a label, in hexadecimal digits.
    pub(crate) fn word(&mut self, label: &str, word: u64) {
        self.text(label);
        match format!(in self.alloc; "{word:#x}") {
            Ok(text) => self.text(text.as_str()),
            Err(_) => self.is_whole = false,
        }
    }

    /// A byte behind a label, in two hexadecimal digits.
    pub(crate) fn byte(&mut self, label: &str, byte: u8) {
        self.text(label);
        match format!(in self.alloc; "{byte:#04x}") {
            Ok(text) => self.text(text.as_str()),
            Err(_) => self.is_whole = false,
        }
    }

    pub(crate) fn key(&mut self, label: &str, key: &Key) {
        self.text(label);
        self.bytes(&key_text(key));
    }

    /// Bytes behind a label, in hexadecimal digits.
    pub(crate) fn hex(&mut self, label: &str, bytes: &[u8]) {
        self.text(label);
        match hex::encode(self.alloc, bytes) {
            Ok(text) => self.text(text.as_str()),
            Err(_) => self.is_whole = false,
        }
    }

    /// Begins a line at a depth.
    pub(crate) fn indent(&mut self, depth: usize) {
        for _level in 0..depth {
            self.text("  ");
        }
    }

    /// Ends a line.
    pub(crate) fn end(&mut self) {
        self.text("\n");
    }

    /// The whole text.
    pub(crate) fn finish(self) -> Result<Blob, OutOfMemory> {
        let Page {
            alloc: _,
            out,
            is_whole,
        } = self;
        if is_whole { Ok(out) } else { Err(OutOfMemory) }
    }
}
