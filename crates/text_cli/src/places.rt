//! Which field of a snapshot, a batch, a record or a program image is at a place.
use sol_base::OutOfMemory;
use std::alloc::Global;

/// A name of a field and its bytes.
type Field = (&'static str, usize);

const SNAPSHOT_ONE: [Field; 3] = [("magic", 8), ("slot", 8), ("number of marks", 4)];

const SNAPSHOT_TWO: [Field; 7] = [
    ("magic", 8),
    ("slot", 8),
    ("keys per transaction", 2),
    ("stack height", 1),
    ("units per writable key", 8),
    ("units per block", 8),
    ("number of marks", 4),
];

const ACCOUNT: [Field; 5] = [
    ("key", 32),
    ("lamports", 8),
    ("owner", 32),
    ("executable", 1),
    ("data length", 4),
];

const BATCH: [Field; 4] = [
    ("magic", 8),
    ("slot", 8),
    ("collector", 32),
    ("number of transactions", 4),
];

const RECORD: [Field; 5] = [
    ("magic", 8),
    ("slot", 8),
    ("collector", 32),
    ("previous hash", 32),
    ("number of entries", 4),
];

const ENTRY: [Field; 4] = [
    ("status", 8),
    ("units", 8),
    ("fee", 8),
    ("number of lines", 2),
];

const RECORD_END: [Field; 4] = [
    ("burned", 8),
    ("collected", 8),
    ("state hash", 32),
    ("block hash", 32),
];

/// A walk over fields up to the one at a place.
#[derive(Drop)]
struct Walk<'a> {
    bytes: &'a [u8],
    at: usize,
    sought: usize,
}

impl<'a> Walk<'a> {
    /// Whether the field of so many bytes is the one at the place; else it is passed.
    fn is_at(&mut self, len: usize) -> bool {
        if len > 0 && self.at >= self.sought {
            return true;
        }
        self.at = self.at.saturating_add(len);
        false
    }

    /// The first of the fields that is at the place. Where none is, all are passed.
    fn field(&mut self, fields: &[Field]) -> Option<&'static str> {
        for (name, len) in fields {
            if self.is_at(*len) {
                return Some(*name);
            }
        }
        None
    }

    /// The number in the bytes before this place, little-endian.
    fn number_before(&self, width: usize) -> usize {
        let mut number = 0usize;
        for before in 0..width {
            let at = self.at.saturating_sub(before).saturating_sub(1);
            let byte = match self.bytes.get(at) {
                Some(byte) => usize::from(*byte),
                None => 0,
            };
            number = number.saturating_mul(256).saturating_add(byte);
        }
        number
    }
}

/// The name of a field, and which of several things it is of.
fn of(alloc: Global, name: &str, thing: &str, at: usize) -> Result<String, OutOfMemory> {
    Ok(format!(in alloc; "{name} of {thing} {at}")?)
}

fn plain(alloc: Global, name: &str) -> Result<String, OutOfMemory> {
    Ok(String::from_str(alloc, name)?)
}

fn mark_field(
    alloc: Global,
    walk: &mut Walk<'_>,
    mark: usize,
) -> Result<Option<String>, OutOfMemory> {
    if let Some(name) = walk.field(&[("hash", 32), ("number of messages", 4)]) {
        return Ok(Some(of(alloc, name, "mark", mark)?));
    }
    let messages = walk.number_before(4);
    for message in 0..messages {
        if walk.is_at(32) {
            return Ok(Some(format!(in alloc; "message {message} of mark {mark}")?));
        }
    }
    Ok(None)
}

fn account_field(
    alloc: Global,
    walk: &mut Walk<'_>,
    account: usize,
) -> Result<Option<String>, OutOfMemory> {
    if let Some(name) = walk.field(&ACCOUNT) {
        return Ok(Some(of(alloc, name, "account", account)?));
    }
    let len = walk.number_before(4);
    if walk.is_at(len) {
        return Ok(Some(of(alloc, "data", "account", account)?));
    }
    Ok(None)
}

/// The field of a snapshot that is at the place.
pub(crate) fn snapshot_field(
    alloc: Global,
    bytes: &[u8],
    sought: usize,
) -> Result<String, OutOfMemory> {
    let mut walk = Walk {
        bytes,
        at: 0,
        sought,
    };
    let head = if bytes.starts_with(b"SOLSNAP1") {
        walk.field(&SNAPSHOT_ONE)
    } else {
        walk.field(&SNAPSHOT_TWO)
    };
    if let Some(name) = head {
        return plain(alloc, name);
    }
    let marks = walk.number_before(4);
    for mark in 0..marks {
        if let Some(name) = mark_field(alloc, &mut walk, mark)? {
            return Ok(name);
        }
    }
    if walk.is_at(4) {
        return plain(alloc, "number of accounts");
    }
    let accounts = walk.number_before(4);
    for account in 0..accounts {
        if let Some(name) = account_field(alloc, &mut walk, account)? {
            return Ok(name);
        }
    }
    plain(alloc, "end")
}

/// The field of a batch that is at the place.
pub(crate) fn batch_field(
    alloc: Global,
    bytes: &[u8],
    sought: usize,
) -> Result<String, OutOfMemory> {
    let mut walk = Walk {
        bytes,
        at: 0,
        sought,
    };
    if let Some(name) = walk.field(&BATCH) {
        return plain(alloc, name);
    }
    let count = walk.number_before(4);
    for transaction in 0..count {
        if walk.is_at(2) {
            return of(alloc, "length", "transaction", transaction);
        }
        let len = walk.number_before(2);
        if walk.is_at(len) {
            return of(alloc, "bytes", "transaction", transaction);
        }
    }
    plain(alloc, "end")
}

fn line_field(
    alloc: Global,
    walk: &mut Walk<'_>,
    entry: usize,
) -> Result<Option<String>, OutOfMemory> {
    let lines = walk.number_before(2);
    for line in 0..lines {
        if walk.is_at(2) {
            return Ok(Some(format!(in alloc; "length of line {line} of entry {entry}")?));
        }
        let len = walk.number_before(2);
        if walk.is_at(len) {
            return Ok(Some(format!(in alloc; "line {line} of entry {entry}")?));
        }
    }
    Ok(None)
}

fn entry_field(
    alloc: Global,
    walk: &mut Walk<'_>,
    entry: usize,
) -> Result<Option<String>, OutOfMemory> {
    if walk.is_at(2) {
        return Ok(Some(of(alloc, "length", "entry", entry)?));
    }
    let len = walk.number_before(2);
    if walk.is_at(len) {
        return Ok(Some(of(alloc, "transaction", "entry", entry)?));
    }
    if let Some(name) = walk.field(&ENTRY) {
        return Ok(Some(of(alloc, name, "entry", entry)?));
    }
    line_field(alloc, walk, entry)
}

/// The field of a record that is at the place.
pub(crate) fn record_field(
    alloc: Global,
    bytes: &[u8],
    sought: usize,
) -> Result<String, OutOfMemory> {
    let mut walk = Walk {
        bytes,
        at: 0,
        sought,
    };
    if let Some(name) = walk.field(&RECORD) {
        return plain(alloc, name);
    }
    let entries = walk.number_before(4);
    for entry in 0..entries {
        if let Some(name) = entry_field(alloc, &mut walk, entry)? {
            return Ok(name);
        }
    }
    match walk.field(&RECORD_END) {
        Some(name) => plain(alloc, name),
        None => plain(alloc, "end"),
    }
}

/// Where the bytes stop being a program image.
#[derive(Clone, Copy)]
pub(crate) struct ImageEnd {
    /// The field that does not fit, or the end.
    pub(crate) field: &'static str,
    pub(crate) at: usize,
    pub(crate) is_cut: bool,
}

/// The first field of a program image that does not fit, and where all do, the end behind them.
pub(crate) fn image_end(bytes: &[u8]) -> ImageEnd {
    let slots = Walk {
        bytes,
        at: 12,
        sought: 0,
    };
    let constants = Walk {
        bytes,
        at: 16,
        sought: 0,
    };
    let fields: [Field; 4] = [
        ("number of slots", 4),
        ("number of constant bytes", 4),
        ("text", slots.number_before(4).saturating_mul(8)),
        ("constants", constants.number_before(4)),
    ];
    let mut at = 8usize;
    for (field, len) in &fields {
        let end = at.saturating_add(*len);
        if end > bytes.len() {
            return ImageEnd {
                field: *field,
                at,
                is_cut: true,
            };
        }
        at = end;
    }
    ImageEnd {
        field: "end",
        at,
        is_cut: false,
    }
}
