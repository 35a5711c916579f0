//! What a person wants to see of a snapshot.
use account_store::Accounts;
use json_parts::hex_value;
use serde_json::{Value, json};
use std::alloc::{AllocError, Global};

/// How many accounts there are, what they have together, and the keys of the programs among them.
pub(crate) fn accounts_shown(alloc: Global, accounts: &Accounts) -> Result<Value, AllocError> {
    let mut programs = Vec::new(alloc);
    let mut bytes = 0u64;
    for (key, account) in accounts.iter() {
        bytes = bytes.saturating_add(account.bytes.len() as u64);
        if account.executable {
            programs.push(hex_value(alloc, &key.0)?)?;
        }
    }
    let programs = Value::Array(programs);
    json!(in alloc; {
        "accounts": accounts.len(),
        "data_bytes": bytes,
        "lamports": accounts.total(),
        "programs": programs,
    })
}
