//! A transaction that is performed.

use admission::Chosen;
use invoke_engine::Context;

/// What is fixed over a transaction: what its frames have around them, and the transaction itself.
#[derive(Drop)]
pub struct Transaction<'a> {
    pub context: Context<'a>,
    pub chosen: &'a Chosen,
}
