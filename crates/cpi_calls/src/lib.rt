//! Cross-program calls: what a program asks for, and what its callee is allowed.
#![tactic(auto)]

mod fault;
mod grant;
mod laws;
mod reads;
mod request;
mod signers;

pub use fault::{CallFault, RightsFault};
pub use grant::{Granted, grant_rights};
pub use laws::{grants_are_within_the_caller, numbers_are_as_stated, requests_are_small};
pub use request::{CallRequest, KeyMeta, read_call};
