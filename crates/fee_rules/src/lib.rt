//! What a transaction asks of the machine, what it pays, and its rank among others.
#![tactic(auto)]

mod budget;
mod charge;
mod laws;
mod pricing;
mod request;
mod split;

pub use budget::{Budget, BudgetFault, budget_of};
pub use charge::Fee;
pub use laws::numbers_are_as_stated;
pub use pricing::{fee, priority, total};
pub use split::{FeeSplit, split_fees};
