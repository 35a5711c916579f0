//! The worked examples that name a call of a format or of a rule, and each front of the formats.
mod admitted;
mod batches;
mod derived;
mod devices;
mod fees;
mod keys;
mod logs;
mod pieces;
mod records;
mod rent;
mod roles;
mod rules;
mod snapshots;
mod store;
mod values;
