//! Bytes in and out: sources and sinks whose faults are counted, devices in memory for tests, the
//! adapters of the standard streams, and reading and writing whole.
#![tactic(auto)]

mod device;
mod fault;
mod memory;
mod never;
mod standard;
mod whole;

pub use device::{Sink, Source};
pub use fault::{Failed, ReadFault, SinkFault, WriteFault};
pub use memory::{MemSink, MemSource};
pub use never::{NeverSink, NeverSource};
pub use standard::{StdSink, StdSource};
pub use whole::{read_all, write_all};
