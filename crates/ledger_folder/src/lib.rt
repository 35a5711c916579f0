//! The folder of a chain: its files by their names, the steps that change them, what a crash may
//! leave of them, and the folder over the system's files with the lock of the one who writes.
#![tactic(auto)]

mod event;
mod failure;
mod folder;
mod lock;
mod log;
mod memory;
mod name;
mod standard;

pub use event::Event;
pub use failure::{FailedAt, Failure};
pub use folder::{Folder, FolderFault};
pub use lock::{FolderLock, LockFault, lock_folder};
pub use memory::MemFolder;
pub use name::Name;
pub use standard::{StdFolder, make_folder};
