//! Crashes and damage, over files in memory.
mod crashes;
mod damage;
mod inputs;
