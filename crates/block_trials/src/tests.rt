//! Blocks on several lanes, and the top call.
mod blocks;
mod gates;
mod inputs;
mod top;
mod words;
