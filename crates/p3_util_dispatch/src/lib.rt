//! What the package of plain Rust does with the lists of a call: which kernel it runs, and on what. It may cut the call into
//! parts, for threads. No call in Rattle uses this: a call in Rattle knows nothing of the size of an item.
#![tactic(auto)]

pub(crate) mod calls;
pub(crate) mod choice;
mod laws;
pub(crate) mod lines;
pub(crate) mod parts;
